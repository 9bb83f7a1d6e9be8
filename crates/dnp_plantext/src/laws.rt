//! Laws of the words of `specs/`: each function does nothing, and its contract is a law.
ghost use Rattle.std.specs.Prelude.{◌≡◌};
ghost use Rattle.dnp_plantext.specs.declared.plan_text.fields.TheConstants as fields;

/// A plan has so many keys, and each of its substations so many.
pub fn plans_have_their_keys()
    ensures plan { fields.PLAN_KEYS ≡ 8 }
    ensures substation { fields.SUBSTATION_KEYS ≡ 8 }
{}
