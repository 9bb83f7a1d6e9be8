//! Laws of words and codes.

ghost use Rattle.std.specs.Prelude.{◌≡◌, Some, ℕ};
ghost use Rattle.dnp_orders.specs.declared.action.Action.{Action};
ghost use Rattle.dnp_orders.specs.Actions.{action_named, action_of, code_of, word_of};

/// Two words never mean the same code, and a code's word is read back as that code.
pub fn words_and_codes_are_one_to_one()
    ensures apart { (a b : Action) → code_of a ≡ code_of b → a ≡ b }
    ensures read_back { (a : Action) → action_named (word_of a) ≡ Some a }
    ensures of_code { (a : Action) → action_of (code_of a) ≡ Some a }
    ensures printed { (code : ℕ) (a : Action) → action_of code ≡ Some a → code_of a ≡ code }
{}
