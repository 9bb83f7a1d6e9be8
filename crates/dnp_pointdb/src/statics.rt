//! As which object a present value goes.

ghost use Rattle.std.specs.Prelude.{◌≡◌};
ghost use Rattle.dnp_pointdb.specs.Sound as sound;

use dnp_objects::Kind;

/// The object that a present value of this kind is written as, by group and variation, where a READ asked for
/// this variation, 0 for any: 1.2, 20.1 or 30.1, whatever was asked for.
#[inline]
pub fn static_object(kind: Kind, asked: u8) -> (u8, u8)
    ensures { result ≡ sound.static_object kind asked }
{
    match (kind, asked) {
        (Kind::Binary, _) => (1, 2),
        (Kind::Counter, _) => (20, 1),
        (Kind::Analog, _) => (30, 1),
    }
}
