//! The qualifiers of object headers: what the range is written in, and what stands before each object.

ghost use Rattle.std.specs.Prelude.{◌≡◌, ◌≤◌};
ghost use Rattle.dnp_standard.specs.Qualifiers as spec;

/// What the range of a header says.
#[derive(Clone, Copy)]
pub enum Form {
    /// All objects: there is no range.
    All,
    /// The first and the last, by their numbers.
    Span,
    /// How many.
    Count,
}

/// In how many octets a number is, the low one first.
#[derive(Clone, Copy)]
pub enum Width {
    /// There is no number.
    Zero,
    /// In one.
    One,
    /// In two.
    Two,
    /// In four.
    Four,
}

impl Width {
    /// How many they are.
    pub fn octets(self) -> usize
        ensures value { result ≡ spec.width_of self }
        ensures small { result ≤ 4 }
    {
        match self {
            Width::Zero => 0,
            Width::One => 1,
            Width::Two => 2,
            Width::Four => 4,
        }
    }
}

/// A qualifier (IEEE Std 1815-2012, application layer: object headers).
#[derive(Clone, Copy)]
pub struct Qualifier {
    /// Its octet.
    pub octet: u8,
    /// What the range says.
    pub form: Form,
    /// In how many octets each number of the range is.
    pub width: Width,
    /// In how many octets the index before each object is.
    pub index: Width,
    /// In how many octets the size before each object is.
    pub size: Width,
}

/// A qualifier with ranges of this form and width, and with indexes or sizes in so many octets.
macro_rules! qualifier {
    ($octet:literal, $form:ident, $width:ident, $index:ident, $size:ident) => {
        Qualifier { octet: $octet, form: Form::$form, width: Width::$width, index: Width::$index, size: Width::$size }
    };
}

/// All qualifiers.
static QUALIFIERS: [Qualifier; 22] = [
    qualifier!(0x00, Span, One, Zero, Zero),
    qualifier!(0x01, Span, Two, Zero, Zero),
    qualifier!(0x02, Span, Four, Zero, Zero),
    qualifier!(0x03, Span, One, Zero, Zero),
    qualifier!(0x04, Span, Two, Zero, Zero),
    qualifier!(0x05, Span, Four, Zero, Zero),
    qualifier!(0x06, All, Zero, Zero, Zero),
    qualifier!(0x07, Count, One, Zero, Zero),
    qualifier!(0x08, Count, Two, Zero, Zero),
    qualifier!(0x09, Count, Four, Zero, Zero),
    qualifier!(0x17, Count, One, One, Zero),
    qualifier!(0x18, Count, Two, One, Zero),
    qualifier!(0x19, Count, Four, One, Zero),
    qualifier!(0x27, Count, One, Two, Zero),
    qualifier!(0x28, Count, Two, Two, Zero),
    qualifier!(0x29, Count, Four, Two, Zero),
    qualifier!(0x37, Count, One, Four, Zero),
    qualifier!(0x38, Count, Two, Four, Zero),
    qualifier!(0x39, Count, Four, Four, Zero),
    qualifier!(0x4B, Count, One, Zero, One),
    qualifier!(0x5B, Count, One, Zero, Two),
    qualifier!(0x6B, Count, One, Zero, Four),
];

/// The qualifier of this octet, if it is one's.
#[tactic(auto, unfolding(crate::specs::Qualifiers::qualifiers, crate::specs::Qualifiers::qualifier_of))]
pub fn qualifier_of(octet: u8) -> Option<Qualifier>
    ensures { result ≡ spec.qualifier_of octet }
{
    QUALIFIERS
        .iter()
        .copied()
        .find(|qualifier| qualifier.octet == octet)
}
