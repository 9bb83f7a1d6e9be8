//! The first word of a text that is wrong, for the person who wrote it.

/// What belongs at a place of a text.
#[derive(Clone, Copy, Debug)]
pub enum Wanted {
    /// The number of a substation, below how many there are.
    Substation(usize),
    /// The word for what is to be done.
    Order,
    /// The number of an output, below 2^16.
    Index,
    /// A control code.
    Code,
    /// How many times it is to be done, below 2^8.
    Count,
    /// A time of so many milliseconds, a number below 2^32.
    Milliseconds,
    /// A time with its unit, below 2^32 milliseconds.
    Time,
    /// A number of 16 bits, which may be negative.
    Value16,
    /// A number of 32 bits, which may be negative.
    Value32,
    /// Nothing: the text should have ended.
    End,
}

/// The first word of a text that is wrong or missing.
#[derive(Clone, Copy, Debug)]
pub struct OrderFault {
    /// Its place, counted from 0.
    pub place: usize,
    /// What belongs there.
    pub wanted: Wanted,
}

/// The first word of a text that is wrong, in a sentence.
#[derive(Clone, Copy)]
pub struct ToldFault<'a> {
    /// The text.
    pub text: &'a str,
    /// Which word is wrong, and what belongs there.
    pub fault: OrderFault,
}
