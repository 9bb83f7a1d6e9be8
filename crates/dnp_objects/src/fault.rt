//! Why objects and rows are refused.

/// Why an object's octets or a row are refused, in the order in which the causes are looked for.
#[derive(Clone, Copy, Debug, PartialEq, Eq)]
pub enum ObjectFault {
    /// The library has no such object that could carry the thing.
    ObjectUnknown,
    /// The octets are more or fewer than the object's.
    Cut,
    /// The row is of another kind than the group's, its value or flags don't fit the object, or it
    /// lacks the time that the object has, or that time is 2^48 ms or more.
    ValueRange,
}
