//! Why stores of events and of commands refuse a call.

/// Why a store of events or of commands refuses a call.
#[derive(Clone, Copy, Debug, PartialEq, Eq)]
pub enum StoreFault {
    /// The store has given out all its numbers.
    Exhausted,
    /// Memory ran out.
    Memory,
    /// The device under the store failed.
    Device,
}
