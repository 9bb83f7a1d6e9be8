//! Why a plan has no index map.

/// Why a plan has no index map, in the order in which the causes are looked for. Each cause is looked for in
/// all kinds and all substations before the next one is.
#[derive(Clone, Copy, Debug, PartialEq, Eq)]
pub enum MapFault {
    /// An index above would be over 65,535.
    TooWide,
    /// Two substations would have an index above of one kind in common.
    Overlap,
    /// Memory ran out.
    Memory,
}
