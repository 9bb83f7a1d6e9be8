//! What a simulation is run by.

use crate::faults::FaultRates;
use crate::stores::StoreKind;

/// What a simulation is run by.
#[derive(Clone, Copy)]
pub struct Settings {
    /// What decides all that happens by chance.
    pub seed: u64,
    /// How long it runs, in milliseconds.
    pub length_ms: u64,
    /// How many milliseconds pass between two changes at a substation, on the whole.
    pub change_ms: u64,
    /// How many milliseconds pass between two commands, on the whole.
    pub control_ms: u64,
    /// What the stores of the concentrator and the centres are.
    pub stores: StoreKind,
    /// How often what fails. Lists never do.
    pub rates: FaultRates,
    /// From this moment on each step is told.
    pub trace_from: Option<u64>,
}

/// How long nothing fails, changes or is commanded at the end, in milliseconds: so that all that waits can come. A master that
/// rests takes a minute at most, and one whose link is silent half a minute.
pub const SETTLE_MS: u64 = 300_000;
