//! Who looks on while a script runs.

/// What is told how far a script has run. It changes nothing of the run.
pub trait Onlooker {
    /// So many octets of the script's text have been run, of so many.
    fn sees(&mut self, done: usize, all: usize);
}

/// Nobody looks on.
#[derive(Clone, Copy, Debug)]
pub struct Nobody;

impl Onlooker for Nobody {
    fn sees(&mut self, _done: usize, _all: usize) {}
}

/// What goes on beside a script.
#[derive(Drop)]
pub(crate) struct Beside<C, O> {
    /// What carries the units of the system's lines.
    pub carrier: C,
    /// Who looks on.
    pub onlooker: O,
}
