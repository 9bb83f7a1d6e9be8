//! What requests are answered from.

use crate::answer::Switches;
use dnp_eventbuf::Upto;
use dnp_pointdb::PointDb;

/// What a request is answered from beside the lanes: the points and outputs as they stand, what is switched,
/// and what is released before the answer is sent.
#[derive(Clone, Copy)]
pub(crate) struct Basis<'a, O> {
    pub points: &'a PointDb,
    pub outputs: &'a O,
    pub switches: Switches,
    pub released: &'a Option<Upto>,
}
