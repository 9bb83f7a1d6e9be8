//! The select that an OPERATE needs.

ghost use Rattle.std.specs.Prelude.{◌≡◌, ◌≤◌, List, [], ◌∷◌, None, Some, length, option_copied};
ghost use Rattle.dnp_controls.specs.Selecting.{SelectCall, Selecting, Operating, Forgetting, IsSelectAfter, answer, running};

use crate::limits::SEQUENCE_NUMBERS;
use arrayvec::ArrayVec;
use dnp_objects::{MAX_FRAGMENT, Status};
use std::marker::Model;

/// The most octets of a select's objects.
pub const MAX_OCTETS: usize = MAX_FRAGMENT;

/// The last select that was made.
#[derive(Debug, Drop)]
struct LastSelect {
    /// The moment of the select, in milliseconds.
    at: u64,
    /// Its sequence number.
    seq: u8,
    /// The octets of its objects.
    octets: ArrayVec<u8, MAX_OCTETS>,
}

/// The select that stands at a station, if one does (IEEE Std 1815-2012, application layer: functions
/// SELECT and OPERATE).
///
/// A clause sees the select that stands: its moment, its sequence number and its octets.
#[derive(Debug, Drop)]
pub struct Selects {
    /// Whether it stands. To forget it costs nothing: its octets are left where they are, and the next one is
    /// put over them.
    stands: bool,
    /// The last select that was made, or one of nothing.
    kept: LastSelect,
}

impl Model for Selects {
    ghost use Rattle.std.specs.Prelude.{Option};
    ghost use Rattle.dnp_controls.specs.Selecting.{Select};

    ghost Value = { Option Select };

    ghost use Rattle.dnp_controls.specs.steps.Keeping.{select_of};

    ghost view = { λ selects. select_of selects.stands selects.kept };
}

impl Selects {
    /// No select stands.
    pub fn new() -> Self
        ensures nothing { result ≡ None }
        ensures stands { IsSelectAfter [] result }
    {
        Selects {
            stands: false,
            kept: LastSelect {
                at: 0,
                seq: 0,
                octets: ArrayVec::new(),
            },
        }
    }

    /// Keeps a select in place of the one that stood: `now` is its moment in milliseconds, `seq` its
    /// sequence number, `octets` are those of its objects, at most `MAX_OCTETS`.
    pub fn select(&mut self, now: u64, seq: u8, octets: &[u8])
        requires { length octets.now ≤ MAX_OCTETS }
        ensures kept { self.new ≡ Some (record { at = now; seq = seq; octets = octets.now }) }
        ensures stands { (before : List SelectCall) → IsSelectAfter before self.old → IsSelectAfter (Selecting (record { at = now; seq = seq; octets = octets.now }) ∷ before) self.new }
    {
        self.stands = true;
        self.kept.at = now;
        self.kept.seq = seq;
        self.kept.octets.clear();
        self.kept.octets.try_extend_from_slice(octets).unwrap();
    }

    /// The status of an OPERATE that comes at the moment `now` with the sequence number `seq` and these
    /// octets, where a select stands for `select_ms` milliseconds:
    ///
    /// - SUCCESS where a select stands whose sequence number is the one before `seq` modulo 16 and whose
    ///   octets are the same, and its timer has not ended.
    /// - TIMEOUT where such a select stands, and its timer has ended.
    /// - NO_SELECT otherwise.
    ///
    /// A timer has ended from the moment `select_ms` after the select on. A moment past the last one that
    /// a `u64` has is that last one.
    pub fn answer(&self, now: u64, seq: u8, octets: &[u8], select_ms: u64) -> Status
        ensures { result ≡ answer self.now now seq octets.now select_ms }
    {
        if !self.stands {
            return Status::NO_SELECT;
        }
        let kept = &self.kept;
        if seq % SEQUENCE_NUMBERS != (kept.seq % SEQUENCE_NUMBERS + 1) % SEQUENCE_NUMBERS
            || octets != kept.octets.as_slice()
        {
            return Status::NO_SELECT;
        }
        if now >= kept.at.saturating_add(select_ms) {
            return Status::TIMEOUT;
        }
        Status::SUCCESS
    }

    /// The octets of the objects of the select that stands at the moment `now`, where a select stands for `select_ms`
    /// milliseconds: none where none stands, or its timer has ended.
    pub fn standing(&self, now: u64, select_ms: u64) -> Option<&[u8]>
        ensures { option_copied result ≡ running self.now now select_ms }
    {
        if !self.stands || now >= self.kept.at.saturating_add(select_ms) {
            return None;
        }
        Some(self.kept.octets.as_slice())
    }

    /// The same status, by `answer`. The select is forgotten, whatever the status.
    pub fn operate(&mut self, now: u64, seq: u8, octets: &[u8], select_ms: u64) -> Status
        ensures answers { result ≡ answer self.old now seq octets.now select_ms }
        ensures forgotten { self.new ≡ None }
        ensures stands { (before : List SelectCall) → IsSelectAfter before self.old → IsSelectAfter (Operating ∷ before) self.new }
    {
        let status = self.answer(now, seq, octets, select_ms);
        self.forget();
        status
    }

    /// Forgets the select that stands, if one does.
    pub fn forget(&mut self)
        ensures forgotten { self.new ≡ None }
        ensures stands { (before : List SelectCall) → IsSelectAfter before self.old → IsSelectAfter (Forgetting ∷ before) self.new }
    {
        self.stands = false;
    }
}
