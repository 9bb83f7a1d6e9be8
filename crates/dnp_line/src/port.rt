//! A station's port to a line.
ghost use Rattle.std.specs.Prelude.{◌≡◌, ℕ, ◌<◌, ◌≤◌, ◌↔◌, List, [], ◌∷◌, length, IsTrue, IfSome, IfNone};
ghost use Rattle.dnp_linkframe.specs.declared.frame.Frame.{Frame as FrameValue};
ghost use Rattle.dnp_linkframe.specs.Frames.{Spells};
ghost use Rattle.dnp_transport.specs.Assembly.{ArePushed};
ghost use Rattle.dnp_transport.specs.Cuts.{cut_count, cut};
ghost use Rattle.dnp_transport.specs.Series.{IsWhole};
ghost use Rattle.dnp_linkstation.specs.Station.{AreHeard as Answers};
ghost use Rattle.dnp_line.specs.Ports.{new_port, data_frame, moved_on, HasHistory, Takes, IsShown, reset_of};

use arrayvec::ArrayVec;
use dnp_linkframe::{Frame, MAX_UNIT, write_frame, write_frame_into};
use dnp_linkstation::LinkStation;
use dnp_linkstation::laws::each_station_has_a_history;
use dnp_transport::{Assembler, MAX_FRAGMENT, Pushed, SEGMENT_NUMBERS, segment};
use std::marker::Model;

/// What a port made of a frame.
#[derive(Debug, PartialEq, Eq, Drop)]
pub struct Taken {
    /// Whether the frame completed a fragment, which `Port::fragment` gives.
    pub whole: bool,

    /// The link frame to answer with.
    pub reply: Option<Frame>,
}

impl Taken {
    /// The unit to answer with: the spelling of the reply. So a reply is put on a line as user data are, by its unit.
    pub fn reply_unit(&self) -> Option<ArrayVec<u8, MAX_UNIT>>
        ensures spells { IfSome result (λ unit. (reply : FrameValue) × (self.now.reply ≡ Some reply) × Spells unit.items reply) }
        ensures none { IfNone result (self.now.reply ≡ None) }
    {
        match &self.reply {
            Some(reply) => Some(write_frame(reply)),
            None => None,
        }
    }
}

/// A station's port: cuts the station's fragments into link frames to its peer, and joins those that come from the peer
/// to fragments (IEEE Std 1815-2012, transport function over data link layer).
#[derive(Debug, Drop)]
pub struct Port {
    /// The station's end of the link.
    link: LinkStation,
    /// The number of the next segment.
    number: u8,
    /// What the segments that came are joined to.
    assembler: Assembler,
}

impl Model for Port {
    ghost use Rattle.std.specs.Prelude.{◌<◌};
    ghost use Rattle.dnp_transport.specs.declared.limits.TheConstants.{SEGMENT_NUMBERS};
    ghost use Rattle.dnp_line.specs.Ports.{PortState};

    ghost Value = { PortState };

    ghost view = { λ p. record { link = p.link; number = p.number; assembly = p.assembler } };

    ghost invariant = { λ p. p.number < SEGMENT_NUMBERS };
}

impl Port {
    /// The port of the station with the address `own`, whose peer has the address `peer`.
    pub fn new(own: u16, peer: u16, is_master: bool) -> Port
        ensures port { result ≡ new_port own peer is_master }
        ensures answers { Answers [] result.link }
        ensures stands { ArePushed [] result.assembly }
    {
        Port {
            link: LinkStation::new(own, peer, is_master),
            number: 0,
            assembler: Assembler::new(),
        }
    }

    /// The unit `k`, counted from 0, in which the fragment is sent: the spelling of a link frame of user data with the
    /// fragment's segment `k`.
    ///
    /// The fragment has 1 to [`MAX_FRAGMENT`] octets, and `k` is below `segment_count(fragment)`.
    pub fn unit(&self, fragment: &[u8], k: usize) -> ArrayVec<u8, MAX_UNIT>
        requires some { 0 < length fragment.now }
        requires fits { length fragment.now ≤ MAX_FRAGMENT }
        requires within { k < cut_count (length fragment.now) }
        ensures spells { Spells result.items (data_frame self.now (cut fragment.now self.now.number k)) }
        ensures only { (unit : List ℕ) → Spells unit (data_frame self.now (cut fragment.now self.now.number k)) → unit ≡ result.items }
    {
        let mut unit = ArrayVec::new();
        self.unit_into(fragment, k, &mut unit);
        unit
    }

    /// The same unit in place of what was in the caller's, so that a loop over the units of a fragment moves none.
    pub fn unit_into(&self, fragment: &[u8], k: usize, unit: &mut ArrayVec<u8, MAX_UNIT>)
        requires some { 0 < length fragment.now }
        requires fits { length fragment.now ≤ MAX_FRAGMENT }
        requires within { k < cut_count (length fragment.now) }
        ensures spells { Spells unit.new.items (data_frame self.now (cut fragment.now self.now.number k)) }
        ensures only { (other : List ℕ) → Spells other (data_frame self.now (cut fragment.now self.now.number k)) → other ≡ unit.new.items }
    {
        let segment = segment(fragment, k, self.number);
        write_frame_into(&self.link.send(segment.as_slice()), unit);
    }

    /// Moves the number of the next segment on by `n`, once `n` segments were sent.
    pub fn sent(&mut self, n: usize)
        ensures { self.new ≡ moved_on n self.old }
    {
        let numbers = usize::from(SEGMENT_NUMBERS);
        self.number = ((usize::from(self.number) + n % numbers) % numbers) as u8;
    }

    /// Takes a frame that came. The station's end of the link answers it, and user data that go up are joined to those
    /// before them. A frame that goes up with no user data leaves what was joined as it is.
    ///
    /// The reply, if there is one, is the link layer's: an acknowledgment or refusal of confirmed user data, of a test
    /// or of a reset, the link's status, or that a function is not supported (IEEE Std 1815-2012, data link layer).
    pub fn take(&mut self, frame: &Frame) -> Taken
        ensures takes { Takes self.old frame.now self.new result }
    {
        let answer = self.link.receive(frame);
        let whole = answer.up && !frame.user.is_empty() && self.joins(frame.user.as_slice());
        Taken {
            whole,
            reply: answer.reply,
        }
    }

    /// Joins user data to those before them. Whether that completes a fragment.
    fn joins(&mut self, user: &[u8]) -> bool
        ensures pushed { (before : List (List ℕ)) → ArePushed before self.old.assembly → ArePushed (user.now ∷ before) self.new.assembly }
        ensures completed { (before : List (List ℕ)) → ArePushed before self.old.assembly →
            IsTrue result ↔ ((fragment : List ℕ) × IsWhole (user.now ∷ before) fragment) }
        ensures rest { self.new ≡ record self.old { assembly = self.new.assembly } }
    {
        matches!(self.assembler.push(user), Pushed::Whole)
    }

    /// The fragment that the last frame of user data completed, until the next, and else no octets.
    pub fn fragment(&self) -> &[u8]
        ensures shown { IsShown self.now result.now }
        ensures fits { length result.now ≤ MAX_FRAGMENT }
    {
        self.assembler.fragment()
    }

    /// Some frames, taken one after the other, make a port what this one is, up to the number of the next segment: each
    /// port has a history. It does nothing when it runs.
    pub fn has_a_history(&self)
        ensures { HasHistory self.now }
    {
        each_station_has_a_history();
        self.assembler.has_a_history();
    }

    /// A port in the same state.
    pub fn copy(&self) -> Port
        ensures { result ≡ self.now }
    {
        Port {
            link: self.link.copy(),
            number: self.number,
            assembler: self.assembler.copy(),
        }
    }

    /// Makes another port the same as this one. No new room is made, and of a series or a fragment the octets in use
    /// alone are written.
    pub fn copy_into(&self, other: &mut Port)
        ensures { other.new ≡ self.now }
    {
        other.link = self.link.copy();
        other.number = self.number;
        self.assembler.copy_into(&mut other.assembler);
    }

    /// Forgets what was sent and taken: the next segment has the number 0, no fragment is begun, and the link states
    /// were never reset.
    pub fn reset(&mut self)
        ensures port { self.new ≡ reset_of self.old }
        ensures answers { Answers [] self.new.link }
        ensures stands { ArePushed [] self.new.assembly }
    {
        self.link.reset();
        self.number = 0;
        self.assembler.reset();
    }
}
