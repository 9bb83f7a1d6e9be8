//! One end of a link.

ghost use Rattle.std.specs.Prelude.{◌≡◌, ℕ, ◌+◌, ◌<◌, ◌≤◌, List, [], ◌∷◌, length, true, false, not};
ghost use Rattle.dnp_linkstation.specs.Control.{primary_function, frame_count_bit};
ghost use Rattle.dnp_linkstation.specs.Station.{ends, fresh, is_for, AreHeard, answer, sent, replies, direction, is_same, dropped};
ghost use Rattle.dnp_linkframe.specs.declared.frame.Frame.{Frame as FrameValue};

use crate::control::{DIR, FCB, PRM};
use crate::function::{PrimaryFunction, SecondaryFunction, UNCONFIRMED_USER_DATA};
use arrayvec::ArrayVec;
use dnp_linkframe::{Frame, MAX_USER_DATA};

/// What a station makes of a frame.
#[derive(Debug, PartialEq, Eq, Drop)]
pub struct LinkAnswer {
    /// Whether the frame's user data go up, to be assembled. They may be none: then there is nothing to
    /// assemble.
    pub up: bool,
    /// The frame to send back.
    pub reply: Option<Frame>,
}

/// One end of a link with one peer (IEEE Std 1815-2012, data link layer). It answers what the peer asks,
/// and knows a confirmed frame that was repeated by its frame count bit.
#[derive(Clone, Copy, Debug, PartialEq, Eq)]
pub struct LinkStation {
    /// The station's own address.
    own: u16,
    /// The address of its peer.
    peer: u16,
    /// Whether the station is the master.
    is_master: bool,
    /// The FCB that is expected next, and none before the first reset of the link states.
    expected: Option<bool>,
}

impl LinkStation {
    /// A station with the address `own`, whose peer has the address `peer`. Its link states were never
    /// reset.
    pub fn new(own: u16, peer: u16, is_master: bool) -> Self
        ensures fresh { result ≡ fresh (record { own = own; peer = peer; is_master = is_master }) }
        ensures ends { ends result ≡ record { own = own; peer = peer; is_master = is_master } }
        ensures stands { AreHeard [] result }
    {
        LinkStation {
            own,
            peer,
            is_master,
            expected: None,
        }
    }

    /// Takes in a frame.
    ///
    /// A frame is dropped, without an answer and with nothing that goes up, unless its destination is the
    /// station, its source the peer, its DIR that of the peer and its PRM 1. Else, by its function:
    ///
    /// - RESET_LINK_STATES: ACK, and FCB 1 is expected next.
    /// - TEST_LINK_STATES: ACK, or NACK before the first reset.
    /// - CONFIRMED_USER_DATA: ACK, and with the expected FCB the user data go up; NACK before the first
    ///   reset.
    /// - UNCONFIRMED_USER_DATA: no reply, and the user data go up.
    /// - REQUEST_LINK_STATUS: LINK_STATUS.
    /// - any other: NOT_SUPPORTED.
    ///
    /// A test or confirmed user data with the expected FCB make the other FCB the expected one. FCV is
    /// ignored. A reply has PRM 0, DFC 0 and the station's DIR.
    pub fn receive(&mut self, frame: &Frame) -> LinkAnswer
        ensures ends { ends self.new ≡ ends self.old }
        ensures stands { (before : List FrameValue) → AreHeard before self.old → AreHeard (frame.now ∷ before) self.new }
        ensures answers { (before : List FrameValue) → AreHeard before self.old → result ≡ answer (ends self.old) before frame.now }
        ensures dropped { is_for (ends self.old) frame.now ≡ false → (result ≡ dropped) × (self.new ≡ self.old) }
        ensures unconfirmed { is_for (ends self.old) frame.now ≡ true → primary_function frame.now.control ≡ PrimaryFunction.UnconfirmedUserData → (result.up ≡ true) × (result.reply ≡ None) × (self.new ≡ self.old) }
    {
        if !self.is_for_me(frame) {
            return LinkAnswer {
                up: false,
                reply: None,
            };
        }
        match PrimaryFunction::of(frame.control) {
            PrimaryFunction::ResetLinkStates => {
                self.expected = Some(true);
                self.reply(SecondaryFunction::Ack, false)
            }
            PrimaryFunction::TestLinkStates => match self.expected {
                None => self.reply(SecondaryFunction::Nack, false),
                Some(expected) => {
                    self.count(expected, frame);
                    self.reply(SecondaryFunction::Ack, false)
                }
            },
            PrimaryFunction::ConfirmedUserData => match self.expected {
                None => self.reply(SecondaryFunction::Nack, false),
                Some(expected) => {
                    let is_new = self.count(expected, frame);
                    self.reply(SecondaryFunction::Ack, is_new)
                }
            },
            PrimaryFunction::UnconfirmedUserData => LinkAnswer {
                up: true,
                reply: None,
            },
            PrimaryFunction::RequestLinkStatus => self.reply(SecondaryFunction::LinkStatus, false),
            PrimaryFunction::Other => self.reply(SecondaryFunction::NotSupported, false),
        }
    }

    /// The frame in which the station sends user data, at most [`MAX_USER_DATA`] octets: UNCONFIRMED_USER_DATA, with
    /// CONTROL C4 from a master and 44 from an outstation.
    pub fn send(&self, user: &[u8]) -> Frame
        requires { length user.now ≤ MAX_USER_DATA }
        ensures { result ≡ sent (ends self.now) user.now }
    {
        let mut octets = ArrayVec::new();
        octets.try_extend_from_slice(user).unwrap();
        Frame {
            control: self.direction() + (1 << PRM) + UNCONFIRMED_USER_DATA,
            dest: self.peer,
            source: self.own,
            user: octets,
        }
    }

    /// A station in the same state.
    pub fn copy(&self) -> Self
        ensures { result ≡ self.now }
    {
        *self
    }

    /// Forgets all frames: the link states were never reset.
    pub fn reset(&mut self)
        ensures fresh { self.new ≡ fresh (ends self.old) }
        ensures ends { ends self.new ≡ ends self.old }
        ensures stands { AreHeard [] self.new }
    {
        self.expected = None;
    }
}

impl LinkStation {
    /// Whether the frame is for the station: from its peer, with the DIR of the peer and PRM 1.
    fn is_for_me(&self, frame: &Frame) -> bool
        ensures { result ≡ is_for (ends self.now) frame.now }
    {
        let is_from_master = frame.control >> DIR & 1 == 1;
        let is_primary = frame.control >> PRM & 1 == 1;
        frame.dest == self.own
            && frame.source == self.peer
            && is_from_master != self.is_master
            && is_primary
    }

    /// Whether the FCB of a frame that counts is the expected one. Then the other FCB is expected next.
    fn count(&mut self, expected: bool, frame: &Frame) -> bool
        requires { self.old.expected ≡ Some expected }
        ensures new { result ≡ is_same (frame_count_bit frame.now.control) expected }
        ensures next { self.new ≡ record self.old { expected = Some (not (frame_count_bit frame.now.control)) } }
    {
        let fcb = frame.control >> FCB & 1 == 1;
        if fcb != expected {
            return false;
        }
        self.expected = Some(!expected);
        true
    }

    /// The answer with a reply.
    fn reply(&self, function: SecondaryFunction, up: bool) -> LinkAnswer
        ensures { result ≡ replies (ends self.now) function up }
    {
        LinkAnswer {
            up,
            reply: Some(Frame {
                control: self.direction() + function.code(),
                dest: self.peer,
                source: self.own,
                user: ArrayVec::new(),
            }),
        }
    }

    /// DIR of the station's own frames.
    fn direction(&self) -> u8
        ensures { result ≡ direction (ends self.now) }
    {
        if self.is_master { 1 << DIR } else { 0 }
    }
}
