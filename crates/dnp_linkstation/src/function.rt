//! The functions of link frames, in the low four bits of CONTROL (IEEE Std 1815-2012, data link layer). Each number is
//! in one place: definitions cite it by its name.

ghost use Rattle.std.specs.Prelude.{◌≡◌};
ghost use Rattle.dnp_linkstation.specs.Control.{primary_function, code};

use crate::control::FUNCTIONS;

/// The link states are reset: FCB 1 comes next.
const RESET_LINK_STATES: u8 = 0;

/// A test of the link, which FCB counts.
const TEST_LINK_STATES: u8 = 2;

/// User data that are acknowledged, which FCB counts.
const CONFIRMED_USER_DATA: u8 = 3;

/// User data that are not acknowledged.
pub const UNCONFIRMED_USER_DATA: u8 = 4;

/// A question for the status of the link.
const REQUEST_LINK_STATUS: u8 = 9;

/// It was taken.
const ACK: u8 = 0;

/// It was not taken.
const NACK: u8 = 1;

/// The status of the link.
const LINK_STATUS: u8 = 11;

/// No such function is known here.
const NOT_SUPPORTED: u8 = 15;

/// What a frame with PRM 1 asks.
#[derive(Clone, Copy, Debug, PartialEq, Eq)]
pub enum PrimaryFunction {
    /// [`RESET_LINK_STATES`].
    ResetLinkStates,
    /// [`TEST_LINK_STATES`].
    TestLinkStates,
    /// [`CONFIRMED_USER_DATA`].
    ConfirmedUserData,
    /// [`UNCONFIRMED_USER_DATA`].
    UnconfirmedUserData,
    /// [`REQUEST_LINK_STATUS`].
    RequestLinkStatus,
    /// A number that the standard gives no meaning, or none any more.
    Other,
}

impl PrimaryFunction {
    /// The function of a frame with PRM 1 and this CONTROL.
    pub fn of(control: u8) -> Self
        ensures { result ≡ primary_function control }
    {
        match control % FUNCTIONS {
            RESET_LINK_STATES => PrimaryFunction::ResetLinkStates,
            TEST_LINK_STATES => PrimaryFunction::TestLinkStates,
            CONFIRMED_USER_DATA => PrimaryFunction::ConfirmedUserData,
            UNCONFIRMED_USER_DATA => PrimaryFunction::UnconfirmedUserData,
            REQUEST_LINK_STATUS => PrimaryFunction::RequestLinkStatus,
            _ => PrimaryFunction::Other,
        }
    }
}

/// What a frame with PRM 0 replies.
#[derive(Clone, Copy, Debug, PartialEq, Eq)]
pub enum SecondaryFunction {
    /// [`ACK`].
    Ack,
    /// [`NACK`].
    Nack,
    /// [`LINK_STATUS`].
    LinkStatus,
    /// [`NOT_SUPPORTED`].
    NotSupported,
}

impl SecondaryFunction {
    /// The function's number in the low four bits of CONTROL.
    pub fn code(self) -> u8
        ensures { result ≡ code self }
    {
        match self {
            SecondaryFunction::Ack => ACK,
            SecondaryFunction::Nack => NACK,
            SecondaryFunction::LinkStatus => LINK_STATUS,
            SecondaryFunction::NotSupported => NOT_SUPPORTED,
        }
    }
}
