//! The response that a station awaits once it has asked something, and what comes in its place.

ghost use Rattle.std.specs.Prelude.{◌≡◌};
ghost use Rattle.dnp_appfragment.specs.Meaning.{response_at};
ghost use Rattle.dnp_master.specs.Calls.{is_report};
ghost use Rattle.dnp_notices.specs.Exchanges as spec;

use dnp_appfragment::{Control, Function, read_response};

/// The fragment of a response that is awaited.
#[derive(Clone, Copy, Debug, PartialEq, Eq)]
pub struct Awaited {
    /// Its sequence number, 0 to 15.
    pub seq: u8,
    /// Whether it comes after the first one.
    pub is_later: bool,
}

/// Why a response that came is not the one that is awaited.
#[derive(Clone, Copy, Debug, PartialEq, Eq)]
pub enum Mismatch {
    /// It has the first sequence number, where the second one is awaited.
    Sequence(u8, u8),
    /// It has FIR, where a fragment after the first one is awaited.
    First,
    /// It lacks FIR, where the first fragment is awaited.
    Later,
    /// Its function, UNS, FIR and FIN make it neither a response to a request nor a whole unsolicited one.
    Form,
}

impl Mismatch {
    /// Whether two are the same.
    pub(crate) fn is_same(self, other: Mismatch) -> bool
        ensures { result ≡ spec.mismatch_eq self other }
    {
        match (self, other) {
            (Mismatch::Sequence(came, awaited), Mismatch::Sequence(came2, awaited2)) => {
                came == came2 && awaited == awaited2
            }
            (Mismatch::First, Mismatch::First)
            | (Mismatch::Later, Mismatch::Later)
            | (Mismatch::Form, Mismatch::Form) => true,
            _ => false,
        }
    }
}

impl Awaited {
    /// Why a fragment with this control octet is not the one that is awaited, if it isn't.
    fn mismatch_of_control(self, control: Control) -> Option<Mismatch>
        ensures { result ≡ spec.mismatch_of_control self control }
    {
        if control.seq != self.seq {
            Some(Mismatch::Sequence(control.seq, self.seq))
        } else if self.is_later && control.fir {
            Some(Mismatch::First)
        } else if !self.is_later && !control.fir {
            Some(Mismatch::Later)
        } else {
            None
        }
    }

    /// Why a response with this function and this control octet is not the one that is awaited, if it isn't.
    fn mismatch(self, function: Function, control: Control) -> Option<Mismatch>
        ensures { result ≡ spec.mismatch self function control }
    {
        match function {
            Function::Response if !control.uns => self.mismatch_of_control(control),
            _ => Some(Mismatch::Form),
        }
    }
}

/// The fragment that is awaited after one that came with this control octet, if one is.
fn next_after(control: Control) -> Option<Awaited>
    ensures { result ≡ spec.next_after control }
{
    if control.fin {
        None
    } else {
        Some(Awaited {
            seq: (control.seq + 1) % 16,
            is_later: true,
        })
    }
}

/// Whether a response with this function and this control octet is a whole unsolicited one.
fn is_report(function: Function, control: Control) -> bool
    ensures { result ≡ is_report function control }
{
    match function {
        Function::UnsolicitedResponse => control.uns && control.fir && control.fin,
        _ => false,
    }
}

/// What is awaited of a station that was asked something, and what came last in its place.
#[derive(Clone, Copy, Debug, PartialEq, Eq)]
pub struct Exchange {
    /// The fragment that is awaited, if one is.
    pub awaited: Option<Awaited>,
    /// Why the last response that came since is not the one that is awaited, if one came.
    pub mismatch: Option<Mismatch>,
}

impl Exchange {
    /// Nothing was asked.
    pub const IDLE: Exchange = Exchange {
        awaited: None,
        mismatch: None,
    };

    /// The request with these octets was sent: the first fragment of its response is awaited.
    pub fn asked(octets: &[u8]) -> Exchange
        ensures { result ≡ spec.asked octets.now }
    {
        match octets {
            [control, ..] => Exchange {
                awaited: Some(Awaited {
                    seq: control % 16,
                    is_later: false,
                }),
                mismatch: None,
            },
            [] => Exchange::IDLE,
        }
    }

    /// The same after a response came with this function and this control octet.
    fn after(self, function: Function, control: Control) -> Exchange
        ensures { result ≡ spec.after self function control }
    {
        let Some(awaited) = self.awaited else {
            return self;
        };
        if is_report(function, control) {
            return self;
        }
        match awaited.mismatch(function, control) {
            Some(mismatch) => Exchange {
                awaited: self.awaited,
                mismatch: Some(mismatch),
            },
            None => Exchange {
                awaited: next_after(control),
                mismatch: None,
            },
        }
    }

    /// The same after a fragment with these octets came. A whole unsolicited response, and what is no response, change nothing.
    /// `laws::an_exchange_follows_its_master` has that exactly those responses are mismatches that a master with this request passes
    /// over.
    pub fn came(self, octets: &[u8]) -> Exchange
        ensures { result ≡ spec.came self (response_at octets.now) }
    {
        match read_response(octets) {
            Ok(response) => self.after(response.function, response.control),
            Err(_) => self,
        }
    }
}
