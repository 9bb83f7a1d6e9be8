//! What a connection remembers of what came and of what was sent.

ghost use Rattle.std.specs.Prelude.{◌≡◌, ◌≤◌, length, ◌&&◌, is_none, None, IsSome};
ghost use Rattle.dnp_controls.specs.Selecting.{deadline};
ghost use Rattle.dnp_objects.specs.declared.limits.TheConstants.{MAX_FRAGMENT};
ghost use Rattle.dnp_outstation.specs.steps.Answering.{KeepsWhole, first_in};
ghost use Rattle.dnp_outstation.specs.State.{new_session, holds_read};
ghost use Rattle.dnp_outstation.specs.Connection.{is_last_request, is_number, awaited_number, confirmed, new_request, no_response, held};

use crate::kept::{KeptFragment, KeptRequest};
use crate::sequence::SequenceNumber;
use crate::session::{FirstFragment, LastRequest, Reply, Session};
use dnp_appfragment::Function;
use dnp_controls::Selects;

/// The moment at which a timer ends that starts now and runs so many milliseconds.
pub(crate) fn deadline(now: u64, milliseconds: u64) -> u64
    ensures { result ≡ deadline now milliseconds }
{
    now.saturating_add(milliseconds)
}

impl Session {
    /// As a connection begins.
    pub fn new() -> Session
        ensures { result ≡ new_session }
    {
        Session {
            request: KeptRequest::new(),
            response: KeptFragment::new(),
            unsolicited_response: KeptFragment::new(),
            last: None,
            awaited: None,
            unsolicited: None,
            next: SequenceNumber::ZERO,
            selects: Selects::new(),
        }
    }

    /// Forgets all.
    pub fn reset(&mut self)
        ensures { self.new ≡ new_session }
    {
        self.request.clear();
        self.response.clear();
        self.unsolicited_response.clear();
        self.last = None;
        self.awaited = None;
        self.unsolicited = None;
        self.next = SequenceNumber::ZERO;
        self.selects.forget();
    }

    /// Whether these are the octets of the last request.
    pub fn is_last_request(&self, octets: &[u8]) -> bool
        ensures { result ≡ is_last_request self.now octets.now }
    {
        self.last.is_some() && self.request.is(octets)
    }

    /// Whether the fragment of this number awaits its confirm, of the unsolicited responses where `uns` is
    /// set.
    pub fn is_awaited(&self, uns: bool, seq: u8) -> bool
        ensures { result ≡ is_number (awaited_number self.now uns) seq }
    {
        if uns {
            match &self.unsolicited {
                None => false,
                Some(response) => response.seq.number() == seq,
            }
        } else {
            match &self.awaited {
                None => false,
                Some(fragment) => fragment.seq.number() == seq,
            }
        }
    }

    /// The first fragment of the response to the last request, where that was sent and no other.
    pub fn first(&self) -> Option<FirstFragment>
        ensures value { result ≡ first_in self.now.last }
        ensures whole { IsSome result → KeepsWhole self.now → 4 ≤ length self.now.response }
    {
        match &self.last {
            None => None,
            Some(last) => match &last.reply {
                Reply::First(first) => Some(*first),
                Reply::Held | Reply::Silent | Reply::Further => None,
            },
        }
    }

    /// Whether the confirm of this first fragment is awaited again where it is sent again.
    pub fn awaits_again(&self, first: &FirstFragment) -> bool
        ensures { result ≡ (first.now.is_awaited && is_none self.now.unsolicited) }
    {
        first.is_awaited && self.unsolicited.is_none()
    }

    /// Whether a READ waits.
    pub fn holds_read(&self) -> bool
        ensures { result ≡ holds_read self.now.last }
    {
        match &self.last {
            None => false,
            Some(last) => match last.reply {
                Reply::Held => true,
                Reply::Silent | Reply::First(_) | Reply::Further => false,
            },
        }
    }

    /// The awaited fragment is confirmed.
    pub fn confirm(&mut self)
        ensures value { self.new ≡ confirmed self.old }
        ensures keeps { KeepsWhole self.old → KeepsWhole self.new }
    {
        self.awaited = None;
        if let Some(last) = &mut self.last {
            if let Reply::First(first) = &mut last.reply {
                first.is_awaited = false;
            }
        }
    }

    /// Another request than the last one came.
    pub fn new_request(&mut self, octets: &[u8])
        requires some { 2 ≤ length octets.now }
        requires few { length octets.now ≤ MAX_FRAGMENT }
        ensures { self.new ≡ new_request self.old octets.now }
    {
        self.request.keep(octets);
        self.awaited = None;
        if octets[1] != Function::Operate.octet() {
            self.selects.forget();
        }
    }

    /// Another request than the last one came and was carried out: the select is as that left it.
    pub fn take_request(&mut self, octets: &[u8])
        requires { length octets.now ≤ MAX_FRAGMENT }
        ensures { self.new ≡ record self.old { request = octets.now; awaited = None } }
    {
        self.request.keep(octets);
        self.awaited = None;
    }

    /// The last request has no response.
    pub fn stay_silent(&mut self)
        ensures { self.new ≡ no_response self.old }
    {
        self.last = Some(LastRequest {
            reply: Reply::Silent,
            stood: 0,
            left: None,
        });
    }

    /// The last request is a READ that waits.
    pub fn hold(&mut self)
        ensures { self.new ≡ held self.old }
    {
        self.last = Some(LastRequest {
            reply: Reply::Held,
            stood: 0,
            left: None,
        });
    }
}
