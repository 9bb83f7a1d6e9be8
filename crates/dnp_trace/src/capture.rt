//! A capture of what arrived, as programs that dissect packets read it.
//!
//! Each link is a conversation of TCP over IPv4 between addresses of its own, which the master opens before its first
//! unit. What arrives is a packet, and what is lost is none: a capture at the end of each line.
ghost use Rattle.std.specs.Prelude.{◌≡◌, ◌≤◌, ◌++◌, length, take, Some, true, IfOk, OnOk, IsErr};
ghost use Rattle.dnp_trace.specs.Captures as spec;
ghost use Rattle.dnp_trace.specs.Captures.{sent_more, new_talk, new_talks, begun, carried, after_arrival, talk_packets, talk_after, step_packets, step_after, is_arrival as is_arrival_of, capture_of};

use crate::log::Log;
use crate::noted::{Peer, Step, Unit, What};
use crate::packet::put_packet;
use crate::sheet::Sheet;
use std::alloc::{AllocError, Global};

/// The port at which outstations listen, which is DNP3's.
pub(crate) const PORT: u16 = 20_000;

/// The least port from which masters connect: the centres from this one, and the concentrator for each substation from the next.
pub(crate) const FIRST_PORT: u16 = 49_152;

/// The most octets of a unit that a packet carries: with both headers, 20 octets each, it has 65,535 at most.
pub(crate) const LONGEST: usize = 65_495;

/// The bits of TCP that a packet may set.
pub(crate) const SYN: u8 = 0x02;
/// An acknowledgment is in it.
pub(crate) const ACK: u8 = 0x10;
/// It is for the reader at once.
pub(crate) const PSH_ACK: u8 = 0x18;

/// The head of a capture: its mark, version 2.4, the times in UTC, packets of at most 65,535 octets, each beginning with
/// the header of IP (LINKTYPE_RAW).
pub(crate) const HEAD: [u8; 24] = [
    0xD4, 0xC3, 0xB2, 0xA1, 2, 0, 4, 0, 0, 0, 0, 0, 0, 0, 0, 0, 0xFF, 0xFF, 0, 0, 101, 0, 0, 0,
];

/// An end of a conversation.
#[derive(Clone, Copy)]
pub(crate) struct End {
    /// The last octet of its address, which is 192.0.2 and this one.
    pub host: u8,
    /// Its port.
    pub port: u16,
    /// The number of the next octet that it sends.
    pub next: u32,
}

impl End {
    /// It has sent so many octets more.
    fn sent(self, count: u32) -> End
        ensures { result ≡ sent_more count self }
    {
        End {
            next: self.next.wrapping_add(count),
            ..self
        }
    }
}

/// The conversation of a link.
#[derive(Clone, Copy)]
pub(crate) struct Talk {
    /// Whether it has begun.
    begun: bool,
    /// The master's end.
    master: End,
    /// The outstation's end.
    outstation: End,
}

impl Talk {
    /// One between these hosts, the master's at this port.
    fn between(master: u8, outstation: u8, port: u16) -> Talk
        ensures { result ≡ spec.talk_between master outstation port }
    {
        Talk {
            begun: false,
            master: End {
                host: master,
                port,
                next: 0,
            },
            outstation: End {
                host: outstation,
                port: PORT,
                next: 0,
            },
        }
    }

    /// The one of the link to this station. The last octets of the addresses are the link addresses.
    fn new(peer: Peer) -> Talk
        ensures { result ≡ new_talk peer }
    {
        match peer {
            Peer::Centre => Talk::between(1, 9, FIRST_PORT),
            Peer::SecondCentre => Talk::between(3, 9, FIRST_PORT),
            Peer::Substation(number) => {
                let port = FIRST_PORT + 1 + u16::from(number);
                Talk::between(2, number.saturating_add(10), port)
            }
        }
    }

    /// It once it has begun.
    #[tactic(auto, unfolding(crate::specs::Captures::begun))]
    fn begun(self) -> Talk
        ensures { result ≡ begun self }
    {
        if self.begun {
            return self;
        }
        Talk {
            begun: true,
            master: End {
                next: 1,
                ..self.master
            },
            outstation: End {
                next: 1,
                ..self.outstation
            },
        }
    }
}

/// The master opens the conversation, if it has not begun.
#[tactic(auto, unfolding(crate::specs::Captures::opening, crate::specs::Captures::begun))]
fn put_opening(sheet: &mut Sheet, moment: u64, talk: Talk) -> Result<(), AllocError>
    ensures { OnOk result (sheet.new ≡ sheet.old ++ spec.opening moment talk) }
{
    if talk.begun {
        return Ok(());
    }
    let begun = talk.begun();
    put_packet(sheet, moment, talk.master, talk.outstation, SYN, &[])?;
    put_packet(sheet, moment, talk.outstation, begun.master, SYN + ACK, &[])?;
    put_packet(sheet, moment, begun.master, begun.outstation, ACK, &[])
}

/// So many of these octets at most, from the first on.
fn first(octets: &[u8], most: usize) -> &[u8]
    ensures same { result.now ≡ take most octets.now }
    ensures short { length result.now ≤ most }
{
    if octets.len() > most {
        &octets[..most]
    } else {
        octets
    }
}

/// What a packet carries of a unit: as much as there is room for.
#[tactic(auto, unfolding(crate::specs::Captures::carried))]
fn carried_of(octets: &[u8]) -> &[u8]
    ensures same { result.now ≡ carried octets.now }
    ensures short { length result.now ≤ LONGEST }
{
    first(octets, LONGEST)
}

/// Writes a packet of these octets, up or down, in a conversation that has begun.
#[tactic(auto, unfolding(crate::specs::Captures::arrival))]
fn put_arrival(
    sheet: &mut Sheet,
    moment: u64,
    talk: Talk,
    up: bool,
    payload: &[u8],
) -> Result<(), AllocError>
    requires { length payload.now ≤ LONGEST }
    ensures { OnOk result (sheet.new ≡ sheet.old ++ spec.arrival moment talk up payload.now) }
{
    if up {
        put_packet(
            sheet,
            moment,
            talk.outstation,
            talk.master,
            PSH_ACK,
            payload,
        )
    } else {
        put_packet(
            sheet,
            moment,
            talk.master,
            talk.outstation,
            PSH_ACK,
            payload,
        )
    }
}

/// The conversation after that packet.
#[tactic(auto, unfolding(crate::specs::Captures::after_arrival))]
fn after(talk: Talk, up: bool, payload: &[u8]) -> Talk
    requires { length payload.now ≤ LONGEST }
    ensures { result ≡ after_arrival talk up payload.now }
{
    let count = payload.len() as u32;
    if up {
        Talk {
            outstation: talk.outstation.sent(count),
            ..talk
        }
    } else {
        Talk {
            master: talk.master.sent(count),
            ..talk
        }
    }
}

/// A unit arrives in this conversation, which is this one then.
fn arrive_in(
    sheet: &mut Sheet,
    moment: u64,
    talk: Talk,
    up: bool,
    octets: &[u8],
) -> Result<Talk, AllocError>
    ensures packets { OnOk result (sheet.new ≡ sheet.old ++ (spec.opening moment talk ++ spec.arrival moment (begun talk) up (carried octets.now))) }
    ensures talk { IfOk result (λ after. after ≡ after_arrival (begun talk) up (carried octets.now)) }
{
    let carries = carried_of(octets);
    put_opening(sheet, moment, talk)?;
    put_arrival(sheet, moment, talk.begun(), up, carries)?;
    Ok(after(talk.begun(), up, carries))
}

/// A unit arrives. On a link that the system lacks it is no packet.
fn arrive(
    sheet: &mut Sheet,
    moment: u64,
    talks: &mut Vec<Talk>,
    unit: &Unit,
) -> Result<(), AllocError>
    ensures packets { OnOk result (sheet.new ≡ sheet.old ++ spec.unit_packets moment (Some unit.now) talks.old.items) }
    ensures talks { OnOk result (talks.new.items ≡ spec.unit_after (Some unit.now) talks.old.items) }
{
    let course = unit.course();
    let place = course.peer.number();
    match talks.get(place).copied() {
        Some(talk) => {
            talks[place] = arrive_in(sheet, moment, talk, course.up, unit.octets())?;
            Ok(())
        }
        None => Ok(()),
    }
}

/// Whether a unit that did this came to its end.
fn is_arrival(what: What) -> bool
    ensures { result ≡ is_arrival_of what }
{
    matches!(what, What::Arrives | What::Repeated)
}

/// Writes the packets of a step.
fn put_step(
    sheet: &mut Sheet,
    talks: &mut Vec<Talk>,
    units: &[Unit],
    step: Step,
) -> Result<(), AllocError>
    ensures packets { OnOk result (sheet.new ≡ sheet.old ++ step_packets units.now talks.old.items step) }
    ensures talks { OnOk result (talks.new.items ≡ step_after units.now talks.old.items step) }
{
    let Step::Unit { moment, what, unit } = step else {
        return Ok(());
    };
    if !is_arrival(what) {
        return Ok(());
    }
    match units.get(unit) {
        Some(unit) => arrive(sheet, moment, talks, unit),
        None => Ok(()),
    }
}

/// The conversations of all links: those to the centres, and then those to the substations.
fn talks_of(alloc: Global, substations: u8) -> Result<Vec<Talk>, AllocError>
    ensures { IfOk result (λ talks. talks.items ≡ new_talks substations) }
{
    let mut talks = Vec::new(alloc);
    talks.push(Talk::new(Peer::Centre))?;
    talks.push(Talk::new(Peer::SecondCentre))?;
    for number in 0..substations {
        talks.push(Talk::new(Peer::Substation(number)))?;
    }
    Ok(talks)
}

/// A capture of what arrived, of the classic form of pcap, with the moments of the script since 1970-01-01 as times.
///
/// An error says that memory ran out, now or when it was noted.
pub fn capture_octets(alloc: Global, log: &Log) -> Result<Vec<u8>, AllocError>
    ensures octets { IfOk result (λ octets. octets.items ≡ capture_of log.now) }
    ensures cut { log.now.cut ≡ true → IsErr result }
{
    if log.is_cut() {
        return Err(AllocError);
    }
    let mut talks = talks_of(alloc, log.substations())?;
    let mut sheet = Sheet::new(alloc);
    sheet.put(&HEAD)?;
    let units = log.units();
    for step in log.steps() {
        put_step(&mut sheet, &mut talks, units, *step)?;
    }
    Ok(sheet.into_octets())
}
