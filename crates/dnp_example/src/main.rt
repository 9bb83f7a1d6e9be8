//! The library in use: a substation with one breaker. It opens, a master polls, and once the master has
//! confirmed what it got, the event leaves the substation. Prints the octets of each fragment.
#![tactic(auto)]

use dnp_controls::NoOutputs;
use dnp_eventbuf::{Lanes, PlainLanes};
use dnp_objects::Kind;
use dnp_outstation::{Actions, Outstation};
use dnp_pointdb::{Block, Point, PointDb, PointPlan, Points, Reading, Times};
use std::alloc::Global;
use std::io;

/// The station's points: the breaker is binary 3, an event of class 1 whenever it changes.
fn points(alloc: Global) -> Option<PointDb> {
    let breaker = Point {
        class: 1,
        deadband: 0,
    };
    let points = Points::new(vec![in alloc; breaker; 1].ok()?);
    let binary = vec![in alloc; Block { base: 3, points }].ok()?;
    let plan = PointPlan::new(binary, Vec::new(alloc), Vec::new(alloc)).ok()?;
    PointDb::new(alloc, plan).ok()
}

/// How long the station waits, in milliseconds: for a confirm, and with a selected output for its OPERATE. It sends no
/// unsolicited responses.
const TIMES: Times = Times {
    confirm_ms: 5_000,
    response_ms: 10_000,
    select_ms: 5_000,
    retries: 0,
    unsolicited: false,
};

/// Prints who speaks, and the octets of the fragment.
fn speak(rt: &impl Print, who: &str, octets: &[u8]) -> io::Result<()> {
    print!(rt; "{who}:")?;
    for octet in octets {
        print!(rt; " {octet:02X}")?;
    }
    println!(rt)
}

/// Prints what a call did: the fragments that go to the master, and the events that left.
fn tell(rt: &impl Print, actions: &Actions) -> io::Result<()> {
    for sent in &actions.send {
        if let Some(fragment) = sent {
            speak(rt, "substation", fragment.as_slice())?;
        }
    }
    for row in actions.discarded.as_slice() {
        println!(rt; "confirmed: {row}")?;
    }
    Ok(())
}

/// What happens at a station, whatever its lanes are kept in: a connection begins, and the breaker opens at 1,000 ms.
/// Then the master reads class 1, and confirms what it got by its number.
fn run<L: Lanes + Drop>(
    rt: &impl Print,
    alloc: Global,
    station: &mut Outstation<L, NoOutputs>,
) -> io::Result<()> {
    let opened = Reading {
        value: 0,
        flags: 0x01,
        time: Some(1_000),
    };
    let begun = station.opened(alloc, 0).is_ok()
        && station.change(alloc, 0, Kind::Binary, 3, opened).is_ok();
    if !begun {
        return println!(rt; "refused");
    }
    let requests: [&[u8]; 2] = [&[0xC1, 0x01, 0x3C, 0x02, 0x06], &[0xC1, 0x00]];
    for request in requests {
        speak(rt, "master", request)?;
        let Ok(actions) = station.receive(alloc, 10, request) else {
            return println!(rt; "refused");
        };
        tell(rt, &actions)?;
    }
    Ok(())
}

fn main(rt: HostRuntime) -> io::Result<()> {
    let alloc = rt.alloc();
    // Each lane takes 100 events, and a full one drops its oldest.
    let (Some(points), Ok(lanes)) = (points(alloc), PlainLanes::new(alloc, [100; 9])) else {
        return println!(rt; "out of memory");
    };
    let mut station = Outstation::new(points, lanes, NoOutputs, TIMES);
    run(&rt, alloc, &mut station)
}
