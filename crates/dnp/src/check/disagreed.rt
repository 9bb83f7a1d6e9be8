//! Links on which a plan and its network file don't fit, as they are printed.

use crate::check::system::{Station, System, Who, station_at, stations_of};
use dnp_network::{ClassSet, Disagreement, PlainText};
use std::fmt;
use std::fmt::{Display, Formatter, Write};

/// A link on which the plan and the network file don't fit.
#[derive(Clone, Copy)]
pub(crate) struct Disagreed<'a> {
    /// Its outstation.
    station: Station<'a>,
    /// What they say.
    says: Disagreement,
}

impl<'a> System<'a> {
    /// What doesn't fit on the link of the station with this place, if something doesn't.
    pub(crate) fn disagreed(&self, place: usize) -> Option<Disagreed<'a>> {
        let network = self.network?;
        let station = station_at(network, place)?;
        let says = station.polling.disagreement(self.plan.times.unsolicited)?;
        Some(Disagreed { station, says })
    }
}

impl<'a> Disagreed<'a> {
    /// Which link it is.
    fn put_link<W: Write>(&self, f: &mut Formatter<W>) -> fmt::Result {
        match self.station.who {
            Who::Concentrator => return f.write_str("concentrator towards centre 1"),
            Who::Concentrator2 => return f.write_str("concentrator towards centre 2"),
            Who::Substation(number) => write!(f, "substation {number}")?,
        }
        match self.station.name {
            Some(name) => write!(f, " ({})", PlainText(name.as_str())),
            None => Ok(()),
        }
    }

    /// How events come, where no unsolicited response brings them.
    fn put_polls<W: Write>(&self, f: &mut Formatter<W>) -> fmt::Result {
        match self.station.polling.event_period() {
            Some(ms) => write!(f, "events come by the event poll, every {ms} ms"),
            None => {
                let ms = self.station.polling.keepalive_ms;
                write!(
                    f,
                    "events_ms is \"never\", so events wait for {ms} ms of silence or for an integrity poll"
                )
            }
        }
    }
}

impl Display for Disagreed<'_> {
    fn fmt<W: Write>(&self, f: &mut Formatter<W>) -> fmt::Result {
        self.put_link(f)?;
        match self.says {
            Disagreement::Unsent(enabled) => write!(
                f,
                ": unsolicited = false in the plan, unsolicited = \"{}\" in the network file: its master enables classes, but it sends no event unsolicited; ",
                Digits(enabled)
            )?,
            Disagreement::Unasked => f.write_str(
                ": unsolicited = true in the plan, unsolicited = \"\" in the network file: its master enables no class, so it sends no event unsolicited; ",
            )?,
        }
        self.put_polls(f)
    }
}

/// Says on standard error on which links the plan and the network file don't fit, since no record of CSV has that.
pub(crate) fn say_disagreed<R: Eprint>(rt: &R, system: &System<'_>) {
    let Some(network) = system.network else {
        return;
    };
    for place in 0..stations_of(network) {
        if let Some(disagreed) = system.disagreed(place) {
            let _ = eprintln!(rt; "disagree: {disagreed}");
        }
    }
}

/// Classes of events, as a network file has them.
#[derive(Clone, Copy)]
struct Digits(ClassSet);

impl Display for Digits {
    fn fmt<W: Write>(&self, f: &mut Formatter<W>) -> fmt::Result {
        let Digits(classes) = *self;
        let ClassSet {
            one,
            two,
            three,
            ..
        } = classes;
        for (digit, is_there) in [("1", one), ("2", two), ("3", three)] {
            if is_there {
                f.write_str(digit)?;
            }
        }
        Ok(())
    }
}
