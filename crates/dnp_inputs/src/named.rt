//! What people call the points that rows are of, as it stands in their lines.

ghost use Rattle.dnp_concentrator.specs.Plan.{KeepsLimits};

use crate::network_file::{Given, index_kind};
use dnp_concentrator::{IndexMap, Plan};
use dnp_controls::Entry;
use dnp_network::{
    CsvText, JsonText, Network, PlainText, PointId, PointKind, PointName, Words, name_of_point,
};
use dnp_objects::{Command, Kind, Row};
use dnp_rows::{Form, Item, Naming, Whose};
use std::alloc::{AllocError, Global};
use std::io;
use std::io::Write;

/// What stands behind the rows of each point of a plan.
#[derive(Drop)]
pub struct PointTexts {
    /// Which index above is of which substation.
    map: IndexMap,
    /// Whose book the controls are of.
    whose: Whose,
    /// The texts, one behind the other.
    texts: Vec<u8>,
    /// Where the text of each point ends that the plan has, substation by substation and kind by kind; it begins where the one before it ends.
    ends: Vec<usize>,
    /// Which point is the first of each substation and kind.
    firsts: Vec<usize>,
    /// What stands behind a row of a point that the plan lacks.
    absent: &'static [u8],
}

/// A point, with what people call it and its substation.
#[derive(Clone, Copy)]
struct Called<'a> {
    /// The number of the substation.
    substation: usize,
    /// What people call the substation.
    station: Option<&'a Words>,
    /// What people call the point.
    point: Option<&'a PointName>,
}

/// The columns that are behind those of a row, in the head of CSV.
pub const COLUMNS: &[u8] = b",substation,station,point";

/// What stands behind a row of a point that the plan lacks.
fn absent(form: Form) -> &'static [u8] {
    match form {
        Form::Text(_) => b"",
        Form::Csv => b",,,",
        Form::Json => b",\"substation\":null,\"station\":null,\"point\":null",
    }
}

/// Writes a name as JSON has it, or `null` where there is none.
fn write_json<W: Write>(out: &mut W, name: Option<&Words>) -> io::Result<()> {
    match name {
        Some(name) => write!(out, "{}", JsonText(name.as_str())),
        None => out.write_all(b"null"),
    }
}

/// Writes a name as CSV has it, or nothing where there is none.
fn write_csv<W: Write>(out: &mut W, name: Option<&Words>) -> io::Result<()> {
    match name {
        Some(name) => write!(out, ",{}", CsvText(name.as_str())),
        None => out.write_all(b","),
    }
}

/// Writes names for people: that of the substation, and that of the point; nothing where there is none.
fn write_plain<W: Write>(
    out: &mut W,
    substation: usize,
    station: Option<&Words>,
    point: Option<&Words>,
) -> io::Result<()> {
    match (station, point) {
        (None, None) => Ok(()),
        (Some(station), None) => write!(out, " {}", PlainText(station.as_str())),
        (None, Some(point)) => write!(
            out,
            " substation {substation}: {}",
            PlainText(point.as_str())
        ),
        (Some(station), Some(point)) => write!(
            out,
            " {}: {}",
            PlainText(station.as_str()),
            PlainText(point.as_str())
        ),
    }
}

/// Writes what stands behind a row.
fn write_called<W: Write>(out: &mut W, form: Form, called: &Called<'_>) -> io::Result<()> {
    let (substation, station) = (called.substation, called.station);
    let point = match called.point {
        Some(point) => Some(&point.name),
        None => None,
    };
    match form {
        Form::Text(_) => write_plain(out, substation, station, point),
        Form::Csv => {
            write!(out, ",{substation}")?;
            write_csv(out, station)?;
            write_csv(out, point)
        }
        Form::Json => {
            write!(out, ",\"substation\":{substation},\"station\":")?;
            write_json(out, station)?;
            out.write_all(b",\"point\":")?;
            write_json(out, point)
        }
    }
}

/// What people call a substation.
fn station_name(network: &Network, substation: usize) -> Option<&Words> {
    let site = network.substations.as_slice().get(substation)?;
    site.name.as_ref()
}

impl PointTexts {
    /// What stands behind the rows of a plan's points, by their names, in lines of this form; the controls are of a book of this one.
    pub fn of(
        alloc: Global,
        plan: &Plan,
        given: &Given,
        form: Form,
        whose: Whose,
    ) -> anyhow::Result<PointTexts>
        requires { KeepsLimits plan.now }
    {
        let mut all = PointTexts {
            map: IndexMap::new(alloc, plan)?,
            whose,
            texts: Vec::new(alloc),
            ends: Vec::new(alloc),
            firsts: Vec::new(alloc),
            absent: absent(form),
        };
        match all.fill(plan, given, form) {
            Ok(()) => Ok(all),
            Err(fault) => Err(fault),
        }
    }

    /// Puts what stands behind the rows of all points of a plan.
    fn fill(&mut self, plan: &Plan, given: &Given, form: Form) -> anyhow::Result<()> {
        for (substation, points) in plan.substations.as_slice().iter().enumerate() {
            for kind in PointKind::ALL {
                let count = points.spans().of(index_kind(kind)).count;
                self.add(given, form, substation, kind, count)?;
            }
        }
        Ok(())
    }

    /// Puts what stands behind the rows of the points of a kind that a substation has, so many of them.
    fn add(
        &mut self,
        given: &Given,
        form: Form,
        substation: usize,
        kind: PointKind,
        count: usize,
    ) -> anyhow::Result<()> {
        let station = station_name(&given.network, substation);
        self.firsts.push(self.ends.len())?;
        for index in 0..count {
            let point = point_name(given.points.as_slice(), substation, kind, index);
            let called = Called {
                substation,
                station,
                point,
            };
            write_called(&mut self.texts, form, &called)?;
            self.ends.push(self.texts.len())?;
        }
        Ok(())
    }

    /// What stands behind a row of this point of a substation.
    fn text(&self, substation: u8, kind: PointKind, index: u16) -> Option<&[u8]> {
        let series = usize::from(substation)
            .saturating_mul(PointKind::ALL.len())
            .saturating_add(kind.number());
        let first = self.firsts.get(series).copied()?;
        let number = first.saturating_add(usize::from(index));
        let end = self.ends.get(number).copied()?;
        let start = match number.checked_sub(1) {
            Some(before) => self.ends.get(before).copied()?,
            None => 0,
        };
        self.texts.get(start..end)
    }

    /// What stands behind a row of a point with this index above.
    fn text_above(&self, kind: PointKind, index: u16) -> Option<&[u8]> {
        let (substation, index) = self.map.below(index_kind(kind), index)?;
        self.text(substation, kind, index)
    }

    /// What stands behind an event.
    fn of_event(&self, row: &Row) -> Option<&[u8]> {
        let kind = match row.kind {
            Kind::Binary => PointKind::Binary,
            Kind::Counter => PointKind::Counter,
            Kind::Analog => PointKind::Analog,
        };
        self.text_above(kind, row.index)
    }

    /// What stands behind a control.
    fn of_control(&self, entry: &Entry) -> Option<&[u8]> {
        let kind = match entry.command {
            Command::Block { .. } => PointKind::Output,
            Command::Set16 { .. } | Command::Set32 { .. } => PointKind::Setpoint,
        };
        match self.whose {
            Whose::Centre => self.text_above(kind, entry.command.index()),
            Whose::Concentrator => self.text(entry.target, kind, entry.command.index()),
            Whose::Anyone => None,
        }
    }
}

/// What people call a point with this index at its substation.
fn point_name(
    points: &[PointName],
    substation: usize,
    kind: PointKind,
    index: usize,
) -> Option<&PointName> {
    let index = u16::try_from(index).ok()?;
    name_of_point(
        points,
        PointId {
            substation,
            kind,
            index,
        },
    )
}

impl Naming for PointTexts {
    fn name(&self, item: &Item) -> &[u8] {
        let text = match item {
            Item::Event(event) => self.of_event(&event.row),
            Item::Control(entry) => self.of_control(entry),
        };
        text.unwrap_or(self.absent)
    }
}
