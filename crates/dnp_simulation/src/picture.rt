//! A picture of a network's time: how many events wait, and how old they are at the journals.

use crate::report::Outcome;
use std::alloc::{AllocError, Global};

/// What the picture shows of a moment.
#[derive(Clone, Copy)]
pub struct Sample {
    /// The moment, in milliseconds.
    pub at: u64,
    /// How many events wait for the centre for which more wait.
    pub waiting: u64,
    /// How old the oldest event was that came to a journal since the sample before, in milliseconds.
    pub age: u64,
}

/// Where the panels begin, how wide they are and how high, in pixels.
const LEFT: u64 = 90;

const WIDTH: u64 = 840;

const HEIGHT: u64 = 150;

/// So many bars a panel has at most.
const MOST_BARS: usize = 840;

/// So many parts the time has that are marked.
const MARKS: u64 = 4;

/// One of the two panels.
#[derive(Clone, Copy)]
struct Panel {
    /// Where its lower edge is.
    base: u64,
    /// Its title.
    title: &'static str,
    /// Whether it shows ages, and else events that wait.
    is_age: bool,
}

/// Raises the value of each part of the time, of `part` milliseconds each, to the highest that a panel shows of a sample in it.
fn raise(peaks: &mut [u64], panel: Panel, samples: &[Sample], part: u64) {
    let last = peaks.len().saturating_sub(1);
    for sample in samples {
        let place = usize::try_from(sample.at.saturating_sub(1) / part.max(1)).unwrap_or(0);
        if let Some(peak) = peaks.get_mut(place.min(last)) {
            let shown = if panel.is_age {
                sample.age
            } else {
                sample.waiting
            };
            *peak = shown.max(*peak);
        }
    }
}

/// Gives the highest value of each of the equal parts of the time. There are as many parts as samples, and `MOST_BARS` at most.
fn peaks(
    alloc: Global,
    panel: Panel,
    samples: &[Sample],
    length: u64,
) -> Result<Vec<u64>, AllocError> {
    let count = samples.len().min(MOST_BARS);
    let mut peaks = Vec::new(alloc);
    peaks.resize(count, 0)?;
    let part = length / (count as u64).max(1);
    raise(peaks.as_mut_slice(), panel, samples, part);
    Ok(peaks)
}

/// Gives the highest of these values, 1 at least.
fn highest(peaks: &[u64]) -> u64 {
    let mut highest: u64 = 1;
    for peak in peaks {
        highest = highest.max(*peak);
    }
    highest
}

/// Draws a bar for each of these values that is higher than 0.
fn put_bars(
    alloc: Global,
    text: &mut String,
    panel: Panel,
    peaks: &[u64],
) -> Result<(), AllocError> {
    let top = highest(peaks).max(1);
    let count = (peaks.len() as u64).max(1);
    let wide = WIDTH.div_ceil(count);
    let base = panel.base;
    let begin = format!(in alloc; "<path stroke-width=\"{wide}\" d=\"")?;
    text.push_str(&begin)?;
    for (place, peak) in peaks.iter().enumerate() {
        let halves = (place as u64).saturating_mul(2).saturating_add(1);
        let x = LEFT.saturating_add(halves.saturating_mul(WIDTH) / count / 2);
        let high = peak.saturating_mul(HEIGHT) / top;
        if 0 < high {
            let bar = format!(in alloc; "M{x} {base}v-{high}")?;
            text.push_str(&bar)?;
        }
    }
    text.push_str("\"/>\n")
}

/// Draws a panel's title, its scale up to this value, and its frame.
fn put_frame(alloc: Global, text: &mut String, panel: Panel, high: u64) -> Result<(), AllocError> {
    let Panel {
        base,
        title,
        is_age: _,
    } = panel;
    let top = base.saturating_sub(HEIGHT);
    let frame = format!(in alloc;
        "<text x=\"{LEFT}\" y=\"{}\">{title}</text>\n<text class=\"scale\" x=\"{}\" y=\"{}\">{high}</text>\n<text class=\"scale\" x=\"{}\" y=\"{base}\">0</text>\n<path class=\"frame\" d=\"M{LEFT} {top}h{WIDTH}v{HEIGHT}h-{WIDTH}z\"/>\n",
        top.saturating_sub(8),
        LEFT.saturating_sub(6),
        top.saturating_add(10),
        LEFT.saturating_sub(6)
    )?;
    text.push_str(&frame)
}

/// Draws a panel of these samples, in a time of so many milliseconds.
fn put_panel(
    alloc: Global,
    text: &mut String,
    panel: Panel,
    samples: &[Sample],
    length: u64,
) -> Result<(), AllocError> {
    let values = peaks(alloc, panel, samples, length)?;
    put_frame(alloc, text, panel, highest(&values))?;
    put_bars(alloc, text, panel, &values)
}

/// Writes the hours below the lower panel.
fn put_hours(alloc: Global, text: &mut String, length: u64) -> Result<(), AllocError> {
    for mark in 0..=MARKS {
        let x = LEFT.saturating_add(mark.saturating_mul(WIDTH) / MARKS);
        let minutes = mark.saturating_mul(length) / MARKS / 60_000;
        let hours = minutes / 60;
        let rest = minutes % 60;
        let hour = format!(in alloc;
            "<text class=\"hour\" x=\"{x}\" y=\"420\">{hours}:{rest:02}</text>\n"
        )?;
        text.push_str(&hour)?;
    }
    Ok(())
}

/// How a picture begins.
const OPENING: &str =
    "<svg xmlns=\"http://www.w3.org/2000/svg\" viewBox=\"0 0 960 440\" width=\"960\" height=\"440\">
<rect width=\"100%\" height=\"100%\" fill=\"#fff\"/>
<style>
text { font: 13px sans-serif; fill: #222; }
.scale { text-anchor: end; }
.hour { text-anchor: middle; }
path { stroke: #226; fill: none; }
.frame { stroke: #bbb; }
</style>
";

/// The panels.
const WAITING: Panel = Panel {
    base: 190,
    title: "Events that wait on their way to a centre, at each minute",
    is_age: false,
};

const AGE: Panel = Panel {
    base: 395,
    title: "Age of the oldest event that came to a journal in the minute, in milliseconds",
    is_age: true,
};

impl Outcome {
    /// Gives a picture of how many events waited and how old they were, as SVG.
    pub fn picture(&self, alloc: Global) -> Result<Vec<u8>, AllocError> {
        let mut text = String::from_str(alloc, OPENING)?;
        put_panel(alloc, &mut text, WAITING, &self.samples, self.length_ms)?;
        put_panel(alloc, &mut text, AGE, &self.samples, self.length_ms)?;
        put_hours(alloc, &mut text, self.length_ms)?;
        text.push_str("</svg>\n")?;
        Ok(text.into_bytes())
    }
}
