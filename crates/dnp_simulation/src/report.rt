//! What a network did, as text.

use crate::figures::Figures;
use crate::network::Network;
use crate::nodes::Nodes;
use crate::picture::Sample;
use crate::violation::Seen;
use std::alloc::{AllocError, Global};

/// What came of a network that has run.
pub struct Outcome {
    /// The seed.
    pub seed: u64,
    /// How long it ran, in milliseconds.
    pub length_ms: u64,
    /// The seed, and what it did.
    pub figures: Figures,
    /// What must not be, and was: the first ones.
    pub seen: Vec<Seen>,
    /// What was told of its steps.
    pub steps: Vec<String>,
    /// What its picture shows.
    pub samples: Vec<Sample>,
}

impl Drop for Outcome {
    /// One call for whoever lets it go: its parts are looked at here alone.
    fn drop(self) {
        let Outcome {
            seed: _,
            length_ms: _,
            figures: _,
            seen: _,
            steps: _,
            samples: _,
        } = self;
    }
}

impl Outcome {
    /// Says whether nothing was seen that must not be.
    pub fn holds(&self) -> bool {
        self.seen.is_empty()
    }

    /// Gives what came of it, as JSON or as lines.
    pub fn said(&self, alloc: Global, is_json: bool) -> Result<String, AllocError> {
        let mut text = String::new(alloc);
        if is_json {
            self.put_json(alloc, &mut text)?;
        } else {
            self.put_lines(alloc, &mut text)?;
        }
        Ok(text)
    }

    /// Adds what came of it as lines: steps, numbers, and what must not be, with the seed by which it was seen.
    fn put_lines(&self, alloc: Global, text: &mut String) -> Result<(), AllocError> {
        for step in &self.steps {
            text.push_str(step)?;
            text.push_str("\n")?;
        }
        for figure in &self.figures.list {
            let line = format!(in alloc; "{}: {}\n", figure.name, figure.value)?;
            text.push_str(&line)?;
        }
        let seed = self.seed;
        for seen in &self.seen {
            let line = format!(in alloc; "violation: seed {seed}, {seen}\n")?;
            text.push_str(&line)?;
        }
        Ok(())
    }

    /// Adds what came of it as a JSON object, without steps.
    fn put_json(&self, alloc: Global, text: &mut String) -> Result<(), AllocError> {
        text.push_str("{")?;
        for figure in &self.figures.list {
            let member = format!(in alloc; "\"{}\":{},", figure.name, figure.value)?;
            text.push_str(&member)?;
        }
        text.push_str("\"seen\":[")?;
        for (place, seen) in self.seen.iter().enumerate() {
            let comma = if place == 0 { "" } else { "," };
            let Seen { at, violation } = seen;
            let member = format!(in alloc; "{comma}{{\"at\":{at},\"what\":\"{violation}\"}}")?;
            text.push_str(&member)?;
        }
        text.push_str("]}\n")
    }
}

impl Network {
    /// Gives what came of it.
    pub fn outcome<N: Nodes>(&mut self, nodes: &mut N) -> Result<Outcome, AllocError> {
        let alloc = self.record.alloc;
        let settle = self.layout.pollings.settle_ms();
        let mut outcome = Outcome {
            seed: self.settings.seed,
            length_ms: self.settings.length_ms.max(settle),
            figures: Figures {
                list: Vec::new(alloc),
            },
            seen: Vec::new(alloc),
            steps: Vec::new(alloc),
            samples: Vec::new(alloc),
        };
        self.put_figures(nodes, &mut outcome.figures)?;
        std::mem::swap(&mut outcome.seen, &mut self.record.seen);
        std::mem::swap(&mut outcome.steps, &mut self.record.steps);
        std::mem::swap(&mut outcome.samples, &mut self.journals.ages.samples);
        Ok(outcome)
    }
}
