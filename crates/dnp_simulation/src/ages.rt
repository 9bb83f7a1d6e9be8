//! How old events were as they came to journals, and how many wait: what the picture shows.

use crate::picture::Sample;
use std::alloc::AllocError;

/// How old events were as they came to journals, in milliseconds.
#[derive(Drop)]
pub struct Ages {
    /// In the order in which they came.
    pub list: Vec<u64>,
    /// How many of these a sample has.
    pub sampled: usize,
    /// What the picture shows, in order.
    pub samples: Vec<Sample>,
}

impl Ages {
    /// Notes what the picture shows of this moment: so many events wait.
    pub fn sample(&mut self, now: u64, waiting: u64) -> Result<(), AllocError> {
        let mut age: u64 = 0;
        for place in self.sampled..self.list.len() {
            age = age.max(self.list[place]);
        }
        self.sampled = self.list.len();
        self.samples.push(Sample {
            at: now,
            waiting,
            age,
        })?;
        Ok(())
    }

    /// Gives the median and the highest age; 0 if there is none. The ages are put in order.
    pub fn median_and_worst(&mut self) -> Result<(u64, u64), AllocError> {
        self.list.sort()?;
        let median = self.list.get(self.list.len() / 2).copied();
        let worst = self.list.last().copied();
        Ok((median.unwrap_or(0), worst.unwrap_or(0)))
    }
}
