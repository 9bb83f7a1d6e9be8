//! Numbers by a seed.

ghost use Rattle.std.specs.Prelude.{◌≡◌, ◌<◌, ◌≤◌, ◌+◌, ◌^◌};

/// Numbers that look as if by chance (SplitMix64), each made of the one before.
#[derive(Clone, Copy)]
pub struct Random {
    /// What the next one is made of: at first the seed.
    pub state: u64,
}

impl Random {
    /// Gives the next number.
    pub fn next(&mut self) -> u64 {
        self.state = self.state.wrapping_add(0x9E37_79B9_7F4A_7C15);
        let mut mixed = self.state;
        mixed = (mixed ^ (mixed >> 30)).wrapping_mul(0xBF58_476D_1CE4_E5B9);
        mixed = (mixed ^ (mixed >> 27)).wrapping_mul(0x94D0_49BB_1331_11EB);
        mixed ^ (mixed >> 31)
    }

    /// Gives a number below `span`; 0 where that is 0.
    pub fn below(&mut self, span: u64) -> u64
        ensures below { 0 < span → result < span }
        ensures zero { span ≡ 0 → result ≡ 0 }
    {
        let drawn = self.next();
        if span == 0 { 0 } else { drawn % span }
    }

    /// Gives a number from `least` to below `least + span`; `least` where `span` is 0.
    pub fn within(&mut self, least: u64, span: u64) -> u64
        ensures least { least ≤ result }
        ensures below { 0 < span → result < least + span }
    {
        least.saturating_add(self.below(span))
    }

    /// Gives a place below `count`; 0 where that is 0.
    pub fn place(&mut self, count: usize) -> usize
        ensures below { 0 < count → result < count }
    {
        let drawn = self.below(count as u64);
        usize::try_from(drawn).unwrap_or(0)
    }

    /// Says whether one of so many comes.
    pub fn one_in(&mut self, many: u64) -> bool {
        self.below(many) == 0
    }

    /// Gives how long it takes until the next of things that come each `mean` milliseconds on the whole, 1 at least. Half of
    /// them come soon after another.
    pub fn pause(&mut self, mean: u64) -> u64
        ensures { 1 ≤ result }
    {
        let tenth = (mean / 10).max(1);
        let span = if self.one_in(2) {
            tenth.saturating_mul(2)
        } else {
            tenth.saturating_mul(38)
        };
        self.within(1, span)
    }
}
