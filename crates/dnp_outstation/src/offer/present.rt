//! Present values that a READ gives.

ghost use Rattle.std.specs.Prelude.{◌≡◌, ◌≤◌, ◌<◌, ◌++◌, ◌+◌, ◌-◌, ◌^◌, ℕ, ◌&&◌, ◌∷◌, [], nat_le, nat_lt, IsTrue, length, map, drop, fold, List, All};
ghost use Rattle.std.specs.List.{flat_map};
ghost use Rattle.dnp_appfragment.specs.Table.{is_response};
ghost use Rattle.dnp_appfragment.specs.Written.{FitsPoint};
ghost use Rattle.dnp_pointdb.specs.Events.{row_of};
ghost use Rattle.dnp_pointdb.specs.Sound.{IsSoundPoint, IsSoundBlock, AreSoundBlocks};
ghost use Rattle.dnp_outstation.specs.Items.{present_of, static_at, is_within, in_range, statics_from, statics_in, output_row, outputs_from, statics_of, each_static, Source, Static, given_after};
ghost use Rattle.dnp_outstation.specs.steps.Filling.{built_for, reached};
ghost use Rattle.dnp_outstation.specs.steps.Putting.{Puts, shown, presents, rows_from, passed_by};

use crate::offer::place::ReadPlace;
use crate::offer::writer::{Run, Writer};
use dnp_appfragment::{Range, RowSource};
use dnp_controls::Outputs;
use dnp_objects::{Kind, Row};
use dnp_pointdb::laws::readings_fit_their_static_objects;
use dnp_pointdb::{BlockState, PointDb, PointState, static_object};

/// What a header of a READ asks for of present values: the header's place in the READ, the variation of its
/// group, 0 for any, and its range.
#[derive(Clone, Copy, Debug)]
pub struct Ask {
    pub header: usize,
    pub variation: u8,
    pub range: Range,
}

/// Which of so many points in a row, the first with this index, a range names: those from the first
/// place that is answered to before the second.
fn places(range: Range, base: u16, len: usize) -> (usize, usize)
    ensures ordered { result.0 ≤ result.1 }
    ensures short { result.1 ≤ len }
    ensures named { (place : ℕ) → place < len
        → is_within range (base + place) ≡ (nat_le result.0 place && nat_lt place result.1) }
{
    match range {
        Range::Span { first, last, .. } => {
            let base = usize::from(base);
            let from = usize::from(first).saturating_sub(base).min(len);
            let to = (usize::from(last) + 1).saturating_sub(base).min(len);
            (from, to.max(from))
        }
        Range::All | Range::Count { .. } | Range::Indexed { .. } => (0, len),
    }
}

/// The row of a point's present value.
#[inline]
fn row_of(kind: Kind, index: u16, point: &PointState) -> Row
    ensures { result ≡ row_of kind index point.now.reading }
{
    Row {
        kind,
        index,
        flags: point.reading.flags,
        value: point.reading.value,
        time: point.reading.time,
    }
}

/// The present values of points of a kind, the first with this index.
#[derive(Clone, Copy)]
struct PointValues<'a> {
    kind: Kind,
    first: usize,
    points: &'a [PointState],
    ghost narrow: { first + length points.now ≤ 2 ^ 16 },
}

impl<'a> RowSource for PointValues<'a> {
    ghost rows = { λ v. rows_from v.kind v.first v.points.now };

    #[inline]
    fn len(&self) -> usize {
        self.points.len()
    }

    #[inline]
    fn row(&self, place: usize) -> Row {
        row_of(self.kind, (self.first + place) as u16, &self.points[place])
    }
}

/// The row of an output's status: its value is bit 7 of the flags octet.
fn output_row(index: u16, status: u8) -> Row
    ensures value { (shown : ℕ → ℕ) → shown index ≡ status → result ≡ output_row shown index }
    ensures fits { FitsPoint 10 2 result }
{
    let value = if 128 <= status { 1 } else { 0 };
    Row {
        kind: Kind::Binary,
        index,
        flags: status - 128 * value,
        value: i64::from(value),
        time: None,
    }
}

impl ReadPlace {
    /// So many present values of this header were given.
    fn pass_by(&mut self, header: usize, count: u32)
        ensures { self.new ≡ passed_by self.old header count }
    {
        let before = if self.header == header { self.count } else { 0 };
        self.header = header;
        self.count = before.saturating_add(count);
    }
}

impl Writer {
    /// Ends the last header, if it is not that of present values of this header of the READ, this group and
    /// this block.
    fn end_other_block(&mut self, header: usize, group: u8, block: usize)
        ensures { self.new ≡ record self.old { builder = built_for self.old (Run.OfBlock header group block) } }
    {
        if !self.run.is_block(header, group, block) {
            self.builder.break_run();
        }
    }

    /// Puts the points of a block from a place on, of which the first has this index, as far as they
    /// fit; answers whether all do.
    fn put_points(
        &mut self,
        ask: Ask,
        kind: Kind,
        block: usize,
        first: usize,
        points: &[PointState],
    ) -> bool
        requires response { IsTrue (is_response self.old.builder.function) }
        requires narrow { first + length points.now ≤ 2 ^ 16 }
        requires sound { All (IsSoundPoint kind) points.now }
        ensures written { Puts self.old (shown ask.header (statics_from ask.variation block kind first points.now)) result self.new }
        ensures response { self.new.builder.function ≡ self.old.builder.function }
        ensures given { IsTrue result → reached self.new ≡ reached self.old }
    {
        let len = points.len();
        if len == 0 {
            return true;
        }
        if !self.settle() {
            return false;
        }
        // (laws, for the proof: they do nothing)
        readings_fit_their_static_objects();
        let (group, variation) = static_object(kind, ask.variation);
        self.end_other_block(ask.header, group, block);
        let values = PointValues {
            kind,
            first,
            points,
        };
        let count = self.builder.points(group, variation, first as u16, values);
        if count == 0 {
            return false;
        }
        self.run = Run::OfBlock(ask.header, group, block);
        self.place.pass_by(ask.header, count as u32);
        count == len
    }

    /// Puts the points of a block that the header asks for but for the first `skip`, as far as they
    /// fit; answers whether all do. What is still to be skipped is left in `skip`.
    fn put_block(
        &mut self,
        ask: Ask,
        kind: Kind,
        number: usize,
        block: &BlockState,
        skip: &mut usize,
    ) -> bool
        requires response { IsTrue (is_response self.old.builder.function) }
        requires sound { IsSoundBlock kind block.now }
        ensures written { Puts self.old (presents ask.header skip.old (in_range ask.range (statics_from ask.variation number kind block.now.base block.now.points))) result self.new }
        ensures skipped { skip.new ≡ skip.old - length (in_range ask.range (statics_from ask.variation number kind block.now.base block.now.points)) }
        ensures response { self.new.builder.function ≡ self.old.builder.function }
        ensures given { IsTrue result → reached self.new ≡ reached self.old }
    {
        let points = block.points.as_slice();
        let (from, to) = places(ask.range, block.base, points.len());
        let named = &points[from..to];
        let passed = (*skip).min(named.len());
        *skip -= passed;
        let first = usize::from(block.base) + from + passed;
        self.put_points(ask, kind, number, first, &named[passed..])
    }

    /// Puts the points of blocks of a kind that the header asks for but for the first `skip`, as far as
    /// they fit; answers whether all do. What is still to be skipped is left in `skip`.
    fn put_blocks(&mut self, ask: Ask, kind: Kind, blocks: &[BlockState], skip: &mut usize) -> bool
        requires response { IsTrue (is_response self.old.builder.function) }
        requires sound { AreSoundBlocks kind blocks.now }
        ensures written { Puts self.old (presents ask.header skip.old (in_range ask.range (statics_in ask.variation kind 0 blocks.now))) result self.new }
        ensures skipped { IsTrue result → skip.new ≡ skip.old - length (in_range ask.range (statics_in ask.variation kind 0 blocks.now)) }
        ensures response { self.new.builder.function ≡ self.old.builder.function }
        ensures given { IsTrue result → reached self.new ≡ reached self.old }
    {
        for (number, block) in blocks.iter().enumerate() {
            if !self.put_block(ask, kind, number, block, skip) {
                return false;
            }
        }
        true
    }

    /// Puts an output's status, and the rows that wait before it, if they fit; answers whether they do.
    fn put_status(&mut self, header: usize, row: &Row) -> bool
        requires response { IsTrue (is_response self.old.builder.function) }
        requires fits { FitsPoint 10 2 row.now }
        ensures written { Puts self.old (shown header ((record { object = (10, 2); block = 0; row = row.now }) ∷ [])) result self.new }
        ensures response { self.new.builder.function ≡ self.old.builder.function }
        ensures given { IsTrue result → reached self.new ≡ reached self.old }
    {
        self.settle() && self.put_present(header, (10, 2), 0, row)
    }

    #[tactic(auto, using(crate::proofs::OfferPresent::next_output))]
    /// Puts the statuses of the outputs from one index on to before another, as far as they fit; answers
    /// whether all do.
    fn put_statuses<O: Outputs>(
        &mut self,
        header: usize,
        outputs: &O,
        first: usize,
        end: usize,
    ) -> bool
        requires response { IsTrue (is_response self.old.builder.function) }
        requires narrow { end ≤ 2 ^ 16 }
        ensures written { Puts self.old (shown header (outputs_from (O.panel outputs.now).status first (end - first))) result self.new }
        ensures response { self.new.builder.function ≡ self.old.builder.function }
        ensures given { IsTrue result → reached self.new ≡ reached self.old }
    {
        for index in first..end {
            let index = index as u16;
            let row = output_row(index, outputs.status(index));
            if !self.put_status(header, &row) {
                return false;
            }
        }
        true
    }

    /// Puts the statuses of outputs that the header asks for but for the first `skip`, as far as they
    /// fit; answers whether all do. What is still to be skipped is left in `skip`.
    fn put_outputs<O: Outputs>(&mut self, ask: Ask, outputs: &O, skip: &mut usize) -> bool
        requires response { IsTrue (is_response self.old.builder.function) }
        ensures written { Puts self.old (presents ask.header skip.old (in_range ask.range (outputs_from (O.panel outputs.now).status 0 (O.panel outputs.now).outputs))) result self.new }
        ensures skipped { skip.new ≡ skip.old - length (in_range ask.range (outputs_from (O.panel outputs.now).status 0 (O.panel outputs.now).outputs)) }
        ensures response { self.new.builder.function ≡ self.old.builder.function }
        ensures given { IsTrue result → reached self.new ≡ reached self.old }
    {
        let (from, to) = places(ask.range, 0, usize::from(outputs.outputs()));
        let passed = (*skip).min(to - from);
        *skip -= passed;
        self.put_statuses(ask.header, outputs, from + passed, to)
    }

    /// Puts the present values of a group that the header asks for but for the first `skip`, as far as
    /// they fit; answers whether all do. What is still to be skipped is left in `skip`.
    fn put_group<O: Outputs>(
        &mut self,
        ask: Ask,
        group: u8,
        points: &PointDb,
        outputs: &O,
        skip: &mut usize,
    ) -> bool
        requires response { IsTrue (is_response self.old.builder.function) }
        ensures written { (s : Source) → s.points ≡ points.now → s.panel ≡ O.panel outputs.now
            → Puts self.old (presents ask.header skip.old (in_range ask.range (statics_of s ask.variation group))) result self.new }
        ensures skipped { (s : Source) → s.points ≡ points.now → s.panel ≡ O.panel outputs.now
            → IsTrue result → skip.new ≡ skip.old - length (in_range ask.range (statics_of s ask.variation group)) }
        ensures response { self.new.builder.function ≡ self.old.builder.function }
        ensures given { IsTrue result → reached self.new ≡ reached self.old }
    {
        match group {
            1 => self.put_blocks(ask, Kind::Binary, points.blocks(Kind::Binary), skip),
            10 => self.put_outputs(ask, outputs, skip),
            20 => self.put_blocks(ask, Kind::Counter, points.blocks(Kind::Counter), skip),
            30 => self.put_blocks(ask, Kind::Analog, points.blocks(Kind::Analog), skip),
            _ => true,
        }
    }

    /// Puts the present values of groups that the header asks for but for the first `skip`, as far as
    /// they fit; answers whether all do. What is still to be skipped is left in `skip`.
    fn put_groups<O: Outputs>(
        &mut self,
        ask: Ask,
        groups: &[u8],
        points: &PointDb,
        outputs: &O,
        skip: &mut usize,
    ) -> bool
        requires response { IsTrue (is_response self.old.builder.function) }
        ensures written { (s : Source) → s.points ≡ points.now → s.panel ≡ O.panel outputs.now
            → Puts self.old (presents ask.header skip.old (in_range ask.range (flat_map (statics_of s ask.variation) groups.now))) result self.new }
        ensures response { self.new.builder.function ≡ self.old.builder.function }
        ensures given { IsTrue result → reached self.new ≡ reached self.old }
    {
        for group in groups {
            if !self.put_group(ask, *group, points, outputs, skip) {
                return false;
            }
        }
        true
    }

    /// Puts the present values of a group in a range but for the first so many, as far as they fit;
    /// answers whether all do.
    #[tactic(auto, using(crate::proofs::OfferPresent::given_presents))]
    pub(crate) fn put_one_group<O: Outputs>(
        &mut self,
        ask: Ask,
        group: u8,
        points: &PointDb,
        outputs: &O,
        given: u32,
    ) -> bool
        requires { IsTrue (is_response self.old.builder.function) }
        ensures written { (s : Source) → s.points ≡ points.now → s.panel ≡ O.panel outputs.now
            → Puts self.old (presents ask.header given (in_range ask.range (statics_of s ask.variation group))) result self.new }
        ensures response { self.new.builder.function ≡ self.old.builder.function }
        ensures given { (statics : List Static) → IsTrue result → reached self.new ≡ fold given_after (reached self.old) (map (present_of ask.header) (drop given statics)) }
    {
        let mut skip = given as usize;
        self.put_group(ask, group, points, outputs, &mut skip)
    }

    /// Puts the present values of all groups but for the first so many, as far as they fit; answers
    /// whether all do.
    #[tactic(auto, using(crate::proofs::OfferPresent::given_presents))]
    pub(crate) fn put_each_group<O: Outputs>(
        &mut self,
        header: usize,
        points: &PointDb,
        outputs: &O,
        given: u32,
    ) -> bool
        requires { IsTrue (is_response self.old.builder.function) }
        ensures written { (s : Source) → s.points ≡ points.now → s.panel ≡ O.panel outputs.now
            → Puts self.old (presents header given (each_static s)) result self.new }
        ensures response { self.new.builder.function ≡ self.old.builder.function }
        ensures given { (statics : List Static) → IsTrue result → reached self.new ≡ fold given_after (reached self.old) (map (present_of header) (drop given statics)) }
    {
        let ask = Ask {
            header,
            variation: 0,
            range: Range::All,
        };
        let mut skip = given as usize;
        self.put_groups(ask, &[1, 10, 20, 30], points, outputs, &mut skip)
    }
}
