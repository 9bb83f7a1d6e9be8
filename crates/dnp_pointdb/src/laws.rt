//! Laws of the words of `specs/`: each function does nothing, and its contract is a law.

ghost use Rattle.std.specs.Prelude.{◌≡◌, ◌≢◌, ℕ, ◌≤◌, ◌<◌, ◌+◌, ◌-◌, ◌⊎◌, ◌↔◌, List, Bool, true, IsSome, IfSome, IfOk, IsTrue, IsNone, Contains, Any, length, slice_get, slice_index_or, Some, None};
ghost use Rattle.std.specs.Option.{option_map, IsSomeAnd};
ghost use Rattle.std.specs.Int.{bit_at};
ghost use Rattle.dnp_objects.specs.declared.limits.TheConstants.{CLASSES};
ghost use Rattle.dnp_objects.specs.declared.row.Kind.{Kind as KindValue};
ghost use Rattle.dnp_objects.specs.Objects.{shape_written};
ghost use Rattle.dnp_objects.specs.Rows.{row_fits, Fits};
ghost use Rattle.dnp_objects.specs.Events.{IsEvent};
ghost use Rattle.dnp_objects.specs.Lanes.{IsLane};
ghost use Rattle.dnp_pointdb.specs.declared.point.Point.{Point as PointValue};
ghost use Rattle.dnp_pointdb.specs.declared.point.Block.{Block as BlockValue};
ghost use Rattle.dnp_pointdb.specs.declared.reading.Reading.{Reading as ReadingValue};
ghost use Rattle.dnp_pointdb.specs.declared.reading.LastReport.{LastReport as ReportValue};
ghost use Rattle.dnp_pointdb.specs.Blocks.{HasIndex};
ghost use Rattle.dnp_pointdb.specs.Classes.{class_at};
ghost use Rattle.dnp_pointdb.specs.Plan.{Plan, blocks_of, IsSoundPlan};
ghost use Rattle.dnp_pointdb.specs.Sound as sound;
ghost use Rattle.dnp_pointdb.specs.Events.{event_of, row_of, distance};
ghost use Rattle.dnp_pointdb.specs.declared.state.BlockState.{BlockState as BlockStateValue};
ghost use Rattle.dnp_pointdb.specs.Database as database_words;
ghost use Rattle.dnp_pointdb.specs.Database.{Database, state_at, answer_of, new_database, changed_of, set_of, restarted, changed_state, set_state, restarted_state, lost_flags, lost_of};
ghost use Rattle.dnp_pointdb.specs.steps.Order.{Extent, IsOrder, place_in};
ghost use Rattle.dnp_pointdb.specs.declared.order.BlockPlace.{BlockPlace as PlaceValue};
ghost use Rattle.dnp_pointdb.specs.Ranges.{is_carried, is_in_range};
ghost use Rattle.dnp_pointdb.specs.Runs.{Move, rows_of, rows_at, happened_at, happenings_of};
ghost use Rattle.dnp_pointdb.specs.declared.limits.TheConstants as limits;

use dnp_objects::laws::objects_have_their_widths;

/// A change is an event exactly if the point has class 1, 2 or 3 and either the flags are others
/// than those last reported or the value differs from the one last reported by more than the
/// deadband. The event is the reading's row, in the lane of the point's class and kind.
pub fn a_change_of_note_is_an_event()
    ensures event { (kind : KindValue) (index : ℕ) (point : PointValue) (last : ReportValue) (reading : ReadingValue)
        → IsSome (event_of kind index point last reading)
        ↔ ((1 ≤ point.class) × (point.class ≤ CLASSES)
        × ((reading.flags ≢ last.flags) ⊎ (point.deadband < distance reading.value last.value))) }
    ensures row { (kind : KindValue) (index : ℕ) (point : PointValue) (last : ReportValue) (reading : ReadingValue)
        → IfSome (event_of kind index point last reading)
        (λ made. IsLane made.lane point.class kind × (made.row ≡ row_of kind index reading)) }
{}

/// The value and the flags of a reading are in range exactly if some object of the library can carry
/// the row, whatever its time.
pub fn readings_are_those_that_objects_carry()
    ensures { (kind : KindValue) (index : ℕ) (reading : ReadingValue)
        → (is_carried kind reading ≡ true)
        ↔ ((group : ℕ) × (variation : ℕ)
        × IsSomeAnd (shape_written group variation) (λ shape. IsTrue (row_fits shape (row_of kind index reading)))) }
{
    objects_have_their_widths();
}

/// Lost communication clears ONLINE, bit 0, sets COMM_LOST, bit 2, and leaves the other flags.
pub fn lost_communication_shows_in_two_flags()
    ensures online { (flags : ℕ) → bit_at (lost_flags flags) 0 ≡ 0 }
    ensures comm_lost { (flags : ℕ) → bit_at (lost_flags flags) 2 ≡ 1 }
    ensures others { (flags bit : ℕ) → bit < 8 → bit ≢ 0 → bit ≢ 2
        → bit_at (lost_flags flags) bit ≡ bit_at flags bit }
{}

/// The points are those of the plan: in each kind a point has the class and the deadband that the
/// plan's block gives its index, and an index of no block has no point.
pub fn points_are_those_of_the_plan()
    ensures there { (plan : Plan) (kind : KindValue) (index : ℕ) (block : BlockValue)
        → IsSoundPlan plan → Contains (blocks_of plan kind) block → HasIndex block index
        → option_map (λ state. state.point) (state_at (new_database plan) kind index)
        ≡ slice_get block.points (index - block.base) }
    ensures nowhere { (plan : Plan) (kind : KindValue) (index : ℕ)
        → (Any (λ block. HasIndex block index) (blocks_of plan kind) → ⊥)
        → IsNone (state_at (new_database plan) kind index) }
    ensures class { (plan : Plan) (kind : KindValue) (index : ℕ)
        → option_map (λ state. state.point.class) (state_at (new_database plan) kind index) ≡ class_at plan kind index }
{}

/// A run of changes and restarts, whatever points they are of, makes of each point exactly the
/// events that happened to it: those which its class, its deadband, its last report and its own
/// readings and restarts give by themselves.
pub fn a_run_makes_what_happened()
    ensures { (database : Database) (moves : List Move) (kind : KindValue) (index : ℕ)
        → rows_at kind index (rows_of database moves)
        ≡ happened_at (state_at database kind index) kind index (happenings_of kind index moves) }
{}

/// A change of one point changes no other, and what it changes of its own point depends on that
/// point alone. The same is so of a reading without an event; a restart sets back each point.
pub fn a_change_is_of_one_point()
    ensures changed { (database : Database) (kind : KindValue) (index : ℕ) (reading : ReadingValue)
        → is_in_range kind reading ≡ true
        → state_at (changed_of database kind index reading) kind index
        ≡ option_map (changed_state kind index reading) (state_at database kind index) }
    ensures set { (database : Database) (kind : KindValue) (index : ℕ) (reading : ReadingValue)
        → is_in_range kind reading ≡ true
        → state_at (set_of database kind index reading) kind index
        ≡ option_map (set_state reading) (state_at database kind index) }
    ensures others_changed { (database : Database) (kind other_kind : KindValue) (index other : ℕ) (reading : ReadingValue)
        → (kind ≢ other_kind) ⊎ (index ≢ other)
        → state_at (changed_of database kind index reading) other_kind other ≡ state_at database other_kind other }
    ensures others_set { (database : Database) (kind other_kind : KindValue) (index other : ℕ) (reading : ReadingValue)
        → (kind ≢ other_kind) ⊎ (index ≢ other)
        → state_at (set_of database kind index reading) other_kind other ≡ state_at database other_kind other }
    ensures restarted { (database : Database) (kind : KindValue) (index : ℕ)
        → state_at (restarted database) kind index ≡ option_map restarted_state (state_at database kind index) }
{}

/// Lost communication leaves of each point what the plan says of it and what was last reported, and
/// so what its next change makes.
pub fn lost_communication_is_no_report()
    ensures points { (database : Database) (number : ℕ) (kind : KindValue) (index : ℕ)
        → option_map (λ state. state.point) (state_at (lost_of database number) kind index)
        ≡ option_map (λ state. state.point) (state_at database kind index) }
    ensures reports { (database : Database) (number : ℕ) (kind : KindValue) (index : ℕ)
        → option_map (λ state. state.reported) (state_at (lost_of database number) kind index)
        ≡ option_map (λ state. state.reported) (state_at database kind index) }
{}

/// The points of a new database of a plan are sound, and each call keeps them so: classes from 0 to
/// 3, readings in range, indices below 65,536, and no index that two blocks of a kind share.
pub fn points_stay_sound()
    ensures new { (plan : Plan) → IsSoundPlan plan → sound.IsSoundDatabase (new_database plan) }
    ensures changed { (database : Database) (kind : KindValue) (index : ℕ) (reading : ReadingValue)
        → sound.IsSoundDatabase database → sound.IsSoundDatabase (changed_of database kind index reading) }
    ensures set { (database : Database) (kind : KindValue) (index : ℕ) (reading : ReadingValue)
        → sound.IsSoundDatabase database → sound.IsSoundDatabase (set_of database kind index reading) }
    ensures lost { (database : Database) (number : ℕ)
        → sound.IsSoundDatabase database → sound.IsSoundDatabase (lost_of database number) }
    ensures restarted { (database : Database)
        → sound.IsSoundDatabase database → sound.IsSoundDatabase (restarted database) }
{}

/// In a sound database the point that stands at a place of a block is the one that its index, the
/// block's base and the place, finds.
pub fn a_point_has_its_index()
    ensures { (database : Database) (kind : KindValue) (block : BlockStateValue) (place : ℕ)
        → sound.IsSoundDatabase database → Contains (database_words.blocks_of database kind) block
        → place < length block.points → state_at database kind (block.base + place) ≡ slice_get block.points place }
{}

/// A reading in range can be written as a present value of its kind, whatever variation was asked for: 1.2,
/// 20.1 or 30.1. So can the reading of each point of a sound database.
pub fn readings_fit_their_static_objects()
    ensures carried { (kind : KindValue) (asked index : ℕ) (reading : ReadingValue)
        → is_carried kind reading ≡ true
        → let object = sound.static_object kind asked in Fits object.0 object.1 (row_of kind index reading) }
    ensures kept { (database : Database) (kind : KindValue) (asked index : ℕ) → sound.IsSoundDatabase database
        → let object = sound.static_object kind asked in IfSome (state_at database kind index)
        (λ state. Fits object.0 object.1 (row_of kind index state.reading)) }
{}

/// The row that a change makes can be written as an event, and is of its lane's kind: an event lane
/// takes it.
pub fn a_change_makes_what_its_lane_takes()
    ensures { (database : Database) (kind : KindValue) (index : ℕ) (reading : ReadingValue)
        → IfOk (answer_of database kind index reading)
        (λ made. IfSome made (λ x. (x.row.kind ≡ x.lane.kind) × IsEvent x.row)) }
{}

/// An order of blocks finds each index: where it stands in the extent of a place, that is the place that has it, and
/// where it stands after the last place that begins up to it, or before all, no block has it.
pub fn an_order_finds_each_index()
    ensures found { (es : List Extent) (order : List PlaceValue) (index m : ℕ) (d : PlaceValue) → IsOrder es order → m < length order
        → (slice_index_or order m d).first ≤ index → index < (slice_index_or order m d).first + (slice_index_or order m d).count
        → place_in es index ≡ Some ((slice_index_or order m d).block, index - (slice_index_or order m d).first) }
    ensures behind { (es : List Extent) (order : List PlaceValue) (index n m : ℕ) (d : PlaceValue) → IsOrder es order → n ≡ m + 1 → n ≤ length order
        → ((k : ℕ) → n ≤ k → k < length order → index < (slice_index_or order k d).first)
        → (slice_index_or order m d).first ≤ index → (slice_index_or order m d).first + (slice_index_or order m d).count ≤ index
        → place_in es index ≡ None }
    ensures before { (es : List Extent) (order : List PlaceValue) (index : ℕ) (d : PlaceValue) → IsOrder es order
        → ((k : ℕ) → k < length order → index < (slice_index_or order k d).first) → place_in es index ≡ None }
{}

/// The named limits are these numbers: a block of points is the library's own measure, and indices have two octets
/// (IEEE Std 1815-2012, object library: point indices).
pub fn limits_have_their_values()
    ensures points { limits.MAX_POINTS ≡ 1024 }
    ensures indices { limits.INDICES ≡ 65536 }
{}
