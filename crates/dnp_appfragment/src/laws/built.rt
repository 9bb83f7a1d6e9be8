//! Laws of what is built: the objects put are those that the finished fragment holds, in order.
ghost use Rattle.std.specs.Prelude.{◌≡◌, ◌≢◌, ◌<◌, ◌^◌, ℕ, false, List, [], ◌∷◌, ◌++◌, slice_get, Some, None, IsSome};
ghost use Rattle.dnp_objects.specs.Commands.{IsInRange, index_of};
ghost use Rattle.dnp_objects.specs.Events.{IsEvent};
ghost use Rattle.dnp_objects.specs.Objects.{object_size};
ghost use Rattle.dnp_objects.specs.Relative.{FitsRelative};
ghost use Rattle.dnp_objects.specs.declared.limits.TheConstants.{MAX_TIME};
ghost use Rattle.dnp_objects.specs.declared.row.Row.{Row};
ghost use Rattle.dnp_objects.specs.declared.command.Command.{Command};
ghost use Rattle.dnp_appfragment.specs.declared.table.Form.TheVariants as form;
ghost use Rattle.dnp_appfragment.specs.Headers.{Head, Context, IsHeaderAt, IsTimed, AreHeaders, begin, is_common};
ghost use Rattle.dnp_appfragment.specs.Objects.{IsRow, IsCommand};
ghost use Rattle.dnp_appfragment.specs.Built.{Built, heads, context_of, broken, with_header, with_object};
ghost use Rattle.dnp_appfragment.specs.Written.{FitsPoint, event, point, order, common_head, relative};
ghost use Rattle.dnp_appfragment.specs.Items.{Item, Holds, HoldAll, event_item, relative_item, point_item, command_item};

use dnp_objects::laws::{
    a_relative_row_is_read, a_written_command_is_read, a_written_row_fills_its_object,
};

/// A row or a command that is put is one object, as a header of its own.
pub fn a_header_holds_what_was_put()
    ensures event { (row : Row) → IsEvent row → row.index < 2 ^ 16 → Holds (event row) (event_item row ∷ []) }
    ensures relative { (common : ℕ) (row : Row) → row.index < 2 ^ 16
        → Holds (relative common row) (relative_item common row ∷ []) }
    ensures point { (group variation : ℕ) (row : Row) → FitsPoint group variation row
        → Holds (point group variation row) (point_item group variation row ∷ []) }
    ensures order { (command : Command) (status : ℕ) → index_of command < 2 ^ 16
        → Holds (order command status) (command_item command status ∷ []) }
{
    a_written_row_fills_its_object();
}

/// What a call puts comes after the objects that were put before, whether it
/// joined a header or not; and a common time, or ending a run, changes no object.
pub fn what_is_put_is_held()
    ensures object { (built : Built) (object : Head) (item : Item) (items : List Item) → Holds object (item ∷ [])
        → HoldAll (heads built) items → HoldAll (heads (with_object built object)) (items ++ item ∷ []) }
    ensures header { (built : Built) (header : Head) (own items : List Item) → Holds header own
        → HoldAll (heads built) items → HoldAll (heads (with_header built header)) (items ++ own) }
    ensures common { (built : Built) (time : ℕ) (items : List Item) → HoldAll (heads built) items
        → HoldAll (heads (with_header built (common_head time))) items }
    ensures broken { (built : Built) → heads (broken built) ≡ heads built }
{}

/// A common time that is put is the one for rows after it, whatever else is put, up to the next header of common times;
/// in a fragment of which nothing is put there is none.
pub fn a_common_time_stays()
    ensures none { (built : Built) → heads built ≡ [] → context_of built ≡ None }
    ensures put { (built : Built) (time : ℕ) → time < MAX_TIME → context_of (with_header built (common_head time)) ≡ Some time }
    ensures object { (built : Built) (object : Head) → is_common object ≡ false
        → context_of (with_object built object) ≡ context_of built }
    ensures header { (built : Built) (header : Head) → is_common header ≡ false
        → context_of (with_header built header) ≡ context_of built }
    ensures broken { (built : Built) → context_of (broken built) ≡ context_of built }
{}

/// A row that is put is a header of the table for responses, of an object whose size is known, and so is a common time, and
/// after it a row whose time is given after it; and an object with such a header stands there after what was put before,
/// whether it joins a header or not, and so does a header that none joins.
pub fn what_is_put_stands_in_a_response()
    ensures event { (row : Row) → IsEvent row
        → ((context : Context) → IsHeaderAt form.Response context (event row)) × IsSome (object_size (event row).group (event row).variation) }
    ensures point { (group variation : ℕ) (row : Row) → FitsPoint group variation row → row.index < 2 ^ 16
        → ((context : Context) → IsHeaderAt form.Response context (point group variation row)) × IsSome (object_size group variation) }
    ensures common { (context : Context) (time : ℕ) → IsHeaderAt form.Response context (common_head time) }
    ensures relative { (common : ℕ) (row : Row) → FitsRelative common row
        → IsHeaderAt form.Response (Some common) (relative common row) × IsSome (object_size 2 3) }
    ensures object { (built : Built) (object : Head) → IsHeaderAt form.Response (context_of built) object
        → IsSome (object_size object.group object.variation) → AreHeaders form.Response begin (heads built)
        → AreHeaders form.Response begin (heads (with_object built object)) }
    ensures header { (built : Built) (header : Head) → IsHeaderAt form.Response (context_of built) header
        → AreHeaders form.Response begin (heads built) → AreHeaders form.Response begin (heads (with_header built header)) }
{
    a_written_row_fills_its_object();
    a_relative_row_is_read();
}

/// Object k of a header is read as the row or the command that was put: an event as the row itself, and so is one after
/// the common time of its header, a present value as the row without its time. Binary output status, group 10, is not read as a
/// row.
pub fn what_is_held_is_read()
    ensures event { (header : Head) (items : List Item) (k : ℕ) (row : Row) → Holds header items → IsEvent row
        → slice_get items k ≡ Some (event_item row) → IsRow header k row }
    ensures relative { (header : Head) (items : List Item) (k common : ℕ) (row : Row) → Holds header items
        → IsTimed header → header.common ≡ Some common → FitsRelative common row
        → slice_get items k ≡ Some (relative_item common row) → IsRow header k row }
    ensures point { (header : Head) (items : List Item) (k group variation : ℕ) (row : Row) → Holds header items
        → FitsPoint group variation row → group ≢ 10 → slice_get items k ≡ Some (point_item group variation row)
        → IsRow header k (record row { time = None }) }
    ensures command { (header : Head) (items : List Item) (k : ℕ) (command : Command) (status : ℕ) → Holds header items
        → IsInRange command → status < 128 → slice_get items k ≡ Some (command_item command status)
        → IsCommand header k (command, status) }
{
    a_written_command_is_read();
}
