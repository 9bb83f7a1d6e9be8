//! Laws of the words of `specs/`: each function does nothing, and its contract is a law.
ghost use Rattle.std.specs.Prelude.{◌≡◌, ◌≤◌, ◌<◌, ◌+◌, ◌-◌, ◌^◌, ◌↔◌, ℕ, Bool, List, [], ◌∷◌, ◌++◌, Some, IsSome, IfSome};
ghost use Rattle.std.specs.Prelude.{nat_eq, map, filter, length, drop, All, Contains};
ghost use Rattle.byteorder.specs.Endian.{little_number};
ghost use Rattle.std.specs.Option.{option_map, option_and_then};
ghost use Rattle.std.specs.List.Sorted.{IsPermutation};
ghost use Rattle.dnp_objects.specs.Counts.{count, IsCoveredBy, HasNoRepeat, IsEqualityTest};
ghost use Rattle.dnp_objects.specs.Equality.{row_eq, command_eq, pair_eq};
ghost use Rattle.dnp_objects.specs.Objects.{content_of, content_size, object_size, shape_read, shape_size, shape_written, HasNoRow, IsContent};
ghost use Rattle.dnp_objects.specs.Parts.{row_of, command_of};
ghost use Rattle.dnp_objects.specs.Rows.{Fits, Reads, Writes, carried, written};
ghost use Rattle.dnp_objects.specs.Events.{IsEvent};
ghost use Rattle.dnp_objects.specs.Relative.{FitsRelative, IsRelative, relative_octets, relative_row};
ghost use Rattle.dnp_objects.specs.Commands.{ReadsCommand, IsInRange, carrier, object_of, index_of, command_octets};
ghost use Rattle.dnp_objects.specs.Lanes.{IsLane, lane_number};
ghost use Rattle.dnp_objects.specs.declared.row.Row.{Row};
ghost use Rattle.dnp_objects.specs.declared.command.Command.{Command};
ghost use Rattle.dnp_objects.specs.declared.lane.Lane.{Lane};
ghost use Rattle.dnp_objects.specs.declared.flags.TheConstants as flags;
ghost use Rattle.dnp_objects.specs.declared.limits.TheConstants as limits;

/// The tests of equality of numbers (as of a substation), rows, commands and pairs answer
/// whether two values are the same.
pub fn equality_is_decided<T, U>()
    ensures numbers { IsEqualityTest nat_eq }
    ensures rows { IsEqualityTest row_eq }
    ensures commands { IsEqualityTest command_eq }
    ensures pairs { (first : T → T → Bool) (second : U → U → Bool)
        → IsEqualityTest first → IsEqualityTest second → IsEqualityTest (pair_eq first second) }
{}

/// A thing stands in two joined lists as often as in both together.
pub fn count_of_joined<T>()
    ensures { (equal : T → T → Bool) (x : T) (xs ys : List T)
        → count equal x (xs ++ ys) ≡ count equal x xs + count equal x ys }
{}

/// A list is covered by another exactly if nothing stands in it more often than in the other.
pub fn covered_is_by_counts<T>()
    ensures { (equal : T → T → Bool) → IsEqualityTest equal → (xs ys : List T)
        → IsCoveredBy xs ys ↔ ((x : T) → count equal x xs ≤ count equal x ys) }
{}

/// Each list is covered by itself, and by what covers a list that covers it.
pub fn covered_is_an_order<T>()
    ensures reflexive { (xs : List T) → IsCoveredBy xs xs }
    ensures transitive { (xs ys zs : List T) → IsCoveredBy xs ys → IsCoveredBy ys zs → IsCoveredBy xs zs }
{}

/// A covered list stays covered where both lists get the same member or the same list, or each
/// a list, the one covered by the other.
pub fn covered_is_kept<T>()
    ensures same_member { (x : T) (xs ys : List T) → IsCoveredBy xs ys → IsCoveredBy (x ∷ xs) (x ∷ ys) }
    ensures same_list_behind { (zs xs ys : List T) → IsCoveredBy xs ys → IsCoveredBy (xs ++ zs) (ys ++ zs) }
    ensures same_list_in_front { (zs xs ys : List T) → IsCoveredBy xs ys → IsCoveredBy (zs ++ xs) (zs ++ ys) }
    ensures two_lists { (xs ys us vs : List T)
        → IsCoveredBy xs ys → IsCoveredBy us vs → IsCoveredBy (xs ++ us) (ys ++ vs) }
{}

/// A covered list stays covered where one function maps the members of both.
pub fn covered_is_kept_by_map<T, U>()
    ensures { (f : T → U) (xs ys : List T) → IsCoveredBy xs ys → IsCoveredBy (map f xs) (map f ys) }
{}

/// A list is covered by itself with more in front of it or after it, and by itself in another
/// order; what a test keeps of a list is covered by the list.
pub fn parts_are_covered<T>()
    ensures front { (xs ys : List T) → IsCoveredBy xs (xs ++ ys) }
    ensures back { (xs ys : List T) → IsCoveredBy ys (xs ++ ys) }
    ensures reordered { (xs ys : List T) → IsPermutation xs ys → IsCoveredBy xs ys }
    ensures kept { (test : T → Bool) (xs : List T) → IsCoveredBy (filter test xs) xs }
{}

/// The pigeonhole law: a list in which no member stands twice is covered by each list in which
/// all its members stand.
pub fn members_are_covered<T>()
    ensures { (xs ys : List T) → HasNoRepeat xs → All (Contains ys) xs → IsCoveredBy xs ys }
{}

/// The objects that carry rows: none of group 12, of a group from 40 on, and not 1.1, nor anything
/// that the library lacks. What is read as a row is written as one too.
pub fn rows_have_their_objects()
    ensures no_rows { (group variation : ℕ) → HasNoRow group variation
        → shape_written group variation ≡ None }
    ensures unlisted { (group variation : ℕ) → content_of group variation ≡ None
        → shape_written group variation ≡ None }
    ensures written { (group variation : ℕ)
        → IfSome (shape_read group variation) (λ shape. shape_written group variation ≡ Some shape) }
{}

/// What an object carries has the widths of its kind: a binary flags and no octets of value, any other
/// value 2 or 4. No object of rows has more than 11 octets.
pub fn objects_have_their_widths()
    ensures { (group variation : ℕ) → IfSome (content_of group variation) IsContent }
{}

/// Octets of an object's size are read as the row that their parts make, and as no other.
#[inline(always)]
pub fn octets_are_read_as_one_row()
    ensures read { (group variation index : ℕ) (octets : List ℕ) → All (λ octet. octet < 2 ^ 8) octets
        → IfSome (shape_read group variation) (λ shape. length octets ≡ shape_size shape
        → Reads group variation index octets (row_of shape index octets)) }
    ensures only { (group variation index : ℕ) (octets : List ℕ) (row : Row) → Reads group variation index octets row
        → option_map (λ shape. row_of shape index octets) (shape_read group variation) ≡ Some row }
{}

/// Octets of an object's size are read as the command, with its status, that their parts make, and as
/// no other.
#[inline(always)]
pub fn octets_are_read_as_one_command()
    ensures read { (group variation index : ℕ) (octets : List ℕ) → All (λ octet. octet < 2 ^ 8) octets
        → IfSome (content_of group variation) (λ content. length octets ≡ content_size content
        → IfSome (command_of content index octets) (ReadsCommand group variation index octets)) }
    ensures only { (group variation index : ℕ) (octets : List ℕ) (answer : Command × ℕ)
        → ReadsCommand group variation index octets answer
        → option_and_then (λ content. command_of content index octets) (content_of group variation) ≡ Some answer }
{}

/// A row that can be written as an object fills it.
#[inline(always)]
pub fn a_written_row_fills_its_object()
    ensures { (group variation : ℕ) (row : Row) → Fits group variation row
        → object_size group variation ≡ Some (length (written group variation row)) }
{}

/// A row that was written is read as the same row, without a time that the object lacks. What is
/// written and never read is binary output status, 10.2, alone.
pub fn a_written_row_is_read()
    ensures read { (group variation : ℕ) (row : Row) (octets : List ℕ) → Writes group variation row octets
        → IfSome (shape_read group variation)
        (λ shape. Reads group variation row.index octets (carried shape row)) }
    ensures written_only { (group variation : ℕ) → IsSome (shape_written group variation)
        → shape_read group variation ≡ None → (group ≡ 10) × (variation ≡ 2) }
{}

/// Octets that are read as a row are those that the row is written as.
pub fn a_read_row_is_written()
    ensures { (group variation index : ℕ) (octets : List ℕ) (row : Row)
        → Reads group variation index octets row → Writes group variation row octets }
{}

/// A row that was read, from whichever object, is one that an event object of its kind carries: its
/// value and its flags fit there, and its time, if it has one.
pub fn a_read_row_is_an_event()
    ensures { (group variation index : ℕ) (octets : List ℕ) (row : Row)
        → Reads group variation index octets row → IsEvent row }
{}

/// A command that was written is read as the same command with the same status, from the one object
/// that carries it.
pub fn a_written_command_is_read()
    ensures read { (command : Command) (status : ℕ) → IsInRange command → status < 128
        → ReadsCommand (object_of command).0 (object_of command).1 (index_of command)
        (command_octets command status) (command, status) }
    ensures one_object { (group variation : ℕ) (command : Command)
        → content_of group variation ≡ Some (carrier command) → object_of command ≡ (group, variation) }
{}

/// The named flags are these bits of the octet.
pub fn flags_have_their_bits()
    ensures all { (flags.ONLINE ∷ flags.RESTART ∷ flags.COMM_LOST ∷ flags.REMOTE_FORCED ∷ flags.LOCAL_FORCED ∷ [])
        ≡ map (λ bit. 2 ^ bit) (0 ∷ 1 ∷ 2 ∷ 3 ∷ 4 ∷ []) }
    ensures binary { (flags.CHATTER_FILTER ∷ flags.STATE ∷ []) ≡ map (λ bit. 2 ^ bit) (5 ∷ 7 ∷ []) }
    ensures analog { (flags.OVER_RANGE ∷ flags.REFERENCE_ERR ∷ []) ≡ map (λ bit. 2 ^ bit) (5 ∷ 6 ∷ []) }
{}

/// The named limits are these numbers.
pub fn limits_have_their_values()
    ensures fragment { limits.MAX_FRAGMENT ≡ 2048 }
    ensures time { limits.MAX_TIME ≡ 2 ^ 48 }
    ensures relative { limits.MAX_RELATIVE ≡ 2 ^ 16 - 1 }
    ensures lanes { (limits.KINDS ∷ limits.CLASSES ∷ limits.LANES ∷ []) ≡ 3 ∷ 3 ∷ 9 ∷ [] }
    ensures id { limits.MAX_ID ≡ 2 ^ 62 }
{}

/// Two lanes of one number are of one class and one kind.
pub fn a_number_is_of_one_lane()
    ensures { (a b : Lane) → lane_number a ≡ lane_number b → IsLane a b.class b.kind }
{}

/// A row that was written after a common time is read as itself, and octets that are read so are those that
/// the row is written as. Three octets are read as the row of their parts, where its time is under 2^48 ms, and
/// as no other.
pub fn a_relative_row_is_read()
    ensures read { (common : ℕ) (row : Row) → FitsRelative common row
        → relative_row row.index (relative_octets common row) common ≡ row }
    ensures written { (index common : ℕ) (octets : List ℕ) (row : Row) → IsRelative index octets common row
        → octets ≡ relative_octets common row }
    ensures parts { (index common : ℕ) (octets : List ℕ) → All (λ octet. octet < 2 ^ 8) octets → length octets ≡ 3
        → common + little_number 2 (drop 1 octets) < limits.MAX_TIME → IsRelative index octets common (relative_row index octets common) }
    ensures only { (index common : ℕ) (octets : List ℕ) (row : Row) → IsRelative index octets common row
        → relative_row index octets common ≡ row }
    ensures low { (common : ℕ) (row : Row) → FitsRelative common row
        → common + little_number 2 (drop 1 (relative_octets common row)) < limits.MAX_TIME }
{}
