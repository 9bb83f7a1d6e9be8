//! Rows, from wherever they come, that are put into a fragment one after another.
ghost use Rattle.std.specs.Prelude.{◌≡◌, ◌<◌, List, length, slice_index_or};

use dnp_objects::Row;

/// Rows, in order.
pub trait RowSource {
    ghost use Rattle.dnp_objects.specs.declared.row.Row.{Row};

    /// The rows.
    ghost rows: { Self → List Row };

    /// How many there are.
    fn len(&self) -> usize
        ensures { result ≡ length (rows self.now) };

    /// The row at this place.
    fn row(&self, place: usize) -> Row
        requires { place < length (rows self.now) }
        ensures { result ≡ slice_index_or (rows self.now) place result };
}
