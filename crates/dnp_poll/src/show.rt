//! What takes the rows of answers.

ghost use Rattle.std.specs.Prelude.{OnOk};

use crate::rows::ShownRow;

/// Rows could not be shown.
#[derive(Clone, Copy, Debug, PartialEq, Eq)]
pub struct NotShown;

/// What shows the rows of answers, as on a screen or in a file.
pub trait Show {
    ghost use Rattle.std.specs.Prelude.{List};
    ghost use Rattle.dnp_poll.specs.declared.rows.ShownRow.{ShownRow};

    /// Showing these rows, in this order, makes the second of the first.
    ghost shows: { Self → List ShownRow → Self → Type 0 };

    /// Shows the rows of a fragment, all of them and in order. Only once they are shown may the fragment be confirmed, so
    /// they are to be where they can't be lost as the call ends.
    fn show(&mut self, rows: &[ShownRow]) -> Result<(), NotShown>
        ensures { OnOk result (shows self.old rows.now self.new) };
}
