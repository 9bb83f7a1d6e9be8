//! The answer to a DELAY_MEASURE.

ghost use Rattle.std.specs.Prelude.{◌≡◌};
ghost use Rattle.dnp_outstation.specs.Items.{first_place};
ghost use Rattle.dnp_outstation.specs.steps.Filling.{empty_from};
ghost use Rattle.dnp_outstation.specs.Content.{no_delay};
ghost use Rattle.dnp_appfragment.specs.Built.{with_header};

use crate::offer::writer::Writer;
use dnp_appfragment::{Header, Range};

impl Writer {
    /// Puts into an empty fragment that no delay was measured.
    pub(crate) fn put_delay(&mut self)
        requires { self.old ≡ empty_from first_place }
        ensures { self.new ≡ record self.old { builder = with_header self.old.builder no_delay } }
    {
        let range = Range::Count { wide: false, n: 1 };
        let no_delay = Header::new(52, 2, range, &[0, 0]);
        let _put = self.builder.header(&no_delay);
    }
}
