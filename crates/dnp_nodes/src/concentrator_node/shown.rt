//! What a concentrator's node shows of its stores. It lends none of them: its calls alone change them.

ghost use Rattle.std.specs.Prelude.{◌≡◌, ◌<◌, length, IfOk, OnOk};
ghost use Rattle.dnp_concentrator.specs.Concentrator.{book_of, queue_of, with_other_book};
ghost use Rattle.dnp_controls.specs.Book.{rows_of};
ghost use Rattle.dnp_eventbuf.specs.EventBuffer.{lane_at};
ghost use Rattle.dnp_objects.specs.Lanes.{lane_number};
ghost use Rattle.dnp_nodes.specs.ConcentratorNodes.{concentrator_in, with_concentrator};

use crate::concentrator_node::ConcentratorNode;
use dnp_controls::{Book, BookFault, Entry};
use dnp_eventbuf::{CENTRES, PairLanes};
use dnp_objects::Lane;
use std::alloc::Global;

impl<Q: PairLanes, B> ConcentratorNode<Q, B> {
    /// Gives how many events wait in a lane for a centre.
    pub fn waiting(&mut self, centre: u8, lane: Lane) -> u32
        requires { centre < CENTRES }
        ensures same { self.new ≡ self.old }
        ensures value { Q.honest (queue_of (concentrator_in self.new)) → result ≡ length (lane_at (Q.contents (queue_of (concentrator_in self.new)) centre) (lane_number lane)).rows }
    {
        self.concentrator.queue().len(centre, lane)
    }

    /// Gives how many events a lane has dropped for a centre.
    pub fn dropped(&mut self, centre: u8, lane: Lane) -> u64
        requires { centre < CENTRES }
        ensures same { self.new ≡ self.old }
        ensures value { Q.honest (queue_of (concentrator_in self.new)) → result ≡ (lane_at (Q.contents (queue_of (concentrator_in self.new)) centre) (lane_number lane)).lost }
    {
        self.concentrator.queue().lost(centre, lane)
    }

    /// Says whether a lane has dropped events for a centre, and one is full still.
    pub fn is_dropping(&mut self, centre: u8) -> bool
        requires { centre < CENTRES }
        ensures same { self.new ≡ self.old }
    {
        self.concentrator.queue().raised(centre)
    }
}

impl<Q, B: Book> ConcentratorNode<Q, B> {
    /// Gives at most `most` controls of the book with ids over `from`.
    ///
    /// # Errors
    /// The book's.
    pub fn controls(
        &mut self,
        alloc: Global,
        from: u64,
        most: usize,
    ) -> Result<Vec<Entry>, BookFault>
        ensures rows { B.honest (book_of (concentrator_in self.new)) → IfOk result (λ rows. rows.items ≡ rows_of (B.contents (book_of (concentrator_in self.old))).entries from most) }
        ensures same { B.honest (book_of (concentrator_in self.new)) → OnOk result (B.contents (book_of (concentrator_in self.new)) ≡ B.contents (book_of (concentrator_in self.old))) }
        ensures else_same { self.new ≡ with_concentrator self.old (with_other_book (concentrator_in self.old) (book_of (concentrator_in self.new))) }
    {
        self.concentrator.book().rows(alloc, from, most)
    }
}
