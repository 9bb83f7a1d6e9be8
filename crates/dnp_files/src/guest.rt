//! A centre that has connected, and what is said of it.

ghost use Rattle.std.specs.Prelude.{◌<◌};

use crate::lines::{Line, News, OfCentre};
use dnp_concentrator::Concentrator;
use dnp_controls::Book;
use dnp_eventbuf::{CENTRES, PairLanes};
use dnp_notices::{Ends, Strange, StrangeLine, news_of};
use dnp_streams::{Above, StepRoom};
use dnp_tcp::{Caller, End, Ending, Leave, Parting, Span, StandingConnection, note, say};
use dnp_terminal::Terminal;
use std::alloc::Global;
use std::net::SocketAddr;
use std::rt::Clock;

/// Says on standard error what happened to the connection of a centre.
pub(crate) fn tell<R: Eprint + Terminal + Clock>(
    rt: &R,
    peer: SocketAddr,
    centre: u8,
    news: News<'_>,
) {
    note(rt, peer, &OfCentre { centre, news });
}

/// What became of a turn.
#[derive(Clone, Copy, PartialEq, Eq)]
pub(crate) enum Turned {
    /// The connection stands, and so many fragments came whole.
    Stands(u64),
    /// The connection has ended, and the station is hung up.
    Ended,
    /// A store or memory failed.
    Lost,
}

/// A centre that has connected.
#[derive(Drop)]
pub(crate) struct Guest {
    /// Its connection.
    connection: StandingConnection,
    /// What came last beside what the station takes, as it was said.
    strange: Option<Strange>,
}

impl Guest {
    /// A centre has connected whose frames have these link addresses, at this moment.
    pub(crate) fn new(alloc: Global, caller: Caller, taken: Ends, now: u64) -> Guest {
        Guest {
            connection: StandingConnection::new(alloc, caller, taken, now),
            strange: None,
        }
    }

    /// Says in the log which frames came that the station doesn't take, where that is new; that no frame came at all is known as the
    /// connection ends.
    fn tell_strange<R: Eprint + Terminal + Clock>(&mut self, rt: &R, centre: u8, ends: bool) {
        let now = self.connection.heard().strange();
        if matches!(now, Some(Strange::Noise)) && !ends {
            return;
        }
        if let Some(strange) = news_of(self.strange, now) {
            let taken = self.connection.taken();
            let news = News::Strange(StrangeLine { strange, taken });
            tell(rt, self.connection.peer(), centre, news);
        }
        self.strange = now;
    }

    /// Whether nothing whole came of it for so long before this moment, in milliseconds.
    pub(crate) fn is_idle(&self, now: u64, idle_ms: u64) -> bool {
        now.saturating_sub(self.connection.whole()) >= idle_ms
    }

    /// Says in the log that the connection has ended, and how.
    pub(crate) fn tell_end<R: Eprint + Terminal + Clock>(
        &mut self,
        rt: &R,
        centre: u8,
        how: Ending<'_>,
    ) {
        self.tell_strange(rt, centre, true);
        let fragments = self.connection.fragments();
        let news = News::Ended(End { fragments, how });
        tell(rt, self.connection.peer(), centre, news);
    }

    /// Serves it for a turn. If the connection ends in it, the station is hung up, and that is said in the log.
    pub(crate) fn serve<Q: PairLanes, B: Book, R: AllocGlobal + Eprint + Terminal + Clock>(
        &mut self,
        rt: &R,
        room: &mut StepRoom,
        concentrator: &mut Concentrator<Q, B>,
        centre: u8,
        span: Span,
    ) -> Turned
        requires { centre < CENTRES }
    {
        let before = self.connection.fragments();
        let mut above = Above::new(concentrator, centre);
        let turned = self.connection.serve(rt, room, &mut above, span);
        match turned {
            Ok(()) => {
                self.tell_strange(rt, centre, false);
                Turned::Stands(self.connection.fragments().saturating_sub(before))
            }
            Err(parting) => {
                concentrator.hung_up_above(centre);
                self.tell_parting(rt, centre, &parting)
            }
        }
    }

    /// Says in the log why the connection isn't served any longer, and tells what became of the turn.
    fn tell_parting<R: Eprint + Terminal + Clock>(
        &mut self,
        rt: &R,
        centre: u8,
        parting: &Parting,
    ) -> Turned {
        match parting {
            Parting::Left(leave) => {
                self.tell_end(rt, centre, leave.ending(0));
                match leave {
                    Leave::Memory => Turned::Lost,
                    _ => Turned::Ended,
                }
            }
            Parting::Refused(cause) => {
                self.tell_strange(rt, centre, false);
                say(rt, &Line::Failed(*cause));
                Turned::Lost
            }
        }
    }
}
