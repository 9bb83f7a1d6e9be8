//! What holds of every poll: each law is the contract of a function that does nothing.

ghost use Rattle.dnp_poll.specs.Selecting.{DirectsAlone, DirectsOnce, OperatesOnce, StandsBySuccess, StaysSpent};

use crate::show::Show;

/// A command is carried out once at most for each select of it that was answered SUCCESS: an OPERATE is asked only while
/// its own command stands selected, nothing stands selected once it was asked, and of all that comes only the answer
/// SUCCESS to the select of a command makes that command stand selected.
pub fn an_operate_follows_its_select<S: Show>()
    ensures operates { OperatesOnce S }
    ensures stands { StandsBySuccess S.shows }
{
    // (a law, for the proof: it does nothing)
    dnp_master::laws::an_operate_follows_its_select();
}

/// A command is sent by DIRECT_OPERATE once at most: only while none was sent, and once one was, that stays so, whatever is
/// asked, comes, or passes, and on a further connection too. No OPERATE is asked beside it.
pub fn a_direct_operate_is_sent_once<S: Show>()
    ensures once { DirectsOnce S }
    ensures alone { DirectsAlone S }
    ensures stays { StaysSpent S.shows }
{
    // (a law, for the proof: it does nothing)
}
