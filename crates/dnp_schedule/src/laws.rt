//! Laws of schedules. These functions do nothing when they run.

ghost use Rattle.dnp_schedule.specs.Laws.{NothingIsSleptThrough, WhatWakesIsDue, NoPollRepeatsTheLast, AControlIsNotDisturbed, AStartEnds};

/// If nothing is due at a moment, nothing is before the deadline.
pub fn nothing_is_slept_through()
    ensures { NothingIsSleptThrough }
{}

/// A link that runs and awaits nothing has something due at its deadline: no loop wakes for nothing.
pub fn what_wakes_is_due()
    ensures { WhatWakesIsDue }
{}

/// No poll has the octets of the connection's last request.
pub fn no_poll_repeats_the_last()
    ensures { NoPollRepeatsTheLast }
{}

/// While a control is in progress nothing else is asked, so its select holds.
pub fn a_control_is_not_disturbed()
    ensures { AControlIsNotDisturbed }
{}

/// Each request of a start leaves fewer, and the last one leaves a link that runs.
pub fn a_start_ends()
    ensures { AStartEnds }
{}
