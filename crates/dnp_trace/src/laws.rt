//! What holds of all that is noted.
ghost use Rattle.std.specs.Prelude.{◌≡◌, ℕ, List, Option, false};
ghost use Rattle.dnp_trace.specs.declared.noted.Course.{Course as CourseValue};
ghost use Rattle.dnp_trace.specs.declared.noted.What.{What as WhatValue};
ghost use Rattle.dnp_trace.specs.Logs.{Noted, nothing_yet, later, begun, came_to, stood, carried_on, settled};
ghost use Rattle.dnp_trace.specs.Accounts.{Accounts, is_sending};

/// Each unit was sent once, and it stands on its line or has come to one end: nothing that is noted changes that. (The
/// front unit of a line comes to anything but to being sent.)
pub fn each_unit_has_one_end()
    ensures new { (substations : ℕ) → Accounts (nothing_yet substations) }
    ensures pass { (ms : ℕ) (log : Noted) → Accounts log → Accounts (later ms log) }
    ensures line { (text : List ℕ) (log : Noted) → Accounts log → Accounts (begun text log) }
    ensures front { (line : ℕ) (fate : WhatValue) (log : Noted) → is_sending fate ≡ false → Accounts log → Accounts (came_to line fate log) }
    ensures stands { (course : CourseValue) (count : ℕ) (front : Option (List ℕ)) (log : Noted) → Accounts log → Accounts (stood course count front log) }
    ensures carried { (course : CourseValue) (octets : List ℕ) (log : Noted) → Accounts log → Accounts (carried_on course octets log) }
    ensures settled { (log : Noted) → Accounts log → Accounts (settled log) }
{}
