//! The laws: functions that do nothing, whose contracts are the laws.

ghost use Rattle.std.specs.Prelude.{◌++◌, List};
ghost use Rattle.booking_rule.specs.declared.noted.Noted.{Noted};
ghost use Rattle.booking_rule.specs.Looks.{HasLook};
ghost use Rattle.booking_table.specs.declared.seen.Seen.{Seen};
ghost use Rattle.booking_table.specs.Calls.{look_by};

/// A trail that has a look still has it after more steps.
pub fn looks_stay_in_the_trail()
    ensures { (ns ms : List Noted) (seen : Seen) → HasLook ns (look_by seen) → HasLook (ns ++ ms) (look_by seen) }
{}
