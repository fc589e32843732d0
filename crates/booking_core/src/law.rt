//! The laws over every list of steps.

ghost use Rattle.std.specs.Prelude.{◌<◌, ◌^◌, ◌≡◌, List, ℕ};
ghost use mathlib.Core.Option.{some};
ghost use lib.ListN.{get_elem?};
ghost use Rattle.atomic_table.specs.Table.{State};
ghost use Rattle.booking_rule.specs.declared.view.View.{View};
ghost use Rattle.booking_rule.specs.Kept.{Holds};
ghost use Rattle.booking_core.specs.Kinds.{Kind, place, wrote};
ghost use Rattle.booking_core.specs.Machine.{Asks, Move, RecordsNothing, Runs, word};

/// What holds of a table between any two steps holds after any list of claimants' steps, where it held before.
pub fn steps_keep_the_rule()
    ensures { (ms : List Move) (s t : State (Unit {0}) View) → Holds s → Runs s ms t → Holds t }
{}

/// No claimant's step records an entry: after any list of them each seat is still there, and the recorder's has the same journal,
/// from the same opening farm.
pub fn steps_record_nothing()
    ensures { (ms : List Move) (s t : State (Unit {0}) View) → Holds s → Runs s ms t
        → (id : ℕ) (v : View) → get_elem? s.views id ≡ some v
        → (w : View) × (get_elem? t.views id ≡ some w) × RecordsNothing v w }
{}

/// What a step writes is a word of 64 bits, where the one that it found is: no sum carries and none borrows.
pub fn steps_write_whole_words()
    ensures { (s : State (Unit {0}) View) (id : ℕ) (v : View) (k : Kind) → Holds s → get_elem? s.views id ≡ some v → Asks s id v k
        → word s (place k) < 2 ^ 64 → wrote k (word s (place k)) < 2 ^ 64 }
{}
