//! The laws over every list of steps, of claimants and of the recorder's seat.

ghost use Rattle.std.specs.Prelude.{◌++◌, ◌<◌, ◌^◌, ◌≡◌, ◌≢◌, false, List, None, Some, [], ◌∷◌, ℕ};
ghost use mathlib.Core.Option.{some};
ghost use lib.ListN.{get_elem?};
ghost use Rattle.atomic_table.specs.Table.{State};
ghost use Rattle.booking_core.specs.Machine.{word};
ghost use Rattle.booking_rule.specs.declared.desk.Desk.{Desk};
ghost use Rattle.booking_rule.specs.declared.hold.Claim.{Claim};
ghost use Rattle.booking_rule.specs.declared.view.View.{View};
ghost use Rattle.booking_rule.specs.Kept.{Holds};
ghost use Rattle.booking_rule.specs.Rule.{is_booked};
ghost use Rattle.farm_types.specs.declared.entry.Entry.{Entry};
ghost use Rattle.recording_core.specs.Machine.{Asks, HasRecorded, IsBooking, MayRecord, Move, Runs, stand_now, stand_recorded};
ghost use Rattle.recording_core.specs.Records.{RecorderKind, knows, place, wrote};
ghost use Rattle.recording_core.specs.Records.RecorderKind.{books};

/// What holds of a table between any two steps holds after any list of claimants' and recorder's steps, where it held before.
pub fn steps_keep_the_rule()
    ensures { (ms : List Move) (s t : State (Unit {0}) View) → Holds s → Runs s ms t → Holds t }
{}

/// After any list of steps the recorder's seat is still there; its journal is the one before and then the entries of its steps that
/// record one, and all of it is legal. It starts from the same farm, unless a step opened another.
pub fn steps_record_entries()
    ensures { (ms : List Move) (s t : State (Unit {0}) View) → Holds s → Runs s ms t
        → (id : ℕ) (v : View) (d : Desk) → get_elem? s.views id ≡ some v → v.desk ≡ Some d
        → (w : View) × (get_elem? t.views id ≡ some w) × HasRecorded v ms w }
{}

/// What a step of the recorder writes is a word of 64 bits, where the one that it found is.
pub fn steps_write_whole_words()
    ensures { (s : State (Unit {0}) View) (id : ℕ) (v : View) → Holds s → get_elem? s.views id ≡ some v → (k : RecorderKind) → Asks s v k
        → word s (place k) < 2 ^ 64 → wrote k (word s (place k)) < 2 ^ 64 }
{}

/// Once a booking is recorded nothing is left to do for it: the next entry may come.
pub fn bookings_leave_nothing()
    ensures { (s : State (Unit {0}) View) (id : ℕ) (v : View) (c : Claim) (e : Entry) (found : ℕ) → Holds s → get_elem? s.views id ≡ some v
        → Asks s v (books c e) → MayRecord (knows v (books c e) found) None }
{}

/// Where the last entry is no booking, no slot whose word has still to become the farm's has a frame that runs.
pub fn others_start_nothing()
    ensures { (s : State (Unit {0}) View) (id : ℕ) (v : View) (d : Desk) (log : List Entry) (e : Entry) (slot : ℕ) → Holds s → get_elem? s.views id ≡ some v
        → v.desk ≡ Some d → d.before ≡ Some log → log ++ e ∷ [] ≡ v.journal → (IsBooking e.act → ⊥) → stand_recorded v slot ≢ stand_now v slot
        → is_booked (stand_now v slot).phase ≡ false }
{}
