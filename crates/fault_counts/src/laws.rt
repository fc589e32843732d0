//! The laws of counts: a function that does nothing, whose contract is the laws.
ghost use Rattle.std.specs.Prelude.{◌≡◌, ℕ, ◌+◌, ◌≤◌, Bool, true, cond};
ghost use Rattle.fault_counts.specs.Counts.{HasRisen, HasRisenBy, incremented_if, last_count};

/// A count that was told of a fault has risen, and what rose stays so whatever comes before or after. Over many calls it
/// has risen by exactly as many as there were faults, or stands at its last number.
pub fn counts_rise()
    ensures rises { (old new : ℕ) → new ≡ incremented_if true old → HasRisen old new }
    ensures later { (old mid new : ℕ) → HasRisen old mid → mid ≤ new → HasRisen old new }
    ensures earlier { (old mid new : ℕ) → old ≤ mid → HasRisen mid new → HasRisen old new }
    ensures stays { (fault : Bool) (new : ℕ) → new ≡ incremented_if fault last_count → new ≡ last_count }
    ensures counted { (fault : Bool) (count old mid new : ℕ) → HasRisenBy count old mid → new ≡ incremented_if fault mid
        → HasRisenBy (count + cond fault 1 0) old new }
{}
