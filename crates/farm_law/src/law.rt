//! The laws of the farm's runs: functions that do nothing, whose contracts are the laws.

ghost use Rattle.std.specs.Prelude.{◌≡◌, ◌<◌, ◌^◌, ℕ, List, true};
ghost use Rattle.std.specs.List.{list_all};
ghost use Rattle.farm_types.specs.declared.entry.Entry.{Entry};
ghost use Rattle.farm_types.specs.declared.limits.TheConstants.{LAST_VERSION};
ghost use Rattle.farm_types.specs.Booking.{suits, version_at};
ghost use Rattle.farm_types.specs.Demo.{demo_farm};
ghost use Rattle.farm_types.specs.Dispatch.{candidate_suits, plan_for};
ghost use Rattle.farm_types.specs.Farm.{Farm, empty_farm};
ghost use Rattle.farm_types.specs.Kept.{KeepsRows};
ghost use Rattle.farm_types.specs.Run.{IsSound, HasItsHosts, IsLegal, IsSafe, run_of};
ghost use Rattle.farm_law.specs.DemoRun.{demo_entries};

/// Every legal run of entries from a sound farm with its hosts is safe: no host is ever used past its cores or
/// memory, exactly the running frames have an attempt, each booking finds its frame open and leaves it an attempt
/// on the host, of a subscription that is there and within its burst, and no completion counts twice. Where the
/// frame's layer has a limit, it is there, and no more frames run in it than may. It holds of all farms, those with
/// depends included.
pub fn legal_runs_are_safe()
    ensures { (f : Farm) (es : List Entry) → IsSound f → HasItsHosts f → IsLegal f es → IsSafe f es }
{}

/// Safety needs that the first farm has its hosts: from some sound farm without them a legal run isn't safe.
pub fn safety_needs_hosts()
    ensures { (f : Farm) × (es : List Entry) × IsSound f × IsLegal f es × (IsSafe f es → ⊥) }
{}

/// Every legal run of entries from a sound farm with its hosts ends in such a farm.
pub fn legal_runs_keep_hosts()
    ensures sound { (f : Farm) (es : List Entry) → IsSound f → HasItsHosts f → IsLegal f es → IsSound (run_of f es) }
    ensures hosts { (f : Farm) (es : List Entry) → IsSound f → HasItsHosts f → IsLegal f es → HasItsHosts (run_of f es) }
{}

/// Each candidate of a plan is for the plan's host, and its slot, version and subscription suit that host.
pub fn candidates_suit()
    ensures { (f : Farm) (host : ℕ) → list_all (candidate_suits f host) (plan_for f host) ≡ true }
{}

/// A slot that suits a host does so after every legal run that leaves the slot its recorded version, below the last
/// one. No such run needs to begin in a sound farm.
pub fn suits_stays()
    ensures { (f : Farm) (es : List Entry) (slot version host sub : ℕ) → IsLegal f es → suits f slot version host sub ≡ true
        → version_at (run_of f es) slot ≡ version → version < LAST_VERSION → suits (run_of f es) slot version host sub ≡ true }
{}

/// What every farm of the program keeps of all rows but those of depends: the empty farm and the demonstration's do, and
/// so does every legal run from a farm that does.
pub fn legal_runs_keep_rows()
    ensures empty { KeepsRows empty_farm }
    ensures demo { (moment : ℕ) → moment < 2 ^ 64 → KeepsRows (demo_farm moment) }
    ensures runs { (f : Farm) (es : List Entry) → KeepsRows f → IsLegal f es → KeepsRows (run_of f es) }
{}

/// The demonstration's farm is that of a legal run from the farm of no rows.
pub fn the_demonstration_is_a_run()
    ensures legal { (moment : ℕ) → moment < 2 ^ 64 → IsLegal empty_farm (demo_entries moment) }
    ensures farm { (moment : ℕ) → run_of empty_farm (demo_entries moment) ≡ demo_farm moment }
{}
