//! The laws: functions that do nothing, whose contracts are the laws.

ghost use Rattle.std.specs.Prelude.{◌≡◌, ◌<◌, ◌^◌, ◌⊎◌, ℕ, List};
ghost use Rattle.farm_types.specs.declared.depend.Group.{Group};
ghost use Rattle.farm_types.specs.declared.entry.Entry.{Entry};
ghost use Rattle.farm_types.specs.Demo.{demo_farm};
ghost use Rattle.farm_types.specs.Farm.{Farm, empty_farm};
ghost use Rattle.farm_types.specs.Kept.{IsKeptFarm};
ghost use Rattle.farm_types.specs.Run.{IsLegal, run_of};
ghost use Rattle.farm_types.specs.Settle.{settle};
ghost use Rattle.depend_law.specs.Earned.{AreDoneIn, BecomesSatisfied, IsMarkedIn, IsSatisfiedIn, MetStays, SatisfiedStays};

/// What every farm of the program keeps: the empty farm and the demonstration's do, and so does every legal run from a
/// farm that does.
pub fn legal_runs_keep_farms()
    ensures empty { IsKeptFarm empty_farm }
    ensures demo { (moment : ℕ) → moment < 2 ^ 64 → IsKeptFarm (demo_farm moment) }
    ensures runs { (f : Farm) (es : List Entry) → IsKeptFarm f → IsLegal f es → IsKeptFarm (run_of f es) }
{}

/// A farm that keeps this is settled: nothing that is done is unmet, and no blocked frame is open. So nothing follows of depends where an entry
/// leaves depends and completions as they are.
pub fn kept_farms_are_settled()
    ensures { (f : Farm) → IsKeptFarm f → settle f ≡ f }
{}

/// Along a legal run from a farm that keeps this, a group of a depend that is met stays met while its depend is there.
/// And each mark of a group that comes was earned: once one of the entries had changed frames, the group's targets were
/// done as its depend asks. A depend that is satisfied stays so while it is there. And each depend that comes to be
/// satisfied was dropped by one of the entries, or each of its groups had been marked before one of them, or had its
/// targets done so in it.
pub fn marks_are_earned()
    ensures stays { (f : Farm) (es : List Entry) → IsKeptFarm f → IsLegal f es → MetStays f (run_of f es) }
    ensures earned { (f : Farm) (es : List Entry) (depend : ℕ) (g : Group) → IsKeptFarm f → IsLegal f es
        → IsMarkedIn (run_of f es) depend g → IsMarkedIn f depend g ⊎ AreDoneIn f es g }
    ensures satisfied_stays { (f : Farm) (es : List Entry) → IsKeptFarm f → IsLegal f es → SatisfiedStays f (run_of f es) }
    ensures satisfied { (f : Farm) (es : List Entry) (depend : ℕ) → IsKeptFarm f → IsLegal f es
        → IsSatisfiedIn (run_of f es) depend → IsSatisfiedIn f depend ⊎ BecomesSatisfied f es depend }
{}
