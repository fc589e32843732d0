//! Subscriptions by their numbers.

ghost use Rattle.std.specs.Prelude.{◌≡◌, ◌==◌, ◌<◌, true, find, is_some};
ghost use Rattle.std.specs.List.{list_all, list_any};
ghost use Rattle.farm_types.specs.declared.limits.TheConstants.{SUB_NUMBERS};
ghost use Rattle.farm_types.specs.Farm.{sub_of};
ghost use Rattle.row_index.specs.Index.{is_numbered_sub};

use farm_types::{AllocNo, HostRow, JobRow, ShowNo, SubNo, SubRow};

/// Whether the show has a subscription to the allocation.
pub fn has_sub(subs: &[SubRow], show: ShowNo, alloc: AllocNo) -> bool
    requires numbered { list_all is_numbered_sub subs.now ≡ true }
    ensures { result ≡ is_some (find (λ s. s.sub == sub_of show alloc) subs.now) }
{
    match SubNo::of(show, alloc) {
        None => false,
        Some(sub) => any_sub(subs, sub),
    }
}

/// The number of the subscription of a job's show to a host's allocation.
pub fn sub_between(job: &JobRow, on: &HostRow) -> SubNo
    requires below { sub_of job.now.show on.now.alloc < SUB_NUMBERS }
    ensures { result ≡ sub_of job.now.show on.now.alloc }
{
    match SubNo::of(job.show, on.alloc) {
        None => unreachable!(),
        Some(sub) => sub,
    }
}

// Whether a subscription has the number.
fn any_sub(subs: &[SubRow], sub: SubNo) -> bool
    ensures { result ≡ list_any (λ s. s.sub == sub) subs.now }
{
    subs.iter().any(|row| is_sub(row, sub))
}

// Whether the subscription has the number.
fn is_sub(row: &SubRow, sub: SubNo) -> bool
    ensures { result ≡ (row.now.sub == sub) }
{
    row.sub == sub
}
