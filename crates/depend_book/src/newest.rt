//! The number of the last row of each job.

ghost use Rattle.std.specs.Prelude.{◌≡◌, ◌≢◌, ◌≤◌, ◌<◌, ◌+◌, ℕ, None, nat_eq, if◌then◌else◌};
ghost use Rattle.indexmap.specs.IndexMap.{get, index_map_len, spare};
ghost use Rattle.depend_book.specs.Rows.{last_in};

use farm_types::{DependNo, JobNo};
use indexmap::IndexMap;

/// The number of the last row of the job.
pub(crate) fn last_in(newest: &IndexMap<u32, Option<DependNo>>, job: u32) -> Option<DependNo>
    ensures { result ≡ last_in newest.now job }
{
    match newest.get(&job) {
        None => None,
        Some(depend) => *depend,
    }
}

/// That is the last row of the job now. It takes no memory.
pub(crate) fn note(newest: &mut IndexMap<u32, Option<DependNo>>, job: u32, depend: Option<DependNo>)
    requires { get nat_eq newest.old job ≡ None → 0 < spare newest.old }
    ensures last { (other : ℕ) → last_in newest.new other ≡ (if nat_eq other job then depend else last_in newest.old other) }
    ensures count { index_map_len newest.new ≤ index_map_len newest.old + 1 }
    ensures known { get nat_eq newest.old job ≢ None → index_map_len newest.new ≡ index_map_len newest.old }
    ensures capacity { index_map_len newest.old + spare newest.old ≤ index_map_len newest.new + spare newest.new }
{
    match newest.get_mut(&job) {
        Some(last) => {
            *last = depend;
        }
        None => {
            newest.insert(job, depend).unwrap();
        }
    }
}

/// The job's number.
pub(crate) fn number_of(job: JobNo) -> u32
    ensures { result ≡ job }
{
    job.0
}
