//! The depends in which a job waits, along the way from its last row back to its first.

ghost use Rattle.std.specs.Prelude.{◌≡◌, ℕ, IfOk, []};
ghost use Rattle.farm_types.specs.Rising.{IsRising};
ghost use Rattle.depend_book.specs.Book.{waiting_from, waiting_in};
ghost use Rattle.depend_book.specs.Rows.{KeepsPlaces, older_of, place_key, rows_there};

use crate::depends::Depends;
use crate::newest::{last_in, number_of};
use crate::places::{older_at, place_of};
use crate::row_list::{RowList, RowPlace};
use farm_types::{DependNo, Items, JobNo};
use indexmap::IndexMap;
use std::alloc::{AllocError, Global};

impl Depends {
    /// The numbers of the depends in which the job waits, the last one first.
    pub fn waiting(&self, alloc: Global, job: JobNo) -> Result<Items<DependNo>, AllocError>
        ensures { IfOk result (λ depends. depends ≡ waiting_in self.now job) }
    {
        self.rows.waiting(alloc, job)
    }
}

impl RowList {
    /// The numbers of the rows in which the job waits, the last one first.
    pub(crate) fn waiting(&self, alloc: Global, job: JobNo) -> Result<Items<DependNo>, AllocError>
        ensures { IfOk result (λ depends. depends ≡ waiting_from job [] self.now.rows) }
    {
        walk_back(alloc, self.places.as_slice(), &self.newest, job)
    }
}

// The numbers of the job's rows, from the last one back.
fn walk_back(
    alloc: Global,
    places: &[RowPlace],
    newest: &IndexMap<u32, Option<DependNo>>,
    job: JobNo,
) -> Result<Items<DependNo>, AllocError>
    requires rise { (high : ℕ) × IsRising place_key 1 places.now high }
    requires places { KeepsPlaces places.now newest.now }
    ensures { IfOk result (λ depends. depends ≡ waiting_from job [] (rows_there places.now)) }
{
    let mut found = Items::new(alloc);
    let mut next = last_in(newest, number_of(job));
    while let Some(depend) = next {
        found.push(depend)?;
        next = older_in(places, depend);
    }
    Ok(found)
}

// What came before the row of that number in its job.
fn older_in(places: &[RowPlace], depend: DependNo) -> Option<DependNo>
    requires { (high : ℕ) × IsRising place_key 1 places.now high }
    ensures { result ≡ older_of depend places.now }
{
    let place = place_of(places, depend);
    if place < places.len() {
        return older_at(places, place);
    }
    None
}
