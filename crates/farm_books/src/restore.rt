//! The books of given lists.

ghost use Rattle.std.specs.Prelude.{◌≡◌, IfOk};
ghost use Rattle.farm_types.specs.Kept.{KeepsRows};
ghost use Rattle.farm_rows.specs.Lists.{farm_in};
ghost use Rattle.farm_books.specs.Books.{empty_books, with_farm};

use crate::books::Books;
use crate::limits::limits_of;
use crate::shows::Shows;
use alloc_tags::Allocs;
use attempt_book::Attempts;
use depend_book::Depends;
use farm_rows::BookLists;
use host_book::Hosts;
use job_book::Jobs;
use std::alloc::{AllocError, Global};

impl Books {
    /// The books of these lists and no depends, with all the memory that books of no rows have. The rows are moved into them, and only the names of hosts
    /// and jobs are copied, for their indexes. What is booked of a subscription may be more than its burst, and what
    /// runs in a limit more than its most, as where an operator lowered it.
    pub fn of_lists(alloc: Global, lists: BookLists) -> Result<Books, AllocError>
        requires { KeepsRows (farm_in lists) }
        ensures { IfOk result (λ books. books ≡ with_farm empty_books (farm_in lists)) }
    {
        let attempts = Attempts::of_slots(alloc, lists.subs.as_slice(), lists.slots.as_slice())?;
        let shows = Shows::of_rows(lists.shows)?;
        let allocs = Allocs::of_rows(lists.allocs)?;
        let hosts = Hosts::of_rows(alloc, lists.hosts)?;
        let jobs = Jobs::of_rows(
            alloc,
            lists.jobs,
            lists.layers,
            lists.slots,
            lists.next_job,
            lists.next_finish,
        )?;
        let limits = limits_of(alloc, lists.limits, &jobs)?;
        let depends = Depends::make(alloc)?;
        Ok(Books {
            shows,
            allocs,
            attempts,
            limits,
            hosts,
            jobs,
            depends,
            moment: lists.moment,
            recorded: lists.recorded,
        })
    }
}
