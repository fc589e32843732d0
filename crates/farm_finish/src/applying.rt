//! Jobs finish.

ghost use Rattle.std.specs.Prelude.{◌≡◌};
ghost use Rattle.farm_types.specs.Step.{lists_of};
ghost use Rattle.farm_finish.specs.Finishing.{CanFinishAll, MayFinish, all_finished, finished_in};

use farm_books::Books;
use farm_types::{Items, JobNo};

/// The jobs finish, one after the other: their layers and the depends in which they wait go, and their slots become free. It takes no memory.
pub fn apply_finish(books: &mut Books, jobs: Items<JobNo>)
    requires { CanFinishAll (lists_of books.old.farm) jobs }
    ensures { books.new ≡ all_finished jobs books.old }
{
    finish_each(books, jobs.as_slice());
}

// Each of the jobs finishes.
fn finish_each(books: &mut Books, jobs: &[JobNo])
    requires { CanFinishAll (lists_of books.old.farm) jobs.now }
    ensures { books.new ≡ all_finished jobs.now books.old }
{
    for job in jobs {
        finish_one(books, *job);
    }
}

// The job finishes. While its layers are there, its frames are found.
fn finish_one(books: &mut Books, job: JobNo)
    requires { MayFinish (lists_of books.old.farm) job }
    ensures { books.new ≡ finished_in job books.old }
{
    books.clear_job(job);
    books.forget_waiter(job);
    books.finish(job);
}
