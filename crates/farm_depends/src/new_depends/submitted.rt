//! Prepares what follows a submitted job: the depends that come with it.

ghost use Rattle.std.specs.Prelude.{◌≡◌, None, true, IfOk};
ghost use Rattle.std.specs.List.{list_all};
ghost use Rattle.farm_types.specs.Farm.{show_named};
ghost use Rattle.farm_types.specs.Formed.{IsFormedAct};
ghost use Rattle.farm_types.specs.Groups.{all_slots};
ghost use Rattle.farm_types.specs.Step.{act_refusal, after_submit};
ghost use Rattle.farm_types.specs.declared.entry.Act.TheVariants as act;
ghost use Rattle.depend_graph.specs.Graph.{is_below};
ghost use Rattle.farm_books.specs.Books.{IsWhole};
ghost use Rattle.farm_depends.specs.Follow.{HasMarks, PreparesFollow};
ghost use Rattle.farm_depends.specs.Placed.{follow_own};

use crate::follow::{Follow, follow_nothing};
use crate::new_depends::blocked_own::blocked_own;
use crate::new_depends::own_depends::all_coming;
use crate::new_depends::own_job::{OwnJob, own_job};
use crate::new_depends::room::counts_of;
use depend_book::{Depends, NewDepend};
use depend_graph::Marks;
use farm_books::Books;
use farm_types::{FarmFault, Items, JobSpec};
use std::alloc::{AllocError, Global};

/// What follows a submitted job, for which the farm has a place: its depends, in turn, and those of its frames that they block. Nothing changes.
pub fn follow_submit(alloc: Global, books: &Books, spec: &JobSpec) -> Result<Follow, FarmFault>
    requires whole { IsWhole books.now }
    requires formed { IsFormedAct (act.Submit spec.now) }
    requires accepted { act_refusal books.now.farm (act.Submit spec.now) ≡ None }
    ensures prepares { PreparesFollow books.now.farm (after_submit books.now.farm spec.now (show_named books.now.farm spec.now.show))
        (act.Submit spec.now) result }
    ensures marks { IfOk result (HasMarks books.now.graph) }
{
    books.kept();
    if spec.depends.is_empty() {
        return Ok(follow_nothing(alloc));
    }
    let own = own_job(alloc, books, spec)?;
    let counts = counts_of(books.depends());
    let all = all_coming(alloc, books, spec, &own, counts)?;
    let follow = follow_own(alloc, books.depends(), &own, all)?;
    Ok(follow)
}

// What follows the depends of the job.
fn follow_own(
    alloc: Global,
    depends: &Depends,
    own: &OwnJob,
    all: Items<NewDepend>,
) -> Result<Follow, AllocError>
    requires { list_all is_below (all_slots own.now.shape.layers) ≡ true }
    ensures { IfOk result (λ follow. follow ≡ follow_own depends.now.graph.done own.now all) }
{
    let blocked = blocked_own(alloc, depends, own.shape.layers.as_slice(), all.as_slice())?;
    Ok(Follow {
        depends: all,
        spares: Items::new(alloc),
        dropped: None,
        done: Items::new(alloc),
        marks: Marks::none(alloc),
        reopened: None,
        opened: Items::new(alloc),
        blocked,
        raises: false,
        count: 0,
    })
}
