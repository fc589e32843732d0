//! Prepares what follows an act, or says why the farm refuses it.

ghost use Rattle.std.specs.Prelude.{◌≡◌, ◌≤◌, ◌∷◌, [], None, true, length, IfOk};
ghost use Rattle.farm_types.specs.declared.limits.TheConstants.{MOST_FRAMES};
ghost use Rattle.farm_types.specs.Formed.{IsFormedAct};
ghost use Rattle.farm_types.specs.Farm.{show_named};
ghost use Rattle.farm_types.specs.Step.{HasCondition, act_refusal, after_submit};
ghost use Rattle.farm_types.specs.declared.entry.Act.TheVariants as act;
ghost use Rattle.depend_graph.specs.Graph.{no_marks};
ghost use Rattle.farm_books.specs.Books.{IsWhole};
ghost use Rattle.farm_changes.specs.Change.{Makes, after_change};
ghost use Rattle.farm_depends.specs.Coming.{follow_new, unmet_by};
ghost use Rattle.farm_depends.specs.Follow.{HasMarks, PreparesFollow};

use crate::completing::{follow_completed, follow_drop};
use crate::follow::{Follow, follow_nothing};
use crate::new_depends::blocked::{unmet_waiters, waiting_among};
use crate::new_depends::depends::coming;
use crate::new_depends::room::counts_of;
use crate::new_depends::submitted::follow_submit;
use crate::retrying::follow_retried;
use depend_book::NewDepend;
use depend_graph::Marks;
use farm_books::Books;
use farm_changes::Change;
use farm_types::{Act, DependSpec, Entry, FarmFault, Items, JobSpec, Slot};
use std::alloc::{AllocError, Global};

/// Prepares what follows the act of an entry, for which `change` was prepared. Nothing changes. An entry to book is one whose booking may be
/// recorded.
pub fn prepare_follow(
    alloc: Global,
    books: &Books,
    entry: &Entry,
    change: &Change,
) -> Result<Follow, FarmFault>
    requires whole { IsWhole books.now }
    requires condition { HasCondition books.now.farm entry.now.act }
    requires formed { IsFormedAct entry.now.act }
    requires made { Makes books.now.farm entry.now change.now }
    ensures prepares { PreparesFollow books.now.farm (after_change books.now.farm change.now) entry.now.act result }
    ensures marks { IfOk result (HasMarks books.now.graph) }
{
    books.kept();
    match &entry.act {
        Act::Heard(_) => follow_completed(alloc, books, entry, change),
        Act::KillJob { .. } => follow_completed(alloc, books, entry, change),
        Act::EatFrame(_) => follow_completed(alloc, books, entry, change),
        Act::RetryFrame(place) => follow_retried(alloc, books, place),
        Act::Submit(spec) => follow_submit(alloc, books, spec),
        Act::AddDepend(spec) => follow_depend(alloc, books, spec),
        Act::DropDepend { depend } => follow_drop(alloc, books, *depend),
        _ => Ok(follow_nothing(alloc)),
    }
}

/// What follows a depend that comes.
pub fn follow_depend(alloc: Global, books: &Books, spec: &DependSpec) -> Result<Follow, FarmFault>
    requires whole { IsWhole books.now }
    requires formed { IsFormedAct (act.AddDepend spec.now) }
    ensures prepares { PreparesFollow books.now.farm books.now.farm (act.AddDepend spec.now) result }
    ensures marks { IfOk result (HasMarks books.now.graph) }
{
    books.kept();
    let counts = counts_of(books.depends());
    let new = coming(alloc, books, &counts, spec)?;
    let follow = added(alloc, books, new)?;
    Ok(follow)
}

// What follows the depend.
fn added(alloc: Global, books: &Books, new: NewDepend) -> Result<Follow, AllocError>
    requires { length (unmet_by books.now.graph.done new.groups) ≤ MOST_FRAMES }
    ensures { IfOk result (λ follow. follow ≡ follow_new books.now.farm.slots books.now.graph.done new) }
{
    let unmet = unmet_waiters(alloc, books.depends(), new.groups.as_slice())?;
    let blocked = waiting_among(alloc, books.jobs(), unmet.as_slice())?;
    let count = unmet.len() as u32;
    follow_of(alloc, new, blocked, count)
}

// The depend with the frames that it blocks, and how many wait by it unmet.
fn follow_of(
    alloc: Global,
    new: NewDepend,
    blocked: Items<Slot>,
    count: u32,
) -> Result<Follow, AllocError>
    ensures { IfOk result (λ follow. follow
        ≡ record {
          depends = new ∷ [];
          spares = [];
          dropped = None;
          done = [];
          marks = no_marks;
          reopened = None;
          opened = [];
          blocked = blocked;
          raises = true;
          count = count;
        }) }
{
    let mut depends = Items::new(alloc);
    depends.push(new)?;
    Ok(Follow {
        depends,
        spares: Items::new(alloc),
        dropped: None,
        done: Items::new(alloc),
        marks: Marks::none(alloc),
        reopened: None,
        opened: Items::new(alloc),
        blocked,
        raises: true,
        count,
    })
}
