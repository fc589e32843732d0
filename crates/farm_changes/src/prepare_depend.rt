//! Prepares that a depend is added or dropped. No row of the books changes: the layer above has the depends, and the numbers of the answer.

ghost use Rattle.std.specs.Prelude.{◌≤◌};
ghost use Rattle.farm_types.specs.declared.entry.Act.TheVariants as act;
ghost use Rattle.farm_changes.specs.Change.{Prepares};

use crate::act_answer::ActAnswer;
use crate::change::{Change, More};
use crate::preparing::change_with;
use farm_books::Books;
use farm_draft::Rows;
use farm_types::{DependNo, DependSpec, FarmFault};
use std::alloc::Global;

/// Prepares that a depend is added.
pub(crate) fn prepare_added(
    alloc: Global,
    books: &Books,
    moment: u64,
    spec: &DependSpec,
) -> Result<Change, FarmFault>
    requires { books.now.farm.moment ≤ moment }
    ensures { Prepares books.now.farm (record { moment = moment; act = act.AddDepend spec.now }) result }
{
    let _books = books;
    let _spec = spec;
    Ok(change_with(
        moment,
        ActAnswer::DependAdded,
        Rows::none(alloc),
        More::Nothing,
    ))
}

/// Prepares that a depend is dropped.
pub(crate) fn prepare_dropped(
    alloc: Global,
    books: &Books,
    moment: u64,
    depend: DependNo,
) -> Result<Change, FarmFault>
    requires { books.now.farm.moment ≤ moment }
    ensures { Prepares books.now.farm (record { moment = moment; act = act.DropDepend depend }) result }
{
    let _books = books;
    let _depend = depend;
    Ok(change_with(
        moment,
        ActAnswer::DependDropped,
        Rows::none(alloc),
        More::Nothing,
    ))
}
