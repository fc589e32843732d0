//! The rows that change with what follows an act.

ghost use Rattle.std.specs.Prelude.{◌≡◌, ◌≤◌, ◌+◌, ◌++◌, true, map, length, IfOk, OnOk};
ghost use Rattle.farm_types.specs.declared.limits.TheConstants.{LAST_DEPEND};
ghost use Rattle.farm_types.specs.Farm.{Farm};
ghost use Rattle.farm_rows.specs.Changes.{MakesRows};
ghost use Rattle.depend_book.specs.Book.{added_row};
ghost use Rattle.farm_books.specs.Books.{IsWhole};
ghost use Rattle.farm_depends.specs.Follow.{HasMarks, after_follow};
ghost use Rattle.farm_depends.specs.FollowRows.{IsActed, all_coming_rows, all_satisfied_rows, coming_rows, delete_mark, dropped_rows, met_rows};
ghost use Rattle.farm_depends.specs.FollowRows.{once_marks, put_mark, satisfied_rows};

use crate::follow::Follow;
use crate::rows::moved::moved_rows;
use depend_book::{Depends, NewDepend};
use depend_graph::Marks;
use farm_books::Books;
use farm_rows::{FarmRow, RowChange, RowKey};
use farm_types::{DependNo, DependRow, Group, MetRow};
use std::alloc::{AllocError, Global};

/// The rows that change with what follows an act, each as it will be, some of them perhaps named more than once, or as they are already. `acted` are the
/// changes of rows that lead to the farm after the act, of whose books nothing else is read. Nothing changes.
pub fn follow_rows(
    alloc: Global,
    books: &Books,
    acted: &[RowChange],
    follow: &Follow,
) -> Result<Vec<RowChange>, AllocError>
    requires whole { IsWhole books.now }
    requires acted { (f : Farm) × IsActed books.now.farm acted.now follow.now f }
    requires marks { HasMarks books.now.graph follow.now }
    ensures { IfOk result (λ rows. (f : Farm) → IsActed books.now.farm acted.now follow.now f → MakesRows f (after_follow f follow.now) rows.items) }
{
    books.kept();
    let depends = books.depends();
    let mut rows = moved_rows(alloc, books, acted, follow)?;
    add_coming(&mut rows, alloc, depends, follow.depends.as_slice())?;
    add_dropped(&mut rows, alloc, depends, follow.dropped)?;
    add_met(&mut rows, alloc, depends, &follow.marks)?;
    Ok(rows)
}

// Depends that come.
fn add_coming(
    rows: &mut Vec<RowChange>,
    alloc: Global,
    depends: &Depends,
    coming: &[NewDepend],
) -> Result<(), AllocError>
    requires { depends.now.next + length coming.now ≤ LAST_DEPEND + 1 }
    ensures { OnOk result (rows.new.items ≡ rows.old.items ++ all_coming_rows depends.now.graph.done depends.now.next coming.now) }
{
    let mut number = depends.next_number();
    for new in coming {
        add_new(rows, alloc, depends, DependNo(number as u32), new)?;
        number += 1;
    }
    Ok(())
}

// A depend that comes, with that number.
fn add_new(
    rows: &mut Vec<RowChange>,
    alloc: Global,
    depends: &Depends,
    number: DependNo,
    new: &NewDepend,
) -> Result<(), AllocError>
    ensures { OnOk result (rows.new.items ≡ rows.old.items ++ coming_rows depends.now.graph.done number new.now) }
{
    let met_all = depends.are_met_at_once(&new.groups);
    let row = added_row(alloc, number, new, met_all)?;
    rows.push(RowChange::Put(FarmRow::Depend(row)))?;
    if met_all {
        return Ok(());
    }
    add_once_met(rows, depends, number, new.groups.as_slice())
}

// The row of a depend that comes.
fn added_row(
    alloc: Global,
    number: DependNo,
    new: &NewDepend,
    met_all: bool,
) -> Result<DependRow, AllocError>
    ensures { IfOk result (λ row. row ≡ added_row number new.now met_all) }
{
    Ok(DependRow {
        depend: number,
        kind: new.kind,
        any: new.any,
        met_all,
        waiter: new.waiter.copy(alloc)?,
        target: new.target.copy(alloc)?,
    })
}

// The marks of those groups that are met at once.
fn add_once_met(
    rows: &mut Vec<RowChange>,
    depends: &Depends,
    depend: DependNo,
    groups: &[Group],
) -> Result<(), AllocError>
    ensures { OnOk result (rows.new.items ≡ rows.old.items ++ map put_mark (once_marks depends.now.graph.done depend groups.now)) }
{
    for group in groups {
        if !depends.is_met_at_once(group) {
            continue;
        }
        let position = group.position;
        rows.push(RowChange::Put(FarmRow::Met(MetRow { depend, position })))?;
    }
    Ok(())
}

// A depend that is dropped.
fn add_dropped(
    rows: &mut Vec<RowChange>,
    alloc: Global,
    depends: &Depends,
    dropped: Option<DependNo>,
) -> Result<(), AllocError>
    ensures { OnOk result (rows.new.items ≡ rows.old.items ++ dropped_rows depends.now dropped) }
{
    match dropped {
        None => Ok(()),
        Some(depend) => add_satisfied(rows, alloc, depends, depend),
    }
}

// A depend is satisfied: its row says so, and its marks go.
fn add_satisfied(
    rows: &mut Vec<RowChange>,
    alloc: Global,
    depends: &Depends,
    depend: DependNo,
) -> Result<(), AllocError>
    ensures { OnOk result (rows.new.items ≡ rows.old.items ++ satisfied_rows depends.now depend) }
{
    if let Some(row) = depends.row(depend) {
        let row = met_all_row(alloc, row)?;
        rows.push(RowChange::Put(FarmRow::Depend(row)))?;
    }
    let marks = depends.marks_of(alloc, depend)?;
    delete_marks(rows, marks.as_slice())
}

// The row of a depend, satisfied.
fn met_all_row(alloc: Global, row: &DependRow) -> Result<DependRow, AllocError>
    ensures { IfOk result (λ met. met ≡ record row.now { met_all = true }) }
{
    let mut copy = row.copy(alloc)?;
    copy.met_all = true;
    Ok(copy)
}

// The marks go.
fn delete_marks(rows: &mut Vec<RowChange>, marks: &[MetRow]) -> Result<(), AllocError>
    ensures { OnOk result (rows.new.items ≡ rows.old.items ++ map delete_mark marks.now) }
{
    for mark in marks {
        rows.push(RowChange::Delete {
            key: RowKey::Met {
                depend: mark.depend,
                position: mark.position,
            },
        })?;
    }
    Ok(())
}

// Frames are done: groups are met, and depends satisfied by that.
fn add_met(
    rows: &mut Vec<RowChange>,
    alloc: Global,
    depends: &Depends,
    marks: &Marks,
) -> Result<(), AllocError>
    ensures { OnOk result (rows.new.items ≡ rows.old.items ++ met_rows depends.now marks.now) }
{
    put_marks(rows, marks.met.as_slice())?;
    add_all_satisfied(rows, alloc, depends, marks.satisfied.as_slice())
}

// The marks are put in.
fn put_marks(rows: &mut Vec<RowChange>, marks: &[MetRow]) -> Result<(), AllocError>
    ensures { OnOk result (rows.new.items ≡ rows.old.items ++ map put_mark marks.now) }
{
    for mark in marks {
        rows.push(RowChange::Put(FarmRow::Met(*mark)))?;
    }
    Ok(())
}

// Depends are satisfied.
fn add_all_satisfied(
    rows: &mut Vec<RowChange>,
    alloc: Global,
    depends: &Depends,
    satisfied: &[DependNo],
) -> Result<(), AllocError>
    ensures { OnOk result (rows.new.items ≡ rows.old.items ++ all_satisfied_rows depends.now satisfied.now) }
{
    for depend in satisfied {
        add_satisfied(rows, alloc, depends, *depend)?;
    }
    Ok(())
}
