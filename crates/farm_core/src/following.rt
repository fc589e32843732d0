//! The change of an entry: what its act does, with what follows of depends and the jobs that finish.

ghost use Rattle.std.specs.Prelude.{◌≡◌, IfOk};
ghost use Rattle.farm_changes.specs.Change as acts;
ghost use Rattle.farm_core.specs.Answers.{HasNumber, answer_by};
ghost use Rattle.farm_core.specs.Change.{IsPrepared, Plans};
ghost use Rattle.farm_books.specs.Books.{IsWhole};
ghost use Rattle.farm_depends.specs.Follow.{HasMarks};
ghost use Rattle.farm_types.specs.Formed.{IsFormed};
ghost use Rattle.farm_types.specs.Step.{HasCondition};

use crate::change::Change;
use farm_books::Books;
use farm_changes::ActAnswer;
use farm_depends::prepare_follow;
use farm_finish::prepare_finish;
use farm_types::{Answer, DependNo, Entry, FarmFault, Items};
use std::alloc::Global;

/// The change of an entry for whose act a change was prepared, with what follows and which jobs finish. The rows that it changes aren't found yet.
pub(crate) fn with_follow(
    alloc: Global,
    books: &Books,
    entry: &Entry,
    act: farm_changes::Change,
) -> Result<Change, FarmFault>
    requires whole { IsWhole books.now }
    requires condition { HasCondition books.now.farm entry.now.act }
    requires formed { IsFormed entry.now }
    requires made { acts.Makes books.now.farm entry.now act }
    ensures prepared { IsPrepared (Plans books.now.farm entry.now) books.now.farm entry.now result }
    ensures marks { IfOk result (λ change. HasMarks books.now.graph change.follow) }
{
    let follow = prepare_follow(alloc, books, entry, &act)?;
    let finish = prepare_finish(alloc, books, entry, &act, &follow)?;
    let next = books.depends().next_number();
    let answer = answer_by(act.answer(), next, follow.count);
    Ok(Change {
        act,
        follow,
        finish,
        rows: Items::new(alloc),
        answer,
    })
}

// The answer, by what is known of it: a depend that comes gets the next number and holds back so many frames, and one that goes lets so many open.
fn answer_by(known: ActAnswer, next: u64, count: u32) -> Answer
    requires { HasNumber next known }
    ensures { result ≡ answer_by next count known }
{
    match known {
        ActAnswer::Whole(answer) => answer,
        ActAnswer::DependAdded => Answer::DependAdded {
            depend: DependNo(next as u32),
            unmet: count,
        },
        ActAnswer::DependDropped => Answer::DependDropped { opened: count },
    }
}
