//! What an answer leaves: the farm, and the text of its reply.

ghost use Rattle.std.specs.Prelude.{◌≡◌, IfOk};
ghost use Rattle.farm_types.specs.Formed.{IsFormed};
ghost use Rattle.farm_lines.specs.Asked.{heard_entry};
ghost use Rattle.farm_lines.specs.declared.reply.Reply.{Reply};
ghost use Rattle.line_answers.specs.Asking.{IsNoBooking};
ghost use Rattle.line_answers.specs.Lines.{shown};
ghost use Rattle.line_answers.specs.Told.{Tells};
ghost use Rattle.world_answers.specs.Leaving.{LeavesAct, LeavesReport};
ghost use Rattle.world_answers.specs.Reporting.{HasText};
ghost use Rattle.world_answers.specs.Trials.{IsTextOf};

use crate::on_words::{Came, CameReport, answer_act, answer_report};
use crate::telling::told_text;
use crate::trying::text_of;
use farm_lines::Report;
use farm_types::{Entry, Items};
use line_answers::Taken;
use line_answers::farm_core::Farm;
use std::alloc::{AllocError, Global};

/// The farm that is left, and the text of the reply.
#[derive(Drop)]
pub(crate) struct Left {
    pub farm: Farm,
    pub reply: Items<u8>,
}

/// Answers a request of one entry on a copy of the farm, whose store refuses the commit after so many, or none. The only error is that memory ran out, for
/// the reply too.
pub(crate) fn leave_act(
    alloc: Global,
    farm: &Farm,
    entry: &Entry,
    due: Option<u32>,
) -> Result<Left, AllocError>
    requires formed { IsFormed entry.now }
    requires unbooked { IsNoBooking entry.now.act }
    ensures { IfOk result (LeavesAct farm.now entry.now due) }
{
    let came = answer_act(alloc, farm, entry, due)?;
    act_left(alloc, came)
}

// By the line of the reply.
fn act_left(alloc: Global, came: Came) -> Result<Left, AllocError>
    ensures { IfOk result (λ left. (left.farm ≡ came.farm) × IsTextOf (shown came.line) left.reply) }
{
    let Came { farm, line } = came;
    match text_of(alloc, &line) {
        Ok(reply) => Ok(Left { farm, reply }),
        Err(_) => {
            drop(farm);
            Err(AllocError)
        }
    }
}

/// Takes a report on a copy of the farm, whose store refuses the commit after so many, or none. The only error is that memory ran out, for the reply or the
/// round too.
pub(crate) fn leave_report(
    alloc: Global,
    farm: &Farm,
    report: Report,
    moment: u64,
    due: Option<u32>,
) -> Result<Left, AllocError>
    requires { IsFormed (heard_entry report moment) }
    ensures { IfOk result (LeavesReport farm.now report moment due) }
{
    let came = answer_report(alloc, farm, report, moment, due)?;
    report_left(alloc, came)
}

// By what is told.
fn report_left(alloc: Global, came: CameReport) -> Result<Left, AllocError>
    ensures { IfOk result (λ left. (left.farm ≡ came.farm) × ((reply : Reply) → Tells came.taken.told reply → HasText reply left.reply)) }
{
    let CameReport { farm, taken } = came;
    let Taken {
        told,
        booked: _booked,
    } = taken;
    match told_text(alloc, told) {
        Ok(reply) => Ok(Left { farm, reply }),
        Err(_) => {
            drop(farm);
            Err(AllocError)
        }
    }
}
