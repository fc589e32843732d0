//! Answering a list.

ghost use Rattle.farm_lines.specs.Lists.{page_listed};
ghost use Rattle.farm_lines.specs.Transcript.{list_reply};
ghost use Rattle.line_answers.specs.Lines.{IsLineOf, shown};

use crate::reply_line::{ReplyLine, line_of, refusal_line};
use cue_query::list;
use dispatcher::farm_core::Farm;
use farm_lines::{Query, Reply};
use farm_types::FarmFault;
use std::alloc::Global;

/// Answers a list from the farm as it is, and lets the question go.
#[tactic(auto, using(crate::proofs::AnswerLemmas::listed_page, crate::proofs::AnswerLemmas::listed_refusal))]
pub fn answer_list(alloc: Global, farm: &Farm, query: Query) -> ReplyLine
    ensures { IsLineOf (list_reply (page_listed farm.now query)) (shown result) }
{
    match list(alloc, farm, &query) {
        Ok(page) => line_of(alloc, &Reply::List(page)),
        Err(FarmFault::Refused { why }) => refusal_line(alloc, why),
        Err(FarmFault::NoMemory) => ReplyLine::NoMemory,
    }
}
