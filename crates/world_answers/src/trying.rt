//! A line on a copy of the farm.

ghost use Rattle.std.specs.Prelude.{◌≡◌, ◌++◌, ◌∷◌, [], Err, IfOk, List, None, Ok, false, ℕ};
ghost use Rattle.farm_lines.specs.Asked.{IsFormedAsked, asked_of};
ghost use Rattle.farm_lines.specs.Request.{request_of};
ghost use Rattle.farm_lines.specs.Transcript.{asked_answer, only_reply, unless_memory};
ghost use Rattle.farm_lines.specs.Reply.{reply_text};
ghost use Rattle.farm_lines.specs.declared.reply.Reply.TheVariants as replies;
ghost use Rattle.farm_lines.specs.declared.reply.Reply.{Reply};
ghost use Rattle.farm_lines.specs.declared.request.Request.{Request};
ghost use Rattle.line_answers.specs.Asking.{IsUnbooked};
ghost use Rattle.line_answers.specs.Lines.{IsLineOf, shown};
ghost use Rattle.world_answers.specs.Trials.{IsTextOf, Tries, TriesLine};
ghost use Rattle.world_answers.specs.declared.trial.TrialFault.TheVariants as fault;

use crate::acting::try_act;
use crate::reporting::try_report;
use crate::trial::{Trial, TrialFault};
use farm_lines::{Asked, LINE_LIMIT};
use farm_types::{Entry, Items};
use json::Scratch;
use line_answers::farm_core::Farm;
use line_answers::{ReplyLine, answer_list, ask};
use std::alloc::{AllocError, Global};

/// Answers a line at a moment (seconds) on a copy of the farm. Where a commit is named, by its number among those of this line, the store refuses it.
/// NoSuch comes only where the line has no such commit.
pub fn try_line(
    alloc: Global,
    farm: &Farm,
    line: &[u8],
    moment: u64,
    refused: Option<u32>,
) -> Result<Trial, TrialFault>
    ensures { TriesLine farm.now line.now moment refused result }
{
    if line.len() > LINE_LIMIT as usize {
        return without_entries(alloc, farm, &ReplyLine::TooLong, refused);
    }
    let mut scratch = Scratch::new(alloc);
    match ask(alloc, line, &mut scratch) {
        Ok(asked) => try_asked(alloc, farm, line, asked, moment, refused),
        Err(told) => without_entries(alloc, farm, &told, refused),
    }
}

// What is asked, on a copy of the farm.
fn try_asked(
    alloc: Global,
    farm: &Farm,
    line: &[u8],
    asked: Asked,
    moment: u64,
    refused: Option<u32>,
) -> Result<Trial, TrialFault>
    requires asks { (asks : Request) × (request_of line.now ≡ Ok asks) × (asked ≡ asked_of asks) }
    requires formed { IsFormedAsked asked }
    requires unbooked { IsUnbooked asked }
    ensures { Tries farm.now (λ mark. unless_memory mark (asked_answer farm.now moment mark asked)) refused result }
{
    match asked {
        Asked::Report(report) => try_report(alloc, farm, line, report, moment, refused),
        Asked::Act(act) => try_act(alloc, farm, Entry { moment, act }, refused),
        Asked::List(query) => {
            let told = answer_list(alloc, farm, query);
            without_entries(alloc, farm, &told, refused)
        }
    }
}

// A line that makes no entry, by the line of its reply. Where that tells that memory ran out, so does this.
fn without_entries(
    alloc: Global,
    farm: &Farm,
    told: &ReplyLine,
    refused: Option<u32>,
) -> Result<Trial, TrialFault>
    ensures replied { (reply : Reply) → IsLineOf reply (shown told.now) → Tries farm.now (λ mark. only_reply reply) refused result }
    ensures memory { shown told.now ≡ reply_text replies.NoMemory ++ 10 ∷ [] → result ≡ Err fault.NoMemory }
{
    let reply = text_of(alloc, told)?;
    if refused.is_some() {
        return Err(TrialFault::NoSuch);
    }
    let farm = farm.copy(alloc)?;
    Ok(reply_alone(alloc, farm, reply))
}

/// No entry, and this reply.
pub(crate) fn reply_alone(alloc: Global, farm: Farm, reply: Items<u8>) -> Trial
    ensures { result ≡ record { farm = farm; entries = []; ends = []; stored = false; reply = reply; further = None } }
{
    Trial {
        farm,
        entries: Items::new(alloc),
        ends: Items::new(alloc),
        stored: false,
        reply,
        further: None,
    }
}

/// The text of a reply, by its line. The only error is that memory ran out, for the reply too.
pub(crate) fn text_of(alloc: Global, told: &ReplyLine) -> Result<Items<u8>, AllocError>
    ensures { IfOk result (IsTextOf (shown told.now)) }
{
    let line = told.bytes();
    if line == ReplyLine::NoMemory.bytes() {
        return Err(AllocError);
    }
    Ok(Items::from_vec(Vec::from_slice(alloc, without_newline(line))?))
}

/// The line without its newline.
pub(crate) fn without_newline(line: &[u8]) -> &[u8]
    ensures { (text : List ℕ) → line.now ≡ text ++ 10 ∷ [] → result.now ≡ text }
{
    if line.is_empty() {
        return line;
    }
    &line[..line.len() - 1]
}
