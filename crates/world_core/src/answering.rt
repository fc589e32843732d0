//! A line that comes to the scheduler.

ghost use Rattle.std.specs.Prelude.{◌≡◌, ◌≤◌, ◌<◌, ◌++◌, IfOk, List, None, OnErr, OnOk, Option, map, option_copied, option_to_list, slice_get, ℕ};
ghost use Rattle.std.specs.Vec.{vec_capacity, vec_len};
ghost use Rattle.world_law.specs.declared.event.Event.TheVariants as events;
ghost use Rattle.world_law.specs.declared.counted.Counted.{Counted};
ghost use Rattle.world_law.specs.Counting.{count_of, counts_from};
ghost use Rattle.world_law.specs.World as worlds;
ghost use Rattle.world_core.specs.Answering.{Installs, IsCounted, IsCountedIf, IsTurn, Puts, Turns, history_if, left_if, reply_if};
ghost use Rattle.world_core.specs.Stepping.{Comes};
ghost use Rattle.world_answers.specs.Trials.{TriesLine};

use crate::history::History;
use crate::parts::Parts;
use farm_types::{DoneItem, Entry, Items};
use std::alloc::{AllocError, Global};
use std::mem;
use world_answers::{Further, Trial, TrialFault, try_line};
use world_law::{Counted, Sent, Told, WorldFault};

/// What an answer changes: the history that is left, what the refused commit would have made, whether a row was changed,
/// the entries, and the line to the host.
#[derive(Drop)]
pub struct Turn {
    pub now: History,
    pub made: Option<History>,
    pub stored: bool,
    pub entries: Items<Entry>,
    pub told: Option<Told>,
}

/// The completions that are counted after a line, and those where its refused commit is there; none of these where no commit was refused.
#[derive(Drop)]
pub(crate) struct Counts {
    pub now: Items<Counted>,
    pub made: Items<Counted>,
}

impl Parts {
    // A line comes to the scheduler, which answers it.
    pub(crate) fn answer(
        &mut self,
        alloc: Global,
        line: u32,
        moment: u64,
        refused: Option<u32>,
    ) -> Result<(), WorldFault>
        ensures { Comes self.old (events.ToCue line moment refused) result self.new }
    {
        let Some(sent) = sent_at(self.sent.as_slice(), line) else {
            return Err(WorldFault::NoSuch);
        };
        let host = sent.host;
        match try_sent(alloc, &self.now, sent, moment, refused) {
            Ok(trial) => self.install(alloc, line, host, trial),
            Err(TrialFault::NoSuch) => Err(WorldFault::NoSuch),
            Err(TrialFault::NoMemory) => Err(WorldFault::NoMemory),
        }
    }

    // The line was answered so.
    fn install(
        &mut self,
        alloc: Global,
        line: u32,
        host: Option<u32>,
        trial: Trial,
    ) -> Result<(), WorldFault>
        ensures { Installs self.old line host trial result self.new }
    {
        match turn_of(alloc, &self.now, line, host, trial) {
            Ok(turn) => self.put_turn(alloc, turn),
            Err(_) => Err(WorldFault::NoMemory),
        }
    }

    // What an answer changes is put in.
    fn put_turn(&mut self, alloc: Global, turn: Turn) -> Result<(), WorldFault>
        ensures { Turns self.old turn result self.new }
    {
        put_parts(
            alloc,
            &mut self.now,
            &mut self.further,
            &mut self.entries,
            &mut self.told,
            turn,
        )
    }
}

// What an answer changes, by what the line comes to.
fn turn_of(
    alloc: Global,
    history: &History,
    line: u32,
    host: Option<u32>,
    trial: Trial,
) -> Result<Turn, AllocError>
    ensures { IfOk result (IsTurn history.now line host trial) }
{
    match counts_of(alloc, &history.counted, line, host, &trial) {
        Ok(counts) => Ok(turn_with(host, trial, counts)),
        Err(_) => {
            drop(trial);
            Err(AllocError)
        }
    }
}

// What an answer changes, by the completions that are counted then.
fn turn_with(host: Option<u32>, trial: Trial, counts: Counts) -> Turn
    ensures { (before : worlds.History) → (line : ℕ) → IsCounted before.counted line host trial counts → IsTurn before line host trial result }
{
    Turn {
        now: History {
            farm: trial.farm,
            counted: counts.now,
        },
        made: history_if(trial.further, counts.made),
        stored: trial.stored,
        entries: trial.entries,
        told: reply_if(host, trial.reply),
    }
}

// The completions that are counted after the line, and those where the refused commit is there.
fn counts_of(
    alloc: Global,
    counted: &Items<Counted>,
    line: u32,
    host: Option<u32>,
    trial: &Trial,
) -> Result<Counts, AllocError>
    ensures { IfOk result (IsCounted counted.now line host trial.now) }
{
    let now = counted_with(alloc, counted, line, host, trial.ends.as_slice())?;
    let made = counted_if(alloc, counted, line, host, &trial.further)?;
    Ok(Counts { now, made })
}

// Those where the refused commit is there, if one was refused.
fn counted_if(
    alloc: Global,
    counted: &Items<Counted>,
    line: u32,
    host: Option<u32>,
    further: &Option<Further>,
) -> Result<Items<Counted>, AllocError>
    ensures { IfOk result (λ made. IsCountedIf counted.now line host further.now made) }
{
    match further {
        None => Ok(Items::new(alloc)),
        Some(further) => counted_with(alloc, counted, line, host, further.ends.as_slice()),
    }
}

// It is put into these, unless memory runs out.
fn put_parts(
    alloc: Global,
    now: &mut History,
    further: &mut Vec<History>,
    entries: &mut Items<Entry>,
    told: &mut Items<Told>,
    turn: Turn,
) -> Result<(), WorldFault>
    ensures { Puts now.old further.old.items entries.old told.old turn result now.new further.new.items entries.new told.new }
{
    match put_all(alloc, now, further, entries, told, turn) {
        Ok(()) => Ok(()),
        Err(_) => Err(WorldFault::NoMemory),
    }
}

// All lists grow before anything changes.
fn put_all(
    alloc: Global,
    now: &mut History,
    further: &mut Vec<History>,
    entries: &mut Items<Entry>,
    told: &mut Items<Told>,
    turn: Turn,
) -> Result<(), AllocError>
    ensures now { OnOk result (now.new ≡ turn.now) }
    ensures further { OnOk result (further.new.items ≡ left_if turn.stored further.old.items ++ option_to_list turn.made) }
    ensures entries { OnOk result (entries.new ≡ entries.old ++ turn.entries) }
    ensures told { OnOk result (told.new ≡ told.old ++ option_to_list turn.told) }
    ensures same_now { OnErr result (now.new ≡ now.old) }
    ensures same_further { OnErr result (further.new.items ≡ further.old.items) }
    ensures same_entries { OnErr result (entries.new ≡ entries.old) }
    ensures same_told { OnErr result (told.new ≡ told.old) }
{
    match further.reserve(1) {
        Ok(()) => put_in_room(alloc, now, further, entries, told, turn),
        Err(_) => {
            drop(turn);
            Err(AllocError)
        }
    }
}

// The same, with room for what the refused commit would have made.
fn put_in_room(
    alloc: Global,
    now: &mut History,
    further: &mut Vec<History>,
    entries: &mut Items<Entry>,
    told: &mut Items<Told>,
    turn: Turn,
) -> Result<(), AllocError>
    requires { vec_len further.old < vec_capacity further.old }
    ensures now { OnOk result (now.new ≡ turn.now) }
    ensures further { OnOk result (further.new.items ≡ left_if turn.stored further.old.items ++ option_to_list turn.made) }
    ensures entries { OnOk result (entries.new ≡ entries.old ++ turn.entries) }
    ensures told { OnOk result (told.new ≡ told.old ++ option_to_list turn.told) }
    ensures same_now { OnErr result (now.new ≡ now.old) }
    ensures same_further { OnErr result (further.new.items ≡ further.old.items) }
    ensures same_entries { OnErr result (entries.new ≡ entries.old) }
    ensures same_told { OnErr result (told.new ≡ told.old) }
{
    let Turn {
        now: next,
        made,
        stored,
        entries: more,
        told: reply,
    } = turn;
    match push_all(alloc, entries, more, told, reply) {
        Ok(()) => {
            drop(mem::replace(now, next));
            leave(further, stored, made);
            Ok(())
        }
        Err(_) => {
            drop(next);
            drop(made);
            Err(AllocError)
        }
    }
}

// The line of that number.
fn sent_at(sent: &[Sent], line: u32) -> Option<&Sent>
    ensures { option_copied result ≡ slice_get sent.now line }
{
    sent.get(line as usize)
}

// What the line comes to.
fn try_sent(
    alloc: Global,
    history: &History,
    sent: &Sent,
    moment: u64,
    refused: Option<u32>,
) -> Result<Trial, TrialFault>
    ensures { TriesLine history.now.farm sent.now.line moment refused result }
{
    try_line(
        alloc,
        &history.farm,
        sent.line.as_str().as_bytes(),
        moment,
        refused,
    )
}

// A row that changed empties the further histories, and what the refused commit would have made goes behind the others.
fn leave(further: &mut Vec<History>, stored: bool, made: Option<History>)
    requires { vec_len further.old < vec_capacity further.old }
    ensures { further.new.items ≡ left_if stored further.old.items ++ option_to_list made }
{
    clear_if(further, stored);
    if let Some(history) = made {
        further.push_reserved(history);
    }
}

// A row that changed empties them. The room stays.
fn clear_if(further: &mut Vec<History>, stored: bool)
    ensures items { further.new.items ≡ left_if stored further.old.items }
    ensures len { vec_len further.new ≤ vec_len further.old }
    ensures capacity { vec_capacity further.new ≡ vec_capacity further.old }
{
    if stored {
        further.clear();
    }
}

// The completions that were counted, with those of a line.
fn counted_with(
    alloc: Global,
    counted: &Items<Counted>,
    line: u32,
    host: Option<u32>,
    ends: &[DoneItem],
) -> Result<Items<Counted>, AllocError>
    ensures { IfOk result (λ all. all ≡ counted.now ++ counts_from line host ends.now) }
{
    let all = counted.copy(alloc)?;
    match host {
        None => Ok(all),
        Some(host) => with_ends(all, line, host, ends),
    }
}

// The completions of a host's line go behind the others.
fn with_ends(
    counted: Items<Counted>,
    line: u32,
    host: u32,
    ends: &[DoneItem],
) -> Result<Items<Counted>, AllocError>
    ensures { IfOk result (λ all. all ≡ counted ++ map (count_of line host) ends.now) }
{
    let mut all = counted;
    for end in ends {
        all.push(Counted {
            attempt: end.attempt,
            host,
            exit: end.exit,
            line,
        })?;
    }
    Ok(all)
}

// What the refused commit would have made, where there is one.
fn history_if(further: Option<Further>, counted: Items<Counted>) -> Option<History>
    ensures { (before : List Counted) → (line : ℕ) → (host : Option ℕ) → IsCountedIf before line host further counted → result ≡ history_if before line host further }
{
    match further {
        None => {
            drop(counted);
            None
        }
        Some(further) => Some(history_with(further, counted)),
    }
}

// What the refused commit would have made.
fn history_with(further: Further, counted: Items<Counted>) -> History
    ensures { result ≡ record { farm = further.farm; counted = counted } }
{
    History {
        farm: further.farm,
        counted,
    }
}

// A reply to a host's line is sent to that host.
fn reply_if(host: Option<u32>, line: Items<u8>) -> Option<Told>
    ensures { result ≡ reply_if host line }
{
    let host = host?;
    Some(Told { host, line })
}

// The entries go behind the others, and the reply too, where it is sent.
fn push_all(
    alloc: Global,
    entries: &mut Items<Entry>,
    more: Items<Entry>,
    told: &mut Items<Told>,
    reply: Option<Told>,
) -> Result<(), AllocError>
    ensures entries { OnOk result (entries.new ≡ entries.old ++ more) }
    ensures told { OnOk result (told.new ≡ told.old ++ option_to_list reply) }
    ensures same_entries { OnErr result (entries.new ≡ entries.old) }
    ensures same_told { OnErr result (told.new ≡ told.old) }
{
    let mut all = mem::replace(entries, Items::new(alloc)).into_vec();
    let mut lines = mem::replace(told, Items::new(alloc)).into_vec();
    let pushed = push_with_room(&mut all, more, &mut lines, reply);
    *entries = Items::from_vec(all);
    *told = Items::from_vec(lines);
    pushed
}

// The same for vectors.
fn push_with_room(
    entries: &mut Vec<Entry>,
    more: Items<Entry>,
    told: &mut Vec<Told>,
    reply: Option<Told>,
) -> Result<(), AllocError>
    ensures entries { OnOk result (entries.new.items ≡ entries.old.items ++ more) }
    ensures told { OnOk result (told.new.items ≡ told.old.items ++ option_to_list reply) }
    ensures same_entries { OnErr result (entries.new.items ≡ entries.old.items) }
    ensures same_told { OnErr result (told.new.items ≡ told.old.items) }
{
    told.reserve(1)?;
    let mut more = more.into_vec();
    entries.append(&mut more)?;
    push_reply(told, reply);
    Ok(())
}

// The reply goes behind the others, where it is sent.
fn push_reply(told: &mut Vec<Told>, reply: Option<Told>)
    requires { vec_len told.old < vec_capacity told.old }
    ensures { told.new.items ≡ told.old.items ++ option_to_list reply }
{
    if let Some(reply) = reply {
        told.push_reserved(reply);
    }
}
