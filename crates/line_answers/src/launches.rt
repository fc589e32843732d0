//! What the reply to a report orders: acknowledgements, kills and launches.

ghost use Rattle.std.specs.Prelude.{◌≡◌, ◌∷◌, [], IfOk, OnOk, option_to_list};
ghost use Rattle.std.specs.List.{list_any};
ghost use Rattle.farm_lines.specs.Reply.{acks_of, kills_of, launches_of, launch_data, launch_for, launch_of, due_in, is_due, is_listed};
ghost use Rattle.farm_types.specs.Run.{is_same};
ghost use Rattle.line_answers.specs.Launches.{HasWritten, Writes, due_at, launch_by, told};
ghost use Rattle.object_writer.specs.Tokens.{added, tokens_of};

use command_text::{expand, frame_name};
use dispatcher::farm_core::Farm;
use farm_lines::LAUNCHES_EACH;
use farm_types::{
    Attempt, DoneItem, Frame, HeardAct, HostNo, Items, JobRow, LayerRow, ProcRow, Slot, SlotRow,
};
use object_writer::ObjectWriter;
use report_codec::{LaunchText, Launches, write_launch};
use std::alloc::{AllocError, Global};

/// The attempts that the report says are done, in order.
pub fn acks(alloc: Global, done: &[DoneItem]) -> Result<Items<Attempt>, AllocError>
    ensures { IfOk result (λ acks. acks ≡ acks_of done.now) }
{
    let mut acks = Items::new(alloc);
    for item in done {
        acks.push(item.attempt)?;
    }
    Ok(acks)
}

/// The attempts that the report says are running and that aren't live on this host and boot, in order.
pub fn kills(
    alloc: Global,
    farm: &Farm,
    host: HostNo,
    boot: u32,
    running: &[Attempt],
) -> Result<Items<Attempt>, AllocError>
    ensures { IfOk result (λ kills. kills ≡ kills_of farm.now host boot running.now) }
{
    let mut kills = Items::new(alloc);
    for attempt in running {
        if !farm.books().is_live(host, boot, *attempt) {
            kills.push(*attempt)?;
        }
    }
    Ok(kills)
}

/// The launches of a report's reply, as they are written over the farm: those of the first live attempts on this host and boot, by slot, that the report
/// doesn't list, up to the limit of a reply.
#[derive(Drop)]
pub(crate) struct DueLaunches<'f> {
    pub farm: &'f Farm,
    pub host: HostNo,
    pub heard: &'f HeardAct,
    pub running: &'f [Attempt],
}

impl Launches for DueLaunches<'_> {
    ghost use Rattle.std.specs.Prelude.{◌≡◌, ◌∷◌, IfOk, OnOk, true};
    ghost use Rattle.json.specs.Token.{key};
    ghost use Rattle.farm_lines.specs.Reply.{launches_data};
    ghost use Rattle.line_answers.specs.Launches.{launches_due};
    ghost use Rattle.object_writer.specs.Tokens.{added, tokens_of};
    ghost use Rattle.object_writer.specs.Written.{is_plain};
    ghost use Rattle.report_codec.specs.Launches.{attempts_in};

    ghost launches = { λ due. launches_due due };

    fn write(
        &self,
        alloc: Global,
        out: &mut ObjectWriter,
        name: &str,
    ) -> Result<Items<Attempt>, AllocError>
        requires { is_plain name.now ≡ true }
        ensures text { OnOk result (out.new ≡ added out.old (key name.now ∷ tokens_of (launches_data (launches_due self.now)))) }
        ensures attempts { IfOk result (λ attempts. attempts ≡ attempts_in (launches_due self.now)) }
    {
        out.begin_list(name)?;
        let launched = write_due(alloc, out, self.farm, self.host, self.heard, self.running)?;
        out.end_list()?;
        Ok(launched)
    }
}

// Writes the launches, and gives their attempts. The host's own attempts are walked.
fn write_due(
    alloc: Global,
    out: &mut ObjectWriter,
    farm: &Farm,
    host: HostNo,
    heard: &HeardAct,
    running: &[Attempt],
) -> Result<Items<Attempt>, AllocError>
    ensures { IfOk result (λ launched. HasWritten out.old (launches_of farm.now host (told heard.now running.now)) out.new launched) }
{
    let mut launched = Items::new(alloc);
    let mut next = farm.books().first_attempt(host);
    while let Some(slot) = next {
        if launched.len() >= LAUNCHES_EACH as usize {
            return Ok(launched);
        }
        write_at(alloc, out, &mut launched, farm, host, heard, running, slot)?;
        next = farm.books().next_attempt(slot);
    }
    Ok(launched)
}

// Writes the launch of the slot's live attempt, where it is due.
fn write_at(
    alloc: Global,
    out: &mut ObjectWriter,
    launched: &mut Items<Attempt>,
    farm: &Farm,
    host: HostNo,
    heard: &HeardAct,
    running: &[Attempt],
    slot: Slot,
) -> Result<(), AllocError>
    ensures { OnOk result (Writes out.old launched.old (option_to_list (due_at farm.now host (told heard.now running.now) slot)) out.new launched.new) }
{
    match farm.books().slot(slot) {
        None => Ok(()),
        Some(row) => write_in(alloc, out, launched, farm, host, heard, running, &row),
    }
}

// Writes the launch of the live attempt in the slot of that row, where it is due.
fn write_in(
    alloc: Global,
    out: &mut ObjectWriter,
    launched: &mut Items<Attempt>,
    farm: &Farm,
    host: HostNo,
    heard: &HeardAct,
    running: &[Attempt],
    slot: &SlotRow,
) -> Result<(), AllocError>
    ensures { OnOk result (Writes out.old launched.old (option_to_list (due_in farm.now host (told heard.now running.now) slot.now)) out.new launched.new) }
{
    let Some(proc) = slot.proc else {
        return Ok(());
    };
    if !is_due_on(host, heard, running, &proc) {
        return Ok(());
    }
    write_launch_at(alloc, out, launched, farm, slot, &proc)
}

// Writes the launch of the slot's live attempt.
fn write_launch_at(
    alloc: Global,
    out: &mut ObjectWriter,
    launched: &mut Items<Attempt>,
    farm: &Farm,
    slot: &SlotRow,
    proc: &ProcRow,
) -> Result<(), AllocError>
    ensures { OnOk result (Writes out.old launched.old (option_to_list (launch_of farm.now slot.now proc.now)) out.new launched.new) }
{
    let Some(frame) = slot.frame else {
        return Ok(());
    };
    let Some(job) = farm.books().job(frame.job) else {
        return Ok(());
    };
    let Some(layer) = farm.books().layer(frame.job, frame.layer) else {
        return Ok(());
    };
    write_launch_of(alloc, out, launched, proc, &frame, job, layer)
}

// Writes a launch, the names of the job and of the layer from the farm's rows themselves, and adds its attempt.
fn write_launch_of(
    alloc: Global,
    out: &mut ObjectWriter,
    launched: &mut Items<Attempt>,
    proc: &ProcRow,
    frame: &Frame,
    job: &JobRow,
    layer: &LayerRow,
) -> Result<(), AllocError>
    ensures { OnOk result (Writes out.old launched.old (launch_for proc.now frame.now job.now layer.now ∷ []) out.new launched.new) }
{
    let command = expand(
        alloc,
        layer.command.as_str(),
        job.name.as_str(),
        layer.name.as_str(),
        frame.number,
    )?;
    let name = frame_name(alloc, frame.number, layer.name.as_str())?;
    launched.push(Attempt {
        slot: proc.slot,
        version: proc.version,
    })?;
    write_names(
        out,
        proc,
        command.as_str(),
        name.as_str(),
        job.name.as_str(),
        layer.name.as_str(),
    )
}

// Writes a launch by its texts and its live attempt.
fn write_names<'t>(
    out: &mut ObjectWriter,
    proc: &ProcRow,
    command: &'t str,
    frame: &'t str,
    job: &'t str,
    layer: &'t str,
) -> Result<(), AllocError>
    ensures { OnOk result (out.new ≡ added out.old (tokens_of (launch_data (launch_by proc.now command.now frame.now job.now layer.now)))) }
{
    write_launch(
        out,
        &LaunchText {
            attempt: Attempt {
                slot: proc.slot,
                version: proc.version,
            },
            command,
            cores: proc.cores,
            frame,
            job,
            layer,
            memory: proc.memory,
        },
    )
}

// Whether the live attempt is on this host and boot and the report doesn't list it.
fn is_due_on(host: HostNo, heard: &HeardAct, running: &[Attempt], proc: &ProcRow) -> bool
    ensures { result ≡ is_due host (told heard.now running.now) proc.now }
{
    let attempt = Attempt {
        slot: proc.slot,
        version: proc.version,
    };
    proc.host == host && proc.boot == heard.boot && !is_listed(heard, running, &attempt)
}

// Whether the report lists the attempt as running or as done.
fn is_listed(heard: &HeardAct, running: &[Attempt], attempt: &Attempt) -> bool
    ensures { result ≡ is_listed (told heard.now running.now) attempt.now }
{
    is_running(running, attempt) || is_done(heard.done.as_slice(), attempt)
}

fn is_running(running: &[Attempt], attempt: &Attempt) -> bool
    ensures { result ≡ list_any (is_same attempt.now) running.now }
{
    running.iter().any(|other| same(attempt, other))
}

fn is_done(done: &[DoneItem], attempt: &Attempt) -> bool
    ensures { result ≡ list_any (λ item. is_same attempt.now item.attempt) done.now }
{
    done.iter().any(|item| same(attempt, &item.attempt))
}

fn same(one: &Attempt, other: &Attempt) -> bool
    ensures { result ≡ is_same one.now other.now }
{
    one.slot == other.slot && one.version == other.version
}
