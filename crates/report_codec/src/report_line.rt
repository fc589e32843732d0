//! A host's report, and its reply.

ghost use Rattle.std.specs.Prelude.{◌≡◌, ◌∷◌, IfOk, OnOk, true};
ghost use Rattle.json.specs.Token.{key};
ghost use Rattle.cue_json.specs.View.{members_view};
ghost use Rattle.cue_json.specs.Fields.{Gives};
ghost use Rattle.state_names.specs.Words.{cut_word};
ghost use Rattle.farm_lines.specs.declared.request.Request.TheVariants as request;
ghost use Rattle.farm_lines.specs.declared.reply.Reply.TheVariants as replies;
ghost use Rattle.farm_lines.specs.Reply.{launch_data, launches_data, reply_text, report_data};
ghost use Rattle.farm_lines.specs.Request.{asked, report_at};
ghost use Rattle.report_codec.specs.Launches.{attempts_in, launch_told};
ghost use Rattle.report_codec.specs.Reads.{IsRequest};
ghost use Rattle.object_writer.specs.Tokens.{added, tokens_of};
ghost use Rattle.object_writer.specs.Written.{is_plain};

use crate::done_reader::DoneReader;
use cue_json::{FieldFault, Map};
use farm_lines::{
    AttemptReader, Launch, Report, Request, RequestFault, read_list, read_name, write_attempts,
};
use farm_types::{Attempt, Cores, Cut, HeardAct, Items, Kb, LAST_BOOT};
use object_writer::ObjectWriter;
use state_names::cut_word;
use std::alloc::{AllocError, Global};

/// The report that the object is, or its first fault.
pub fn read_report(alloc: Global, object: &Map) -> Result<Request, RequestFault>
    ensures { IsRequest result (asked request.Report (report_at (members_view object.now.items))) }
{
    let report = report(alloc, object)?;
    Ok(Request::Report(report))
}

// A report's fields in order, and no others.
#[tactic(auto, unfolding(farm_lines::specs::Request::report_at))]
fn report(alloc: Global, object: &Map) -> Result<Report, FieldFault>
    ensures { Gives (λ report. report) result (report_at (members_view object.now.items)) }
{
    let host = read_name(alloc, object, "host")?;
    let boot = cue_json::whole(alloc, object, "boot", 1, u64::from(LAST_BOOT))?;
    let seq = cue_json::whole(alloc, object, "seq", 1, u64::MAX)?;
    let running = read_list(alloc, object, "running", &AttemptReader)?;
    let done = read_list(alloc, object, "done", &DoneReader)?;
    cue_json::no_others(
        alloc,
        object,
        &["boot", "done", "host", "op", "running", "seq"],
    )?;
    Ok(Report {
        heard: HeardAct {
            host,
            boot: boot as u32,
            seq,
            done,
        },
        running,
    })
}

/// The launches of a reply, as they are written.
pub trait Launches {
    ghost use Rattle.std.specs.Prelude.{◌≡◌, ◌∷◌, List, IfOk, OnOk, true};
    ghost use Rattle.json.specs.Token.{key};
    ghost use Rattle.farm_lines.specs.declared.launch.Launch.{Launch};
    ghost use Rattle.farm_lines.specs.Reply.{launches_data};
    ghost use Rattle.object_writer.specs.Tokens.{added, tokens_of};
    ghost use Rattle.object_writer.specs.Written.{is_plain};
    ghost use Rattle.report_codec.specs.Launches.{attempts_in};

    ghost launches: { Self → List Launch };

    /// Writes the member of that name, the list of them, and gives the attempts that they launch. Cores are in hundredths of a core, memory in KB.
    fn write(
        &self,
        alloc: Global,
        out: &mut ObjectWriter,
        name: &str,
    ) -> Result<Items<Attempt>, AllocError>
        requires { is_plain name.now ≡ true }
        ensures text { OnOk result (out.new ≡ added out.old (key name.now ∷ tokens_of (launches_data (launches self.now)))) }
        ensures attempts { IfOk result (λ attempts. attempts ≡ attempts_in (launches self.now)) };
}

impl Launches for Items<Launch> {
    ghost use Rattle.std.specs.Prelude.{◌≡◌, ◌∷◌, IfOk, OnOk, true};
    ghost use Rattle.json.specs.Token.{key};
    ghost use Rattle.farm_lines.specs.Reply.{launches_data};
    ghost use Rattle.object_writer.specs.Tokens.{added, tokens_of};
    ghost use Rattle.object_writer.specs.Written.{is_plain};
    ghost use Rattle.report_codec.specs.Launches.{attempts_in};

    ghost launches = { λ launches. launches };

    fn write(
        &self,
        alloc: Global,
        out: &mut ObjectWriter,
        name: &str,
    ) -> Result<Items<Attempt>, AllocError>
        requires { is_plain name.now ≡ true }
        ensures text { OnOk result (out.new ≡ added out.old (key name.now ∷ tokens_of (launches_data self.now))) }
        ensures attempts { IfOk result (λ attempts. attempts ≡ attempts_in self.now) }
    {
        write_launches(out, name, self.as_slice())?;
        attempts_in(alloc, self.as_slice())
    }
}

/// A reply as it was written, and the attempts that it launches.
#[derive(Drop)]
pub struct WrittenReport {
    pub bytes: Items<u8>,
    pub launched: Items<Attempt>,
}

/// The bytes of the reply to a report that was recorded, without a newline.
#[tactic(auto, using(object_writer::proofs::Printed::data_printed))]
pub fn write_report_reply<L: Launches>(
    alloc: Global,
    acks: &[Attempt],
    boot: u32,
    cut: Cut,
    kills: &[Attempt],
    launches: &L,
    seq: u64,
) -> Result<WrittenReport, AllocError>
    ensures text { IfOk result (λ written. written.bytes ≡ reply_text (replies.Report (record {
      acks = acks.now;
      boot = boot;
      cut = cut;
      kills = kills.now;
      launches = L.launches launches.now;
      seq = seq;
    }))) }
    ensures launched { IfOk result (λ written. written.launched ≡ attempts_in (L.launches launches.now)) }
{
    let mut out = ObjectWriter::new(alloc)?;
    let launched = write_report(alloc, &mut out, acks, boot, cut, kills, launches, seq)?;
    Ok(WrittenReport {
        bytes: out.into_bytes(),
        launched,
    })
}

/// The reply to a report, and the attempts that it launches. Cores are in hundredths of a core, memory in KB.
#[tactic(auto, unfolding(farm_lines::specs::Reply::report_data))]
pub(crate) fn write_report<L: Launches>(
    alloc: Global,
    out: &mut ObjectWriter,
    acks: &[Attempt],
    boot: u32,
    cut: Cut,
    kills: &[Attempt],
    launches: &L,
    seq: u64,
) -> Result<Items<Attempt>, AllocError>
    ensures text { OnOk result (out.new ≡ added out.old (tokens_of (report_data boot seq (cut_word cut) acks.now kills.now (L.launches launches.now)))) }
    ensures attempts { IfOk result (λ attempts. attempts ≡ attempts_in (L.launches launches.now)) }
{
    out.begin_object()?;
    write_attempts(out, "acks", acks)?;
    out.whole("boot", u64::from(boot))?;
    out.text("cut", cut_word(cut))?;
    write_attempts(out, "kills", kills)?;
    let launched = launches.write(alloc, out, "launches")?;
    out.truth("ok", true)?;
    out.whole("seq", seq)?;
    out.end_object()?;
    Ok(launched)
}

fn write_launches(out: &mut ObjectWriter, name: &str, launches: &[Launch]) -> Result<(), AllocError>
    requires { is_plain name.now ≡ true }
    ensures { OnOk result (out.new ≡ added out.old (key name.now ∷ tokens_of (launches_data launches.now))) }
{
    out.begin_list(name)?;
    for launch in launches {
        write_launch(
            out,
            &LaunchText {
                attempt: launch.attempt,
                command: launch.command.as_str(),
                cores: launch.cores,
                frame: launch.frame.as_str(),
                job: launch.job.as_str(),
                layer: launch.layer.as_str(),
                memory: launch.memory,
            },
        )?;
    }
    out.end_list()
}

// The attempts of launches.
fn attempts_in(alloc: Global, launches: &[Launch]) -> Result<Items<Attempt>, AllocError>
    ensures { IfOk result (λ attempts. attempts ≡ attempts_in launches.now) }
{
    let mut attempts = Items::new(alloc);
    for launch in launches {
        attempts.push(launch.attempt)?;
    }
    Ok(attempts)
}

/// What a launch tells.
#[derive(Drop)]
pub struct LaunchText<'a> {
    pub attempt: Attempt,
    pub command: &'a str,
    pub cores: Cores,
    pub frame: &'a str,
    pub job: &'a str,
    pub layer: &'a str,
    pub memory: Kb,
}

/// A launch as an item of their list: cores in hundredths of a core, memory in KB.
#[tactic(auto, unfolding(farm_lines::specs::Reply::launch_data))]
pub fn write_launch(out: &mut ObjectWriter, launch: &LaunchText<'_>) -> Result<(), AllocError>
    ensures { OnOk result (out.new ≡ added out.old (tokens_of (launch_data (launch_told launch.now)))) }
{
    out.begin_object()?;
    out.text("command", launch.command)?;
    out.cores("cores", launch.cores)?;
    out.text("frame", launch.frame)?;
    out.text("job", launch.job)?;
    out.text("layer", launch.layer)?;
    out.memory("memory", launch.memory)?;
    out.slot("slot", launch.attempt.slot)?;
    out.version("version", launch.attempt.version)?;
    out.end_object()
}
