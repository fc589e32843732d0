//! The reply to a list.

ghost use Rattle.std.specs.Prelude.{◌≡◌, ◌∷◌, codes, OnOk};
ghost use Rattle.json.specs.Token.{key};
ghost use Rattle.farm_lines.specs.ListReplies.{depend_row_data, frame_row_data, host_row_data, job_row_data, layer_row_data, limit_row_data, list_data, list_row_data, list_rows_data, name_data, proc_row_data, sub_row_data};
ghost use Rattle.object_writer.specs.Tokens.{added, tokens_of};

use farm_lines::{
    ListReply, ListRow, ShownDepend, ShownFrame, ShownHost, ShownJob, ShownLayer, ShownLimit,
    ShownProc, ShownSub,
};
use object_writer::ObjectWriter;
use state_names::{host_word, job_word, kind_word, lock_word, state_word};
use std::alloc::AllocError;

/// The reply to a list: its rows, and how many there are in all. Cores in hundredths of a core, memory in KB.
#[tactic(auto, unfolding(farm_lines::specs::ListReplies::list_data))]
pub fn write_list(out: &mut ObjectWriter, list: &ListReply) -> Result<(), AllocError>
    ensures { OnOk result (out.new ≡ added out.old (tokens_of (list_data list.now.rows list.now.total))) }
{
    out.begin_object()?;
    out.truth("ok", true)?;
    write_rows(out, list.rows.as_slice())?;
    out.whole("total", list.total)?;
    out.end_object()
}

// The rows, in order.
fn write_rows(out: &mut ObjectWriter, rows: &[ListRow]) -> Result<(), AllocError>
    ensures { OnOk result (out.new ≡ added out.old (key (codes "rows") ∷ tokens_of (list_rows_data rows.now))) }
{
    out.begin_list("rows")?;
    for row in rows {
        write_row(out, row)?;
    }
    out.end_list()
}

// A row of a list.
fn write_row(out: &mut ObjectWriter, row: &ListRow) -> Result<(), AllocError>
    ensures { OnOk result (out.new ≡ added out.old (tokens_of (list_row_data row.now))) }
{
    match row {
        ListRow::Name { name } => write_name(out, name.as_str()),
        ListRow::Sub(sub) => write_sub(out, sub),
        ListRow::Limit(limit) => write_limit(out, limit),
        ListRow::Host(host) => write_host(out, host),
        ListRow::Job(job) => write_job(out, job),
        ListRow::Layer(layer) => write_layer(out, layer),
        ListRow::Frame(frame) => write_frame(out, frame),
        ListRow::Depend(depend) => write_depend(out, depend),
        ListRow::Proc(proc) => write_proc(out, proc),
    }
}

#[tactic(auto, unfolding(farm_lines::specs::ListReplies::name_data))]
fn write_name(out: &mut ObjectWriter, name: &str) -> Result<(), AllocError>
    ensures { OnOk result (out.new ≡ added out.old (tokens_of (name_data name.now))) }
{
    out.begin_object()?;
    out.text("name", name)?;
    out.end_object()
}

#[tactic(auto, unfolding(farm_lines::specs::ListReplies::sub_row_data))]
fn write_sub(out: &mut ObjectWriter, sub: &ShownSub) -> Result<(), AllocError>
    ensures { OnOk result (out.new ≡ added out.old (tokens_of (sub_row_data sub.now))) }
{
    out.begin_object()?;
    out.text("alloc", sub.alloc.as_str())?;
    out.cores("booked", sub.booked)?;
    out.cores("burst", sub.burst)?;
    out.text("show", sub.show.as_str())?;
    out.cores("size", sub.size)?;
    out.end_object()
}

#[tactic(auto, unfolding(farm_lines::specs::ListReplies::limit_row_data))]
fn write_limit(out: &mut ObjectWriter, limit: &ShownLimit) -> Result<(), AllocError>
    ensures { OnOk result (out.new ≡ added out.old (tokens_of (limit_row_data limit.now))) }
{
    out.begin_object()?;
    out.whole("most", u64::from(limit.most))?;
    out.text("name", limit.name.as_str())?;
    out.whole("running", u64::from(limit.running))?;
    out.end_object()
}

#[tactic(auto, unfolding(farm_lines::specs::ListReplies::host_row_data))]
fn write_host(out: &mut ObjectWriter, host: &ShownHost) -> Result<(), AllocError>
    ensures { OnOk result (out.new ≡ added out.old (tokens_of (host_row_data host.now))) }
{
    out.begin_object()?;
    out.text("alloc", host.alloc.as_str())?;
    out.whole("boot", u64::from(host.boot))?;
    out.cores("cores", host.cores)?;
    out.whole("heard", host.heard)?;
    out.text("lock", lock_word(host.lock))?;
    out.memory("memory", host.memory)?;
    out.text("name", host.name.as_str())?;
    out.text("state", host_word(host.state))?;
    out.cores("used_cores", host.used_cores)?;
    out.memory("used_memory", host.used_memory)?;
    out.end_object()
}

#[tactic(auto, unfolding(farm_lines::specs::ListReplies::job_row_data))]
fn write_job(out: &mut ObjectWriter, job: &ShownJob) -> Result<(), AllocError>
    ensures { OnOk result (out.new ≡ added out.old (tokens_of (job_row_data job.now))) }
{
    out.begin_object()?;
    out.whole("dead", u64::from(job.dead))?;
    out.whole("depend", u64::from(job.depend))?;
    out.whole("eaten", u64::from(job.eaten))?;
    out.text("name", job.name.as_str())?;
    out.truth("paused", job.paused)?;
    out.whole("priority", u64::from(job.priority))?;
    out.whole("running", u64::from(job.running))?;
    out.text("show", job.show.as_str())?;
    out.text("state", job_word(job.state))?;
    out.whole("succeeded", u64::from(job.succeeded))?;
    out.whole("waiting", u64::from(job.waiting))?;
    out.end_object()
}

#[tactic(auto, unfolding(farm_lines::specs::ListReplies::layer_row_data))]
fn write_layer(out: &mut ObjectWriter, layer: &ShownLayer) -> Result<(), AllocError>
    ensures { OnOk result (out.new ≡ added out.old (tokens_of (layer_row_data layer.now))) }
{
    out.begin_object()?;
    out.cores("cores", layer.cores)?;
    out.whole("dead", u64::from(layer.dead))?;
    out.whole("depend", u64::from(layer.depend))?;
    out.whole("eaten", u64::from(layer.eaten))?;
    out.text("limit", layer.limit.as_str())?;
    out.memory("memory", layer.memory)?;
    out.text("name", layer.name.as_str())?;
    out.text("range", layer.range.as_str())?;
    out.whole("running", u64::from(layer.running))?;
    out.whole("succeeded", u64::from(layer.succeeded))?;
    out.whole("waiting", u64::from(layer.waiting))?;
    out.end_object()
}

#[tactic(auto, unfolding(farm_lines::specs::ListReplies::frame_row_data))]
fn write_frame(out: &mut ObjectWriter, frame: &ShownFrame) -> Result<(), AllocError>
    ensures { OnOk result (out.new ≡ added out.old (tokens_of (frame_row_data frame.now))) }
{
    out.begin_object()?;
    out.text("frame", frame.frame.as_str())?;
    out.whole("retries", u64::from(frame.retries))?;
    out.text("state", state_word(frame.state))?;
    out.version("version", frame.version)?;
    out.end_object()
}

#[tactic(auto, unfolding(farm_lines::specs::ListReplies::depend_row_data))]
fn write_depend(out: &mut ObjectWriter, depend: &ShownDepend) -> Result<(), AllocError>
    ensures { OnOk result (out.new ≡ added out.old (tokens_of (depend_row_data depend.now))) }
{
    out.begin_object()?;
    out.whole("depend", u64::from(depend.depend.0))?;
    out.text("kind", kind_word(depend.kind))?;
    out.truth("satisfied", depend.satisfied)?;
    out.end_object()
}

#[tactic(auto, unfolding(farm_lines::specs::ListReplies::proc_row_data))]
fn write_proc(out: &mut ObjectWriter, proc: &ShownProc) -> Result<(), AllocError>
    ensures { OnOk result (out.new ≡ added out.old (tokens_of (proc_row_data proc.now))) }
{
    out.begin_object()?;
    out.cores("cores", proc.cores)?;
    out.text("frame", proc.frame.as_str())?;
    out.text("host", proc.host.as_str())?;
    out.text("job", proc.job.as_str())?;
    out.memory("memory", proc.memory)?;
    out.slot("slot", proc.slot)?;
    out.version("version", proc.version)?;
    out.end_object()
}
