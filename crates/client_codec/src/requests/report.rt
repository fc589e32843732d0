//! The request that is a host's report.

ghost use Rattle.std.specs.Prelude.{◌≡◌, ◌∷◌, OnOk, map, true};
ghost use Rattle.json.specs.Token.{key};
ghost use Rattle.serde_json.specs.Data.{array};
ghost use Rattle.serde_json.specs.View.{items_of};
ghost use Rattle.farm_lines.specs.RequestText.{done_item_data, report_line};
ghost use Rattle.object_writer.specs.Tokens.{added, tokens_of};
ghost use Rattle.object_writer.specs.Written.{is_plain};

use crate::requests::members::write_cores_if;
use farm_lines::{Report, write_attempts};
use farm_types::DoneItem;
use object_writer::ObjectWriter;
use std::alloc::AllocError;

/// A report: what is done, and what runs.
#[tactic(auto, unfolding(farm_lines::specs::RequestText::report_line))]
pub fn write_report(out: &mut ObjectWriter, report: &Report) -> Result<(), AllocError>
    ensures { OnOk result (out.new ≡ added out.old (tokens_of (report_line report.now))) }
{
    out.begin_object()?;
    out.whole("boot", u64::from(report.heard.boot))?;
    write_done(out, "done", report.heard.done.as_slice())?;
    out.text("host", report.heard.host.as_str())?;
    out.text("op", "report")?;
    write_attempts(out, "running", report.running.as_slice())?;
    out.whole("seq", report.heard.seq)?;
    out.end_object()
}

fn write_done(out: &mut ObjectWriter, name: &str, items: &[DoneItem]) -> Result<(), AllocError>
    requires { is_plain name.now ≡ true }
    ensures { OnOk result (out.new ≡ added out.old (key name.now ∷ tokens_of (array (items_of (map done_item_data items.now))))) }
{
    out.begin_list(name)?;
    for item in items {
        write_done_item(out, item)?;
    }
    out.end_list()
}

// A completion, with the free cores (hundredths of a core) where they are told.
fn write_done_item(out: &mut ObjectWriter, item: &DoneItem) -> Result<(), AllocError>
    ensures { OnOk result (out.new ≡ added out.old (tokens_of (done_item_data item.now))) }
{
    out.begin_object()?;
    write_cores_if(out, "free", item.free)?;
    out.whole("signal", u64::from(item.exit.signal))?;
    out.slot("slot", item.attempt.slot)?;
    out.whole("status", u64::from(item.exit.status))?;
    out.version("version", item.attempt.version)?;
    out.end_object()
}
