//! The request of a subscription.

ghost use Rattle.std.specs.Prelude.{◌≡◌, OnOk};
ghost use Rattle.farm_lines.specs.RequestText.{sub_line};
ghost use Rattle.object_writer.specs.Tokens.{added, tokens_of};

use farm_types::SubLine;
use object_writer::ObjectWriter;
use std::alloc::AllocError;

/// A subscription: size and burst in hundredths of a core.
#[tactic(auto, unfolding(farm_lines::specs::RequestText::sub_line))]
pub fn write_sub(out: &mut ObjectWriter, line: &SubLine) -> Result<(), AllocError>
    ensures { OnOk result (out.new ≡ added out.old (tokens_of (sub_line line.now))) }
{
    out.begin_object()?;
    out.text("alloc", line.alloc.as_str())?;
    out.cores("burst", line.burst)?;
    out.text("op", "sub")?;
    out.text("show", line.show.as_str())?;
    out.cores("size", line.size)?;
    out.end_object()
}
