//! The request of a limit.

ghost use Rattle.std.specs.Prelude.{◌≡◌, OnOk};
ghost use Rattle.farm_lines.specs.RequestText.{limit_line};
ghost use Rattle.object_writer.specs.Tokens.{added, tokens_of};

use object_writer::ObjectWriter;
use std::alloc::AllocError;

/// A limit: its name, and how many frames run at most in it.
#[tactic(auto, unfolding(farm_lines::specs::RequestText::limit_line))]
pub fn write_limit(out: &mut ObjectWriter, name: &str, most: u32) -> Result<(), AllocError>
    ensures { OnOk result (out.new ≡ added out.old (tokens_of (limit_line name.now most))) }
{
    out.begin_object()?;
    out.whole("most", u64::from(most))?;
    out.text("name", name)?;
    out.text("op", "limit")?;
    out.end_object()
}
