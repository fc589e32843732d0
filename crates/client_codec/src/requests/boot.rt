//! The request of a host's boot.

ghost use Rattle.std.specs.Prelude.{◌≡◌, OnOk};
ghost use Rattle.farm_lines.specs.RequestText.{boot_line};
ghost use Rattle.object_writer.specs.Tokens.{added, tokens_of};

use crate::requests::members::write_texts;
use farm_types::BootLine;
use object_writer::ObjectWriter;
use std::alloc::AllocError;

/// A host's boot: cores in hundredths of a core, memory in KB.
#[tactic(auto, unfolding(farm_lines::specs::RequestText::boot_line))]
pub fn write_boot(out: &mut ObjectWriter, line: &BootLine) -> Result<(), AllocError>
    ensures { OnOk result (out.new ≡ added out.old (tokens_of (boot_line line.now))) }
{
    out.begin_object()?;
    out.text("alloc", line.alloc.as_str())?;
    out.cores("cores", line.cores)?;
    out.text("host", line.host.as_str())?;
    out.memory("memory", line.memory)?;
    out.whole("nonce", line.nonce)?;
    out.text("op", "boot")?;
    write_texts(out, "tags", line.tags.as_slice())?;
    out.end_object()
}
