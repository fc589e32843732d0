//! The request of a depend.

ghost use Rattle.std.specs.Prelude.{◌≡◌, OnOk};
ghost use Rattle.farm_lines.specs.RequestText.{depend_line};
ghost use Rattle.object_writer.specs.Tokens.{added, tokens_of};

use crate::requests::members::{write_frame_if, write_text_if};
use farm_types::DependSpec;
use object_writer::ObjectWriter;
use state_names::kind_word;
use std::alloc::AllocError;

/// A depend: its kind and its two ends.
pub fn write_depend(out: &mut ObjectWriter, spec: &DependSpec) -> Result<(), AllocError>
    ensures { OnOk result (out.new ≡ added out.old (tokens_of (depend_line spec.now))) }
{
    out.begin_object()?;
    out.truth("any", spec.any)?;
    write_frame_if(out, "frame", spec.waiter.frame)?;
    out.text("job", spec.waiter.job.as_str())?;
    out.text("kind", kind_word(spec.kind))?;
    write_text_if(out, "layer", &spec.waiter.layer)?;
    write_frame_if(out, "on_frame", spec.target.frame)?;
    out.text("on_job", spec.target.job.as_str())?;
    write_text_if(out, "on_layer", &spec.target.layer)?;
    out.text("op", "depend")?;
    out.end_object()
}
