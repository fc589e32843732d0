//! The request to kill, eat or retry a frame.

ghost use Rattle.std.specs.Prelude.{◌≡◌, OnOk};
ghost use Rattle.farm_lines.specs.RequestText.{frame_line};
ghost use Rattle.object_writer.specs.Tokens.{added, tokens_of};

use crate::requests::members::write_frame_number;
use farm_types::FramePlace;
use object_writer::ObjectWriter;
use std::alloc::AllocError;

/// What is asked of a frame of a layer of a job.
#[tactic(auto, unfolding(farm_lines::specs::RequestText::frame_line))]
pub fn write_frame(out: &mut ObjectWriter, word: &str, place: &FramePlace) -> Result<(), AllocError>
    ensures { OnOk result (out.new ≡ added out.old (tokens_of (frame_line word.now place.now))) }
{
    out.begin_object()?;
    write_frame_number(out, "frame", place.frame)?;
    out.text("job", place.job.as_str())?;
    out.text("layer", place.layer.as_str())?;
    out.text("op", word)?;
    out.end_object()
}
