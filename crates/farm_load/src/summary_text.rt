//! The summary of a load as text.

ghost use Rattle.std.specs.Prelude.{◌≡◌, IfOk};
ghost use Rattle.farm_load.specs.Summaries.{summary_text};

use crate::summary::Summary;
use farm_types::Text;
use std::alloc::{AllocError, Global};

/// The four lines of a summary, each with its newline.
#[tactic(auto, unfolding(crate::specs::Summaries::summary_text))]
pub fn write_summary(alloc: Global, summary: &Summary) -> Result<Text, AllocError>
    ensures { IfOk result (λ text. text ≡ summary_text summary.now) }
{
    let Summary {
        frames,
        attempts,
        failed,
        rounds,
    } = *summary;
    let text = format!(in alloc;
        "frames {frames}\nattempts {attempts}\nfailed {failed}\nrounds {rounds}\n"
    )?;
    Ok(Text::from_string(text))
}
