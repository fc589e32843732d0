//! Reading words.

ghost use Rattle.std.specs.Prelude.{option_map};
ghost use Rattle.cue_words.specs.Commands.{by_name, helped, words_of};
ghost use Rattle.cue_words.specs.Results.{IsWords};

use crate::asked::{ToolWords, WordsFault};
use crate::commands::ask;
use crate::depend::depend;
use crate::submit::submit;
use farm_types::Text;
use std::alloc::Global;

/// What the words ask for, the first of them the command: the line of a request, with its fields as the words give them, or the help text. `spec` is the
/// text of the file that `submit` names. The names and amounts in a line are the scheduler's to judge.
#[tactic(auto, unfolding(crate::specs::Commands::words_of))]
pub fn read_words(
    alloc: Global,
    words: &[Text],
    spec: Option<&str>,
) -> Result<ToolWords, WordsFault>
    ensures { IsWords result (words_of words.now (option_map (λ text. text.now) spec.entry)) }
{
    match words {
        [] => Err(WordsFault::Usage { at: 0 }),
        [name, words @ ..] => read_command(alloc, name.as_str(), words, spec),
    }
}

// The command of that name, with the words after it.
fn read_command(
    alloc: Global,
    name: &str,
    words: &[Text],
    spec: Option<&str>,
) -> Result<ToolWords, WordsFault>
    ensures { IsWords result (by_name name.now words.now (option_map (λ text. text.now) spec.entry)) }
{
    match name {
        "submit" => submit(alloc, words, spec),
        "depend" => depend(alloc, words),
        "help" => help(words),
        _ => ask(alloc, name, words),
    }
}

// The help text, which one word asks for.
fn help(words: &[Text]) -> Result<ToolWords, WordsFault>
    ensures { IsWords result (helped words.now) }
{
    if words.is_empty() {
        Ok(ToolWords::Help)
    } else {
        Err(WordsFault::Usage { at: 1 })
    }
}
