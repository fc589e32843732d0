//! Commands with their tokens replaced.

ghost use Rattle.std.specs.Prelude.{◌≡◌, ◌∷◌, ◌++◌, IfOk, OnOk, string_bytes};
ghost use Rattle.farm_types.specs.Names.{expanded};
ghost use Rattle.command_text.specs.Steps.{IsStep};
ghost use Rattle.command_text.specs.Tokens.{mark, meaning_of};

use crate::frame_names::{write_frame_name, write_places};
use crate::token::{Token, strip_token};
use farm_types::Text;
use std::alloc::{AllocError, Global};

/// A layer's command for one of its frames: `#ZFRAME#` becomes the frame's number in four places, `#IFRAME#` the
/// number itself, `#LAYER#` and `#JOB#` the names, and `#FRAME#` the frame's name. Every other byte stays. It goes once
/// from the left, and what was put in isn't looked at again. The only error is that memory ran out.
pub fn expand(
    alloc: Global,
    command: &str,
    job: &str,
    layer: &str,
    number: i32,
) -> Result<Text, AllocError>
    ensures { IfOk result (λ text. text ≡ expanded command.now job.now layer.now number) }
{
    let names = Names { job, layer, number };
    let mut expanded = String::with_capacity(alloc, command.len())?;
    let mut rest = command;
    while let Some((plain, after)) = rest.split_once('#') {
        expanded.push_str(plain)?;
        rest = names.replace_mark(&mut expanded, after)?;
    }
    expanded.push_str(rest)?;
    Ok(Text::from_string(expanded))
}

// What a command's tokens speak of: a frame, by its number and the names of its layer and its job.
#[derive(Drop)]
struct Names<'a> {
    job: &'a str,
    layer: &'a str,
    number: i32,
}

impl Names<'_> {
    // Writes what stands for a `#` and its token, or the `#` itself where none begins there, and gives what follows.
    fn replace_mark<'t>(&self, expanded: &mut String, after: &'t str) -> Result<&'t str, AllocError>
        ensures { IfOk result (λ rest. IsStep self.now (string_bytes expanded.old) (mark ∷ after.now) (string_bytes expanded.new) rest.now) }
    {
        match strip_token(after) {
            Some((token, rest)) => {
                self.write_meaning(expanded, token)?;
                Ok(rest)
            }
            None => {
                expanded.push('#')?;
                Ok(after)
            }
        }
    }

    // Writes what stands in a token's place.
    fn write_meaning(&self, expanded: &mut String, token: Token) -> Result<(), AllocError>
        ensures { OnOk result (string_bytes expanded.new
            ≡ string_bytes expanded.old ++ meaning_of self.now.job.now self.now.layer.now self.now.number token) }
    {
        match token {
            Token::PlacedNumber => write_places(expanded, self.number),
            Token::PlainNumber => expanded.push_str(itoa::Buffer::new().format(self.number)),
            Token::Layer => expanded.push_str(self.layer),
            Token::Job => expanded.push_str(self.job),
            Token::FrameName => write_frame_name(expanded, self.number, self.layer),
        }
    }
}
