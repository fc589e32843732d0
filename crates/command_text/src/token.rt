//! The five tokens of a command.

ghost use Rattle.std.specs.Prelude.{◌∷◌, MatchOption};
ghost use Rattle.command_text.specs.Tokens.{mark, IsAbsent, IsAfter, Strips};

/// A token of a command, by what stands in its place.
#[derive(Clone, Copy)]
pub(crate) enum Token {
    /// `#ZFRAME#`: the frame's number in four places.
    PlacedNumber,
    /// `#IFRAME#`: the frame's number.
    PlainNumber,
    /// `#LAYER#`: the name of the layer.
    Layer,
    /// `#JOB#`: the name of the job.
    Job,
    /// `#FRAME#`: the name of the frame.
    FrameName,
}

/// The token that a `#` right before the text begins, and what follows it.
pub(crate) fn strip_token(text: &str) -> Option<(Token, &str)>
    ensures { Strips (mark ∷ text.now) result }
{
    if let Some(rest) = text_after(text, "ZFRAME#") {
        Some((Token::PlacedNumber, rest))
    } else if let Some(rest) = text_after(text, "IFRAME#") {
        Some((Token::PlainNumber, rest))
    } else if let Some(rest) = text_after(text, "LAYER#") {
        Some((Token::Layer, rest))
    } else if let Some(rest) = text_after(text, "JOB#") {
        Some((Token::Job, rest))
    } else if let Some(rest) = text_after(text, "FRAME#") {
        Some((Token::FrameName, rest))
    } else {
        None
    }
}

// What follows the word in a text that begins with it, both of them behind a `#`.
fn text_after<'a>(text: &'a str, word: &str) -> Option<&'a str>
    ensures { MatchOption result (IsAbsent (mark ∷ word.now) (mark ∷ text.now)) (λ rest. IsAfter (mark ∷ word.now) (mark ∷ text.now) rest.now) }
{
    text.strip_prefix(word)
}
