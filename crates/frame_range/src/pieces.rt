//! Cutting a set's text at its commas.

ghost use Rattle.std.specs.Prelude.{◌≡◌, ◌<◌, [], ◌∷◌, length, IfNone, IfSome};
ghost use Rattle.std.specs.List.{position};
ghost use Rattle.frame_range.specs.Sets.{is_comma, pieces};

/// Where the first comma stands.
fn comma_at(text: &[u8]) -> Option<usize>
    ensures value { result ≡ position is_comma text.now }
    ensures within { IfSome result (λ at. at < length text.now) }
{
    text.iter().position(|byte| *byte == b',')
}

/// The text before the first comma and the text after it; None where there is no comma.
pub fn cut_at_comma(text: &[u8]) -> Option<(&[u8], &[u8])>
    ensures last { IfNone result (pieces text.now ≡ text.now ∷ []) }
    ensures first { IfSome result (λ cut. pieces text.now ≡ cut.0.now ∷ pieces cut.1.now) }
    ensures shorter { IfSome result (λ cut. length cut.1.now < length text.now) }
{
    match comma_at(text) {
        None => None,
        Some(at) => Some((&text[..at], &text[at + 1..])),
    }
}
