//! Texts with a point.

ghost use Rattle.std.specs.Prelude.{◌≡◌};
ghost use Rattle.std.specs.Option.{option_copied};
ghost use Rattle.farm_lines.specs.Points.{after_point, before_point};

/// What stands before the first point, and what follows it: all, and nothing, where there is no point.
pub fn split_at_point(text: &str) -> (&str, Option<&str>)
    ensures before { result.0.now ≡ before_point text.now }
    ensures after { option_copied result.1 ≡ after_point text.now }
{
    match text.split_once('.') {
        Some((before, after)) => (before, Some(after)),
        None => (text, None),
    }
}
