//! Numbers as words.

ghost use Rattle.std.specs.Prelude.{◌≡◌, option_map, pos};
ghost use Rattle.serde_json.specs.View.{view};
ghost use Rattle.farm_lines.specs.Points.{number_of};
ghost use Rattle.farm_lines.specs.Words.{signed};
ghost use Rattle.cue_words.specs.Parts.{negated, number_in};

use farm_lines::number_of;
use serde_json::Value;

/// The number of 1 to 10 digits that the word is, which a minus sign may come before.
pub fn read_number(word: &str) -> Option<i64>
    ensures { result ≡ number_in word.now }
{
    match word.strip_prefix('-') {
        Some(digits) => read_negative(digits),
        None => read_positive(word),
    }
}

// The digits' number below 0, or 0.
fn read_negative(digits: &str) -> Option<i64>
    ensures { result ≡ option_map negated (number_of 10 digits.now) }
{
    let number = number_of(digits)?;
    Some(-(number as i64))
}

// The digits' number.
fn read_positive(digits: &str) -> Option<i64>
    ensures { result ≡ option_map pos (number_of 10 digits.now) }
{
    let number = number_of(digits)?;
    Some(number as i64)
}

/// The number as a JSON value.
pub fn value_of(number: i64) -> Value
    ensures { view result ≡ signed number }
{
    Value::from(number)
}
