//! Amounts of cores as texts.

ghost use Rattle.std.specs.Prelude.{◌≡◌, ◌<◌, ◌≤◌, ◌^◌};
ghost use Rattle.std.specs.Option.{IfSome};
ghost use Rattle.farm_lines.specs.Points.{cores_of, hundredths_of, is_digit, is_number_text, number_of};
ghost use Rattle.std.specs.List.{list_all};

use crate::points::split_at_point;
use farm_types::Cores;

/// The amount that a cores text says, in hundredths of a core: 1 to 5 digits, which a point and 1 or 2 more may follow.
/// `2.5` is 250. None exactly where the text isn't a cores text.
pub fn read_cores(text: &str) -> Option<Cores>
    ensures { result ≡ cores_of text.now }
{
    let (whole, part) = split_at_point(text);
    let whole = read_digits(whole, 5)?;
    let hundredths = match part {
        Some(part) => read_hundredths(part)?,
        None => 0,
    };
    Some(Cores(100 * whole + hundredths))
}

// The hundredths that the digits after the point stand for.
fn read_hundredths(part: &str) -> Option<u32>
    ensures value { result ≡ hundredths_of part.now }
    ensures small { IfSome result (λ n. n < 1000) }
{
    let digits = read_digits(part, 2)?;
    Some(if part.len() == 1 { 10 * digits } else { digits })
}

// The number that 1 to `most` digits write.
fn read_digits(text: &str, most: usize) -> Option<u32>
    requires { most ≤ 5 }
    ensures value { result ≡ number_of most text.now }
    ensures small { IfSome result (λ n. n < 10 ^ most) }
{
    if is_number(text, most) {
        text.parse().ok()
    } else {
        None
    }
}

// Whether the text is 1 to `most` digits.
fn is_number(text: &str, most: usize) -> bool
    ensures { result ≡ is_number_text most text.now }
{
    1 <= text.len() && text.len() <= most && are_digits(text.as_bytes())
}

// Whether each byte is a decimal digit.
fn are_digits(bytes: &[u8]) -> bool
    ensures { result ≡ list_all is_digit bytes.now }
{
    bytes.iter().all(|b| b.is_ascii_digit())
}
