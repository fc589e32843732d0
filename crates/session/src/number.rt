//! Numbers in the words that a program is given.

ghost use Rattle.std.specs.Prelude.{◌≡◌, ◌≤◌};
ghost use Rattle.std.specs.Option.{IfSome};
ghost use Rattle.session.specs.Words.{checked_between, number_between};

use farm_lines::number_of;

/// The number that 1 to 10 decimal digits write, where it is one from `least` to `most`. Zeros may stand in front.
pub fn read_number(text: &str, least: u32, most: u32) -> Option<u32>
    ensures value { result ≡ number_between least most text.now }
    ensures least { IfSome result (λ n. least ≤ n) }
    ensures most { IfSome result (λ n. n ≤ most) }
{
    let value = number_of(text)?;
    checked_between(value, least, most)
}

// The number, where it is one from `least` to `most`.
fn checked_between(value: u64, least: u32, most: u32) -> Option<u32>
    ensures value { result ≡ checked_between least most value }
    ensures least { IfSome result (λ n. least ≤ n) }
    ensures most { IfSome result (λ n. n ≤ most) }
{
    if u64::from(least) <= value && value <= u64::from(most) {
        Some(value as u32)
    } else {
        None
    }
}
