//! Texts of digits.

ghost use Rattle.std.specs.Prelude.{◌≡◌, ◌<◌, ◌^◌};
ghost use Rattle.std.specs.List.{list_all};
ghost use Rattle.std.specs.Option.{IfSome};
ghost use Rattle.farm_lines.specs.Points.{is_digit, is_number_text, number_of};

// How many digits a number has at most, with the zeros in front.
const MOST_DIGITS: usize = 10;

/// The number that 1 to 10 decimal digits write.
pub fn number_of(text: &str) -> Option<u64>
    ensures value { result ≡ number_of 10 text.now }
    ensures small { IfSome result (λ n. n < 10 ^ 10) }
{
    if is_number(text, MOST_DIGITS) {
        text.parse().ok()
    } else {
        None
    }
}

/// Whether the text is 1 to `most` decimal digits.
pub fn is_number(text: &str, most: usize) -> bool
    ensures { result ≡ is_number_text most text.now }
{
    1 <= text.len() && text.len() <= most && are_digits(text.as_bytes())
}

// Whether each byte is a decimal digit.
fn are_digits(bytes: &[u8]) -> bool
    ensures { result ≡ list_all is_digit bytes.now }
{
    bytes.iter().all(|b| b.is_ascii_digit())
}
