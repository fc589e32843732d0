//! Reading a number of a section. A number of any count of digits is read; one out of range is capped just past it.

ghost use Rattle.std.specs.Prelude.{◌≡◌, ℕ, ◌≤◌, min};
ghost use Rattle.std.specs.Option.{option_map, IfSome};
ghost use Rattle.frame_range.specs.declared.limits.TheConstants.{CAP};
ghost use Rattle.frame_range.specs.Number.{digits_at, number_at};
ghost use Rattle.frame_range.specs.Capped.{capped};

use crate::limits::CAP;

/// What the digits write, or the cap where that is more.
fn read_digits(digits: &[u8]) -> Option<u32>
    ensures value { result ≡ option_map (λ n. min n CAP) (digits_at digits.now) }
    ensures capped { IfSome result (λ n. n ≤ CAP) }
{
    if digits.is_empty() {
        return None;
    }
    let mut value: u32 = 0;
    for digit in digits {
        if !digit.is_ascii_digit() {
            return None;
        }
        value = (value * 10 + u32::from(*digit - b'0')).min(CAP);
    }
    Some(value)
}

/// The number that the text writes, capped; None where it writes none.
pub fn read_number(text: &[u8]) -> Option<i32>
    ensures { result ≡ option_map capped (number_at text.now) }
{
    match text {
        [b'-', digits @ ..] => match read_digits(digits) {
            Some(value) => Some(-(value as i32)),
            None => None,
        },
        digits => match read_digits(digits) {
            Some(value) => Some(value as i32),
            None => None,
        },
    }
}
