ghost use Rattle.std.specs.Prelude.{◌≡◌, ◌^◌, ◌<◌, ◌≤◌, IfSome, length};
ghost use Rattle.gtfs_tables.specs.Numbers as spec;

use crate::spaces::without_spaces;

/// The value of one digit or more, at most `most` of them; leading zeros are allowed. None exactly where the bytes have another form.
pub fn digits_number(digits: &[u8], most: u32) -> Option<u64>
    requires { most ≤ 18 }
    ensures value { result ≡ spec.digits_number most digits.now }
    ensures bound { IfSome result (λ number. number < 10 ^ most) }
{
    if digits.is_empty() || digits.len() > most as usize {
        return None;
    }
    let mut number = 0u64;
    for digit in digits {
        if !digit.is_ascii_digit() {
            return None;
        }
        number = 10 * number + u64::from(*digit - b'0');
    }
    Some(number)
}

/// The value of a number of one to `digits` decimal digits, with any spaces round them; leading zeros are allowed.
/// None exactly where the text has another form.
pub fn read_number(text: &str, digits: u32) -> Option<u64>
    requires { digits ≤ 18 }
    ensures value { result ≡ spec.number_of digits text.now }
    ensures bound { IfSome result (λ number. number < 10 ^ digits) }
{
    digits_number(without_spaces(text.as_bytes()), digits)
}
