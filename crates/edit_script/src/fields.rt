ghost use Rattle.std.specs.Prelude.{◌≡◌, ◌<◌, ◌≤◌, IfSome, length, pos, unsigned_abs};
ghost use Rattle.std.specs.Option.{option_map};
ghost use Rattle.trip_model.specs.declared.limits.TheConstants.{LAST_DEPARTURE};
ghost use Rattle.edit_script.specs.declared.edit.TheConstants.{MOST_SHIFT};
ghost use Rattle.edit_script.specs.Forms as spec;

use crate::MOST_SHIFT;
use gtfs_tables::{Row, digits_number, read_minute, without_spaces};

/// The number of fields up to the last that is not empty.
pub(crate) fn filled(row: &Row) -> usize
    ensures { result ≡ spec.filled row.now }
{
    let mut filled = 0;
    for n in 0..row.len() {
        if !row.field(n).is_empty() {
            filled = n + 1;
        }
    }
    filled
}

/// The text of a field, where it is UTF-8.
pub(crate) fn text_in(field: &[u8]) -> Option<&str>
    ensures { option_map (λ text. text.now) result ≡ spec.text_in field.now }
{
    match str::from_utf8(field) {
        Ok(text) => Some(text),
        Err(_) => None,
    }
}

/// The name in a field, where it is UTF-8 and not empty.
pub(crate) fn name_in(field: &[u8]) -> Option<&str>
    ensures name { option_map (λ name. name.now) result ≡ spec.name_in field.now }
    ensures filled { IfSome result (λ name. 0 < length name.now) }
{
    if field.is_empty() {
        return None;
    }
    text_in(field)
}

/// The minute in a field.
pub(crate) fn minute_in(field: &[u8]) -> Option<u16>
    ensures minute { result ≡ spec.minute_in field.now }
    ensures within { IfSome result (λ minute. minute ≤ LAST_DEPARTURE) }
{
    read_minute(text_in(field)?)
}

// The minutes of a shift, of one to three digits.
fn minutes(digits: &[u8]) -> Option<u16>
    ensures value { result ≡ spec.minutes digits.now }
    ensures within { IfSome result (λ n. (0 < n) × (n ≤ MOST_SHIFT)) }
{
    match digits_number(digits, 3) {
        Some(number) if number > 0 && number <= u64::from(MOST_SHIFT) => Some(number as u16),
        _ => None,
    }
}

/// The shift in a field: minutes, with or without a sign, and spaces round it.
pub(crate) fn shift_in(field: &[u8]) -> Option<i16>
    ensures value { result ≡ spec.shift_in field.now }
    ensures within { IfSome result (λ by. (0 < unsigned_abs by) × (unsigned_abs by ≤ MOST_SHIFT)) }
{
    match without_spaces(field) {
        [b'-', digits @ ..] => Some(-(minutes(digits)? as i16)),
        [b'+', digits @ ..] => Some(minutes(digits)? as i16),
        digits => Some(minutes(digits)? as i16),
    }
}
