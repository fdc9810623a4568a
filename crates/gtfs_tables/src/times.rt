ghost use Rattle.std.specs.Prelude.{◌≡◌, ◌+◌, ◌<◌, ◌≤◌, IfOk, IfSome, if◌then◌else◌, Some, None};
ghost use Rattle.gtfs_tables.specs.Times as spec;
ghost use Rattle.gtfs_tables.specs.declared.times.TheConstants.{LAST_SECOND};

use crate::spaces::without_spaces;
use desk_io::{Memory, Text};
use std::alloc::Global;

/// The last second of a time of the service day, 99:59:59.
pub const LAST_SECOND: u32 = 359_999;

// The value of two decimal digits. The first is at most `most`.
fn pair(most: u8, tens: u8, ones: u8) -> Option<u32>
    requires { most ≤ 57 }
    ensures value { result ≡ (if spec.is_pair most tens ones then Some (spec.pair_value tens ones) else None) }
{
    if (b'0'..=most).contains(&tens) && ones.is_ascii_digit() {
        Some(10 * u32::from(tens - b'0') + u32::from(ones - b'0'))
    } else {
        None
    }
}

// The seconds of `HH:MM:SS`.
fn full_time(text: [u8; 8]) -> Option<u32>
    ensures value { result ≡ spec.full_time text }
    ensures bound { IfSome result (λ seconds. seconds ≤ LAST_SECOND) }
{
    let hours = pair(b'9', text[0], text[1])?;
    let minutes = pair(b'5', text[3], text[4])?;
    let seconds = pair(b'5', text[6], text[7])?;
    if text[2] != b':' || text[5] != b':' {
        return None;
    }
    Some(3600 * hours + 60 * minutes + seconds)
}

/// The seconds of a time of the service day, at most 359,999. It has one or two digits of hours, and minutes and seconds of two
/// digits from 00 to 59, with colons between. Spaces may be round it. None exactly where the text has another form.
pub fn read_time(text: &str) -> Option<u32>
    ensures value { result ≡ spec.seconds_of text.now }
    ensures bound { IfSome result (λ seconds. seconds ≤ LAST_SECOND) }
{
    match *without_spaces(text.as_bytes()) {
        [h, a, m, n, b, s, t] => full_time([b'0', h, a, m, n, b, s, t]),
        [g, h, a, m, n, b, s, t] => full_time([g, h, a, m, n, b, s, t]),
        _ => None,
    }
}

// The minute of `HH:MM`.
fn full_minute(text: [u8; 5]) -> Option<u16>
    ensures value { result ≡ spec.full_minute text }
    ensures bound { IfSome result (λ minute. minute ≤ spec.rounded_down LAST_SECOND) }
{
    let hours = pair(b'9', text[0], text[1])?;
    let minutes = pair(b'5', text[3], text[4])?;
    if text[2] != b':' {
        return None;
    }
    Some((60 * hours + minutes) as u16)
}

/// The minute of a time of the service day without seconds, at most 5,999. It has one or two digits of hours, a colon, and two
/// digits from 00 to 59. Spaces may be round it. None exactly where the text has another form.
pub fn read_minute(text: &str) -> Option<u16>
    ensures value { result ≡ spec.minute_of text.now }
    ensures bound { IfSome result (λ minute. minute ≤ spec.rounded_down LAST_SECOND) }
{
    match *without_spaces(text.as_bytes()) {
        [h, a, m, n] => full_minute([b'0', h, a, m, n]),
        [g, h, a, m, n] => full_minute([g, h, a, m, n]),
        _ => None,
    }
}

/// A second of the service day as a minute, rounded down.
pub fn minute_down(seconds: u32) -> u16
    requires { seconds ≤ LAST_SECOND }
    ensures value { result ≡ spec.rounded_down seconds }
    ensures bound { result ≤ spec.rounded_down LAST_SECOND }
{
    (seconds / 60) as u16
}

/// A second of the service day as a minute, rounded up.
pub fn minute_up(seconds: u32) -> u16
    requires { seconds ≤ LAST_SECOND }
    ensures value { result ≡ spec.rounded_up seconds }
    ensures bound { result ≤ spec.rounded_up LAST_SECOND }
{
    seconds.div_ceil(60) as u16
}

/// A minute of the service day as `HH:MM`, with hours in at least two digits.
pub fn minute_text(alloc: Global, minute: u16) -> Result<Text, Memory>
    ensures { IfOk result (λ text. text ≡ spec.minute_digits minute) }
{
    let hours = minute / 60;
    let minutes = minute % 60;
    Ok(Text::wrap(format!(in alloc; "{hours:02}:{minutes:02}")?))
}
