ghost use Rattle.std.specs.Prelude.{◌≡◌, ◌+◌, ◌<◌, ◌^◌, option_map};
ghost use Rattle.block_writer.specs.Plain as spec;

use desk_io::{Bytes, Found};

// The number of fields of the line at hand after one byte more. None where a line ends that has not as many fields as it
// should, or where the byte is one that a plain text has not. Most bytes are above the comma, so these are told first.
fn fields_after(columns: usize, fields: usize, byte: u8) -> Option<usize>
    requires { fields + 1 < 2 ^ 64 }
    ensures { result ≡ spec.fields_after columns fields byte }
{
    if byte > b',' {
        if byte < 128 { Some(fields) } else { None }
    } else if byte == b',' {
        Some(fields + 1)
    } else if byte == b'\n' {
        if fields == columns { Some(1) } else { None }
    } else if byte == b'"' || byte == b'\r' {
        None
    } else {
        Some(fields)
    }
}

// Whether a text has a line or more, each of that many fields, which are two or more, and each ended by a line feed. All bytes
// must be ASCII, and none a double quote or a carriage return. Such a text is written as it came.
fn is_plain(columns: usize, text: &[u8]) -> bool
    ensures { result ≡ spec.is_plain columns text.now }
{
    if columns < 2 {
        return false;
    }
    let mut fields = 1;
    let mut last = 0;
    for &byte in text {
        match fields_after(columns, fields, byte) {
            Some(now) => fields = now,
            None => return false,
        }
        last = byte;
    }
    last == b'\n'
}

/// The bytes of a file whose text is plain: lines of that many fields, which are two or more. A writer writes them as they came.
pub(crate) fn plain_bytes(columns: usize, found: &Found) -> Option<&Bytes>
    ensures { option_map (λ bytes. bytes.now) result ≡ spec.plain_bytes columns found.now }
{
    match found {
        Found::File(bytes) if is_plain(columns, bytes.as_slice()) => Some(bytes),
        _ => None,
    }
}
