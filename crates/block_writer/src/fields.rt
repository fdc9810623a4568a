ghost use Rattle.std.specs.Prelude.{◌≡◌, IsUtf8};

/// The text of a field that is UTF-8.
pub fn text_of(field: &[u8]) -> &str
    requires { IsUtf8 field.now }
    ensures { result.now ≡ field.now }
{
    match str::from_utf8(field) {
        Ok(text) => text,
        Err(_) => unreachable!(),
    }
}
