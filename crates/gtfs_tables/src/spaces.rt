ghost use Rattle.std.specs.Prelude.{◌≡◌};
ghost use Rattle.gtfs_tables.specs.Spaces as spec;

// The text without the spaces at its front.
fn after_spaces(text: &[u8]) -> &[u8]
    ensures { result.now ≡ spec.after_spaces text.now }
{
    let mut rest = text;
    'spaces: while let [b' ', tail @ ..] = rest {
        rest = tail;
    }
    rest
}

// The text without the spaces at its end.
fn before_spaces(text: &[u8]) -> &[u8]
    ensures { result.now ≡ spec.before_spaces text.now }
{
    let mut rest = text;
    'spaces: while let [front @ .., b' '] = rest {
        rest = front;
    }
    rest
}

/// The text without the spaces, bytes of 20 hexadecimal, at both ends.
pub fn without_spaces(text: &[u8]) -> &[u8]
    ensures { result.now ≡ spec.without_spaces text.now }
{
    before_spaces(after_spaces(text))
}
