ghost use Rattle.std.specs.Prelude.{◌≡◌};

use desk_io::Text;
use std::marker::Model;

/// The lines of a journal in their order, seen as the list of their bytes.
pub struct Lines {
    lines: Vec<Text>,
}

impl Drop for Lines {
    fn drop(self) {
        let Self { lines: _ } = self;
    }
}

impl Model for Lines {
    ghost use Rattle.desk_keeper.specs.Keeper.{Journal};

    ghost Value = { Journal };

    ghost view = { λ l. l.lines.items };
}

impl Lines {
    /// Takes over the vector, and takes no memory.
    pub fn wrap(lines: Vec<Text>) -> Lines
        ensures { result ≡ lines.items }
    {
        Lines { lines }
    }

    pub fn as_slice(&self) -> &[Text]
        ensures { result.now ≡ self.now }
    {
        &self.lines
    }
}
