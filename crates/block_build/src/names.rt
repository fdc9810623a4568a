ghost use Rattle.std.specs.Prelude.{◌≡◌, ◌<◌, length};
ghost use Rattle.block_build.specs.Names.{block_name};

use desk_io::Text;
use std::marker::Model;

/// The names of blocks, each at the number of its block.
pub struct BlockNames {
    names: Vec<Text>,
}

impl Drop for BlockNames {
    fn drop(self) {
        let Self { names: _ } = self;
    }
}

impl Model for BlockNames {
    ghost use Rattle.std.specs.Prelude.{List, ℕ};

    ghost Value = { List (List ℕ) };

    ghost view = { λ n. n.names.items };
}

impl BlockNames {
    /// These names, which are those of the blocks 0, 1, 2 and so on.
    pub fn of(names: Vec<Text>) -> BlockNames
        ensures { result ≡ names.items }
    {
        BlockNames { names }
    }

    /// The name of the block of a number, counted from 0.
    pub fn name(&self, number: usize) -> &str
        requires { number < length self.now }
        ensures { result.now ≡ block_name self.now number }
    {
        self.names[number].as_str()
    }
}
