ghost use Rattle.std.specs.Prelude.{◌≡◌, ◌<◌, [], length, All, slice_index_or, slice_index};

use std::marker::Model;

/// The slots of the trips that one vehicle makes one after the other.
pub struct Block {
    pub(crate) slots: Vec<u16>,
}

impl Drop for Block {
    fn drop(self) {
        let Self { slots: _ } = self;
    }
}

impl Model for Block {
    ghost use Rattle.std.specs.Prelude.{List, ℕ};

    ghost Value = { List ℕ };

    ghost view = { λ b. b.slots.items };
}

/// The blocks of a timetable, each the slots of the trips that one vehicle makes one after the other, one trip at least.
pub struct Blocks {
    pub(crate) blocks: Vec<Block>,
}

impl Drop for Blocks {
    fn drop(self) {
        let Self { blocks: _ } = self;
    }
}

impl Model for Blocks {
    ghost use Rattle.std.specs.Prelude.{List, ℕ, ◌<◌, length, All};

    ghost Value = { List (List ℕ) };

    ghost view = { λ b. b.blocks.items };

    ghost invariant = { λ b. All (λ block. 0 < length block) b.blocks.items };
}

impl Blocks {
    /// How many blocks there are, which is how many vehicles. Each has a trip.
    pub fn len(&self) -> usize
        ensures count { result ≡ length self.now }
        ensures filled { All (λ block. 0 < length block) self.now }
    {
        self.blocks.len()
    }

    /// The slots of a block, in the order of its trips. Blocks are numbered from 0 here, and printed from 1.
    pub fn block(&self, number: usize) -> &[u16]
        requires { number < length self.now }
        ensures { result.now ≡ slice_index_or self.now number [] }
    {
        let block = &self.blocks[number];
        &block.slots
    }
}
