ghost use Rattle.std.specs.Prelude.{◌≡◌, ◌+◌, ◌<◌, ◌^◌, ◌∷◌, List, Option, ℕ, length, option_map, IfOk};
ghost use Rattle.desk_settings.specs.Names.{each_once};
ghost use Rattle.desk_settings.specs.Selected.{slot_field};
ghost use Rattle.block_build.specs.Names.{AreBlockNames};
ghost use Rattle.block_names.specs.Names as spec;
ghost use Rattle.block_names.specs.Numbered.{free_from};

use crate::free::{Untried, next_free};
use crate::laws::naming_law;
use crate::numbers::{blocks_asked, slot_taken};
use crate::stated::{name_at, names_of, numbers_of, text_of};
use block_build::{BlockNames, Blocks};
use desk_io::{Memory, Text};
use desk_settings::Names;
use std::alloc::Global;
use std::marker::Model;

/// How blocks are named: what numbered names begin with, and by slot the names that the feed states.
pub struct Naming {
    prefix: Text,
    stated: Vec<Text>,
}

impl Drop for Naming {
    fn drop(self) {
        let Self {
            prefix: _,
            stated: _,
        } = self;
    }
}

impl Model for Naming {
    ghost use Rattle.block_names.specs.Names.{NamingView};

    ghost Value = { NamingView };

    ghost view = { λ n. record { prefix = n.prefix; stated = n.stated.items } };
}

// The name of the next block: that of the slot whose name it takes, else the next free one.
fn next_name(
    alloc: Global,
    prefix: &str,
    stated: &[Text],
    names: &Names,
    taken: Option<usize>,
    untried: &mut Untried,
) -> Result<Text, Memory>
    requires room { untried.old.number + untried.old.left < 2 ^ 128 }
    ensures name { IfOk result (λ name. (rest : List (Option (List ℕ))) → spec.filled_up
        (free_from prefix.now names.now untried.old.number untried.old.left) (option_map (slot_field stated.now) taken ∷ rest)
        ≡ name ∷ spec.filled_up (free_from prefix.now names.now untried.new.number untried.new.left) rest) }
    ensures room { untried.new.number + untried.new.left ≡ untried.old.number + untried.old.left }
{
    match taken {
        Some(slot) => Text::of(alloc, name_at(stated, slot)),
        None => next_free(alloc, prefix, names, untried),
    }
}

impl Naming {
    /// By this prefix, and these names by slot. The name is empty where the feed states none.
    pub fn of(prefix: Text, stated: Vec<Text>) -> Naming
        ensures prefix { result.prefix ≡ prefix }
        ensures stated { result.stated ≡ stated.items }
    {
        Naming { prefix, stated }
    }

    /// The names of blocks.
    pub fn names(&self, alloc: Global, blocks: &Blocks) -> Result<BlockNames, Memory>
        ensures names { IfOk result (λ names. names ≡ spec.names_of self.now blocks.now) }
        // Each is a text that is not empty, and no two are the same.
        ensures valid { IfOk result (AreBlockNames (length blocks.now)) }
    {
        naming_law();
        let prefix = text_of(&self.prefix);
        let stated = names_of(alloc, &self.stated)?;
        let numbers = numbers_of(alloc, &stated, &self.stated)?;
        let asked = blocks_asked(alloc, &numbers, blocks, stated.len())?;
        let mut untried = Untried {
            number: 1,
            left: blocks.len() as u128 + self.stated.len() as u128,
        };
        let mut names = Vec::new(alloc);
        for number in 0..blocks.len() {
            let taken = slot_taken(&numbers, &asked, number, blocks.block(number));
            let name = next_name(alloc, prefix, &self.stated, &stated, taken, &mut untried)?;
            names.push(name)?;
        }
        Ok(BlockNames::of(names))
    }
}
