ghost use Rattle.std.specs.Prelude.{◌≡◌, ◌+◌, ◌<◌, ◌^◌, [], drop, slice_index_or, IfOk, OnOk};
ghost use Rattle.block_names.specs.Names as names;
ghost use Rattle.block_names.specs.Numbered.{free_from};

use desk_io::{Memory, Text};
use desk_settings::Names;
use std::alloc::Global;

/// The numbers from one on that were not tried yet, and how many they are. They are wide, so that no sum is too large.
#[derive(Drop)]
pub(crate) struct Untried {
    pub(crate) number: u128,
    pub(crate) left: u128,
}

// The prefix and a number.
fn numbered(alloc: Global, prefix: &str, number: u128) -> Result<Text, Memory>
    ensures { IfOk result (λ name. name ≡ names.name_numbered prefix.now number) }
{
    Ok(Text::wrap(format!(in alloc; "{prefix}{number}")?))
}

/// The next free name: of those numbered the next that is not stated. It is empty where none is left.
pub(crate) fn next_free(
    alloc: Global,
    prefix: &str,
    stated: &Names,
    untried: &mut Untried,
) -> Result<Text, Memory>
    requires room { untried.old.number + untried.old.left < 2 ^ 128 }
    ensures name { IfOk result (λ name. name
        ≡ slice_index_or (free_from prefix.now stated.now untried.old.number untried.old.left) 0 []) }
    ensures rest { OnOk result (free_from prefix.now stated.now untried.new.number untried.new.left
        ≡ drop 1 (free_from prefix.now stated.now untried.old.number untried.old.left)) }
    ensures room { untried.new.number + untried.new.left ≡ untried.old.number + untried.old.left }
{
    while untried.left > 0 {
        let number = untried.number;
        untried.number += 1;
        untried.left -= 1;
        let name = numbered(alloc, prefix, number)?;
        if !stated.has(name.as_str()) {
            return Ok(name);
        }
    }
    Ok(Text::wrap(String::new(alloc)))
}
