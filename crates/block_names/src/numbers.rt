ghost use Rattle.std.specs.Prelude.{◌≡◌, ◌<◌, length, map, slice_index_or, [], IfOk};
ghost use Rattle.std.specs.List.{range_with_len};
ghost use Rattle.trip_model.specs.Links.{leads_to};
ghost use Rattle.block_names.specs.Numbered as spec;

use crate::most::Most;
use block_build::Blocks;
use desk_io::Memory;
use std::alloc::Global;

// The number at a place, if there is one.
fn number_at(numbers: &[Option<usize>], place: usize) -> Option<usize>
    ensures { result ≡ spec.number_at numbers.now place }
{
    if place < numbers.len() {
        numbers[place]
    } else {
        None
    }
}

// Whether it is this number.
fn is(number: Option<usize>, other: usize) -> bool
    ensures { result ≡ leads_to other number }
{
    match number {
        Some(number) => number == other,
        None => false,
    }
}

// How many trips of a block have a number.
fn trips_numbered(numbers: &[Option<usize>], number: usize, block: &[u16]) -> usize
    ensures { result ≡ spec.trips_numbered numbers.now number block.now }
{
    let mut count = 0;
    for slot in block {
        if is(number_at(numbers, usize::from(*slot)), number) {
            count += 1;
        }
    }
    count
}

// Which block the name of a number asks for.
fn block_asked(numbers: &[Option<usize>], blocks: &Blocks, number: usize) -> Option<usize>
    ensures { result ≡ spec.block_asked numbers.now blocks.now number }
{
    let mut most = Most::none();
    for block in 0..blocks.len() {
        most.see(block, trips_numbered(numbers, number, blocks.block(block)));
    }
    most.found
}

/// Which blocks the names of so many numbers ask for.
pub(crate) fn blocks_asked(
    alloc: Global,
    numbers: &[Option<usize>],
    blocks: &Blocks,
    names: usize,
) -> Result<Vec<Option<usize>>, Memory>
    ensures { IfOk result (λ asked. asked.items ≡ map (spec.block_asked numbers.now blocks.now) (range_with_len 0 names)) }
{
    let mut asked = Vec::new(alloc);
    for number in 0..names {
        asked.push(block_asked(numbers, blocks, number))?;
    }
    Ok(asked)
}

// How many trips of a block have a number, where the name of that asks for this block.
fn trips_asking(
    numbers: &[Option<usize>],
    asked: &[Option<usize>],
    block: usize,
    slots: &[u16],
    number: Option<usize>,
) -> usize
    ensures { result ≡ spec.trips_asking_by numbers.now asked.now block slots.now number }
{
    match number {
        Some(number) => {
            if is(number_at(asked, number), block) {
                trips_numbered(numbers, number, slots)
            } else {
                0
            }
        }
        None => 0,
    }
}

/// The slot whose name a block takes.
pub(crate) fn slot_taken(
    numbers: &[Option<usize>],
    asked: &[Option<usize>],
    block: usize,
    slots: &[u16],
) -> Option<usize>
    ensures { result ≡ spec.slot_taken numbers.now asked.now block slots.now }
{
    let mut most = Most::none();
    for slot in slots {
        let place = usize::from(*slot);
        most.see(
            place,
            trips_asking(numbers, asked, block, slots, number_at(numbers, place)),
        );
    }
    most.found
}
