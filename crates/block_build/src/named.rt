ghost use Rattle.std.specs.Prelude.{◌≡◌, ◌<◌, [], length, All, slice_index_or};
ghost use Rattle.block_build.specs.Names.{block_name};

use crate::{BlockNames, Blocks};
use deadhead_matrix::Matrix;
use trip_model::Timetable;

/// Blocks of a timetable as they are printed and written: with the matrix over its places, and with their names.
#[derive(Drop)]
pub struct NamedBlocks<'a> {
    pub timetable: &'a Timetable,
    pub matrix: &'a Matrix,
    pub blocks: &'a Blocks,
    pub names: &'a BlockNames,
    pub ghost places: { length matrix.now.walks ≡ length timetable.now.places },
    pub ghost slots: { All (All (λ s. s < length timetable.now.slots)) blocks.now },
    pub ghost named: { length names.now ≡ length blocks.now },
}

impl<'a> NamedBlocks<'a> {
    /// The slots of a block, in the order of its trips. It has at least one. Blocks are numbered from 0.
    pub fn block(&self, number: usize) -> &[u16]
        requires { number < length self.now.blocks.now }
        ensures block { result.now ≡ slice_index_or self.now.blocks.now number [] }
        ensures slots { All (λ s. s < length self.now.timetable.now.slots) result.now }
        ensures filled { 0 < length result.now }
    {
        // Its clause says that each has a trip.
        let _count = self.blocks.len();
        self.blocks.block(number)
    }

    /// The name of a block.
    pub fn name(&self, number: usize) -> &str
        requires { number < length self.now.blocks.now }
        ensures { result.now ≡ block_name self.now.names.now number }
    {
        self.names.name(number)
    }
}
