ghost use Rattle.std.specs.Prelude.{◌≡◌, ◌+◌, ◌≤◌, false, vec_len, replicate, IfOk};
ghost use Rattle.trip_model.specs.declared.limits.TheConstants.{MOST_SLOTS};
ghost use Rattle.pair_search.specs.declared.limits.TheConstants.{FAR};

use desk_io::Memory;
use pair_search::FAR;
use std::alloc::Global;
use trip_model::MOST_SLOTS;

/// So many columns are a block.
pub(crate) const BLOCK: u16 = 64;

/// There are so many blocks, the last of which may be without columns.
pub(crate) const BLOCKS: u16 = 64;

/// What a search grows. Of each column: how far it is, from which place of the tree it was reached, and whether it is done. Of each
/// place of the tree: its row, and how far that is. Of each block of columns: how near those that are not done are at most.
#[derive(Drop)]
pub(crate) struct Tree {
    pub(crate) dist: Vec<u64>,
    pub(crate) parent: Vec<u16>,
    pub(crate) done: Vec<bool>,
    pub(crate) rows: Vec<u16>,
    pub(crate) far: Vec<u64>,
    pub(crate) near: Vec<u64>,
    ghost few: { vec_len dist ≤ MOST_SLOTS },
    ghost parents: { vec_len parent ≡ vec_len dist },
    ghost marks: { vec_len done ≡ vec_len dist },
    ghost row_places: { vec_len rows ≡ vec_len dist + 1 },
    ghost far_places: { vec_len far ≡ vec_len dist + 1 },
    ghost blocks: { vec_len near ≡ 64 },
}

impl Tree {
    /// Takes the memory for a tree of so many columns, of which none is near or done.
    pub(crate) fn open(alloc: Global, slots: u16) -> Result<Tree, Memory>
        requires { slots ≤ MOST_SLOTS }
        ensures slots { IfOk result (λ opened. vec_len opened.dist ≡ slots) }
    {
        let slots = usize::from(slots);
        Ok(Tree {
            dist: vec![in alloc; FAR; slots]?,
            parent: vec![in alloc; 0; slots]?,
            done: vec![in alloc; false; slots]?,
            rows: vec![in alloc; 0; slots + 1]?,
            far: vec![in alloc; 0; slots + 1]?,
            near: vec![in alloc; FAR; usize::from(BLOCKS)]?,
        })
    }

    /// Makes all columns far and not done.
    pub(crate) fn clear(&mut self)
        ensures slots { vec_len self.new.dist ≡ vec_len self.old.dist }
        ensures dist { self.new.dist.items ≡ replicate (vec_len self.old.dist) FAR }
        ensures done { self.new.done.items ≡ replicate (vec_len self.old.dist) false }
    {
        self.dist.fill(FAR);
        self.done.fill(false);
    }
}
