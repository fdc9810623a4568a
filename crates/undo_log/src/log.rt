ghost use Rattle.std.specs.Prelude.{◌≡◌, ◌↔◌, [], ◌∷◌, ◌++◌, length, slice_get, option_copied, IsSome, IsNone, IfOk, IfSome, IfNone};
ghost use Rattle.std.specs.Prelude.{OnSome};

use circular_buffer::HeapCircularBuffer;
use desk_io::Memory;
use std::alloc::Global;
use std::marker::Model;

/// The most items that can be undone and redone, both together.
pub const UNDO_DEPTH: usize = 256;

/// The items that can be undone, the kept ones, and those that can be redone, the undone ones. The last of each list is
/// the newest.
pub struct Log<T> {
    kept: HeapCircularBuffer<T>,
    undone: HeapCircularBuffer<T>,
}

impl<T: Drop> Drop for Log<T> {
    fn drop(self) {
        let Self { kept: _, undone: _ } = self;
    }
}

impl<T> Model for Log<T> {
    ghost use Rattle.std.specs.Prelude.{◌≡◌};
    ghost use Rattle.undo_log.specs.declared.log.TheConstants.{UNDO_DEPTH};
    ghost use Rattle.undo_log.specs.Log.{LogView, log_code, IsWithinDepth};

    ghost Value = { LogView T };

    ghost coded = { log_code T.code };

    ghost view = { λ a. record { kept = a.kept.items; undone = a.undone.items } };

    ghost invariant = { λ a. (a.kept.capacity ≡ UNDO_DEPTH) × (a.undone.capacity ≡ UNDO_DEPTH)
        × IsWithinDepth (record { kept = a.kept.items; undone = a.undone.items }) };
}

impl<T: Drop> Log<T> {
    ghost use Rattle.undo_log.specs.declared.log.TheConstants.{UNDO_DEPTH};
    ghost use Rattle.undo_log.specs.Log.{IsWithinDepth, HasRoom, latest_items, last_item};

    /// A log in which nothing is kept and nothing undone. All the memory that it will ever need is taken here, and
    /// `Memory` says that there was too little.
    pub fn open(alloc: Global) -> Result<Log<T>, Memory>
        ensures { IfOk result (λ opened. opened ≡ record { kept = []; undone = [] }) }
    {
        Ok(Log {
            kept: HeapCircularBuffer::with_capacity(alloc, UNDO_DEPTH)?,
            undone: HeapCircularBuffer::with_capacity(alloc, UNDO_DEPTH)?,
        })
    }

    /// Keeps one more item, and drops all that was undone. Where 256 are kept already, it hands back the oldest of
    /// them, which can no longer be undone.
    pub fn push(&mut self, item: T) -> Option<T>
        ensures lists { self.new ≡ record { kept = latest_items (self.old.kept ++ item ∷ []); undone = [] } }
        ensures full { IsSome result ↔ (length self.old.kept ≡ UNDO_DEPTH) }
        ensures oldest { IfSome result (λ oldest. slice_get self.old.kept 0 ≡ Some oldest) }
        ensures within { IsWithinDepth self.new }
    {
        self.undone.clear();
        self.kept.push_back(item)
    }

    /// Takes off the last kept item, to be undone. `None`: there is nothing to undo.
    #[tactic(auto, using(crate::proofs::LastItem::take_last_item, crate::proofs::LastItem::last_item_none))]
    pub fn take_back(&mut self) -> Option<T>
        ensures none { IsNone result ↔ (self.old.kept ≡ []) }
        ensures last { IfSome result (λ last. self.old ≡ record self.new { kept = self.new.kept ++ last ∷ [] }) }
        ensures room { OnSome result (HasRoom self.new) }
        ensures unchanged { IfNone result (self.new ≡ self.old) }
    {
        self.kept.pop_back()
    }

    /// Takes off the last undone item, to be redone. `None`: there is nothing to redo.
    #[tactic(auto, using(crate::proofs::LastItem::take_last_item, crate::proofs::LastItem::last_item_none))]
    pub fn take_forth(&mut self) -> Option<T>
        ensures none { IsNone result ↔ (self.old.undone ≡ []) }
        ensures last { IfSome result (λ last. self.old ≡ record self.new { undone = self.new.undone ++ last ∷ [] }) }
        ensures room { OnSome result (HasRoom self.new) }
        ensures unchanged { IfNone result (self.new ≡ self.old) }
    {
        self.undone.pop_back()
    }

    /// Appends to the undone items what redoes the item that [`Log::take_back`] took off. Wherever an item was taken
    /// off there is room.
    pub fn put_undone(&mut self, item: T)
        requires { HasRoom self.old }
        ensures { self.new ≡ record self.old { undone = self.old.undone ++ item ∷ [] } }
    {
        self.undone.push_back(item);
    }

    /// Appends to the kept items what undoes the item that [`Log::take_forth`] took off. Unlike a push, it leaves the
    /// undone items.
    pub fn put_kept(&mut self, item: T)
        requires { HasRoom self.old }
        ensures { self.new ≡ record self.old { kept = self.old.kept ++ item ∷ [] } }
    {
        self.kept.push_back(item);
    }

    /// The last kept item, which [`Log::take_back`] would take off.
    #[tactic(auto, using(crate::proofs::LastItem::last_item_none))]
    pub fn last_kept(&self) -> Option<&T>
        ensures none { IsNone result ↔ (self.now.kept ≡ []) }
        ensures last { option_copied result ≡ last_item self.now.kept }
    {
        self.kept.back()
    }

    /// How many items are kept.
    pub fn kept(&self) -> usize
        ensures count { result ≡ length self.now.kept }
        ensures within { IsWithinDepth self.now }
    {
        self.kept.len()
    }

    /// How many items are undone.
    pub fn undone(&self) -> usize
        ensures count { result ≡ length self.now.undone }
        ensures within { IsWithinDepth self.now }
    {
        self.undone.len()
    }
}
