//! Laws of the names of blocks. Each is the contract of a function that does nothing.
ghost use Rattle.std.specs.Prelude.{◌≡◌, ℕ, ◌+◌, ◌<◌, ◌^◌, ◌++◌, List, [], length, map, slice_index_or, Some, All, Contains, IsUtf8};
ghost use Rattle.std.specs.Fmt.{decimal};
ghost use Rattle.std.specs.List.{range_with_len};
ghost use Rattle.desk_settings.specs.Selected.{slot_field};
ghost use Rattle.block_build.specs.Names.{AreBlockNames, block_name};
ghost use Rattle.block_names.specs.Names.{NamingView, asks_for, names_of};

/// Where what is stated is text, the names of blocks are texts that are not empty, and no two are the same.
pub fn naming_law()
    ensures { (naming : NamingView) (blocks : List (List ℕ)) → IsUtf8 naming.prefix → All IsUtf8 naming.stated
        → length blocks + length naming.stated < 10 ^ 64 → AreBlockNames (length blocks) (names_of naming blocks) }
{}

/// Where no name is stated, a block has the prefix and its number, counted from 1.
pub fn numbered_law()
    ensures { (naming : NamingView) (blocks : List (List ℕ)) → naming.stated ≡ []
        → names_of naming blocks ≡ map (λ n. naming.prefix ++ decimal (n + 1)) (range_with_len 0 (length blocks)) }
{}

/// A block that a stated name asks for has a stated name, that of one of its trips.
pub fn stated_law()
    ensures { (naming : NamingView) (blocks : List (List ℕ)) (b : ℕ) (name : List ℕ) → 0 < length name
        → asks_for naming.stated blocks name ≡ Some b
        → (s : ℕ) × Contains (slice_index_or blocks b []) s × (block_name (names_of naming blocks) b ≡ slot_field naming.stated s) }
{}
