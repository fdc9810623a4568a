//! Laws of the paths along which plans are repaired. Each is the contract of a function that does nothing.
ghost use Rattle.std.specs.Prelude.{◌≡◌, ℕ, ◌≤◌, List, length, Option};
ghost use Rattle.assignment_model.specs.Paths.{AreNextTrips, befores, IsLeftPath, IsRightPath, IsAlone, with_slot, IsTaken, IsAdded};

/// A right path is a left path of the inverse lists, and the other way round; and the inverse of the inverse is the list.
pub fn inverse_law()
    ensures right { (old new : List (Option ℕ)) (b : ℕ) → IsRightPath old new b → IsLeftPath (befores old) (befores new) b }
    ensures left { (old new : List (Option ℕ)) (a : ℕ) → IsLeftPath old new a → IsRightPath (befores old) (befores new) a }
    ensures inverse { (links : List (Option ℕ)) → AreNextTrips links → AreNextTrips (befores links) }
    ensures twice { (links : List (Option ℕ)) → AreNextTrips links → befores (befores links) ≡ links }
{}

/// Where a trip without links is taken, exactly nothing changes. Where one is added that stays without links, nothing
/// changes but that its slot is there.
pub fn alone_law()
    ensures taken { (links : List (Option ℕ)) (s : ℕ) → AreNextTrips links → IsAlone links s → IsTaken links links s }
    ensures unchanged { (old new : List (Option ℕ)) (s : ℕ) → IsAlone old s → IsTaken old new s → new ≡ old }
    ensures added { (links : List (Option ℕ)) (s : ℕ) → AreNextTrips links → s ≤ length links → IsAlone links s
        → IsAdded links (with_slot links s) s }
{}
