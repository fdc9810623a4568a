//! Laws of what is preferred as a feed states it. Each is the contract of a function that does nothing.
ghost use Rattle.likings_laws.specs.Laws as spec;

/// A trip is next after another, as links are liked, exactly where it comes right behind that one in a stated block.
pub fn neighbours_law()
    ensures { spec.AreNextAsStated }
{}
