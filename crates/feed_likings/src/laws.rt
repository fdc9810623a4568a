//! Laws of the definitions that the contracts cite. Each is the contract of a function that does nothing.
ghost use Rattle.feed_likings.specs.Laws as spec;

/// Of two plans that one is liked more that has more of the first preference of which they have not as much.
pub fn order_law()
    ensures { spec.FirstDecides }
{}
