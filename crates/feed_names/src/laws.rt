//! The law of the names of a feed.
ghost use Rattle.feed_names.specs.Laws as spec;

/// Of an accepted feed each name of a trip that stands after the script is a text that has a byte.
pub fn names_law()
    ensures { spec.TripsAreNamed }
{}
