//! Laws of the definitions that the contracts cite. Each is the contract of a function that does nothing.
ghost use Rattle.block_writer.specs.Laws as spec;

/// The written trips read back as the table with the blocks, unless their text begins with a byte-order mark.
pub fn trips_law()
    ensures { spec.TripsReadBack }
{}

/// The written stop times read back as the table with the times moved, unless their text begins with a byte-order mark.
pub fn stop_times_law()
    ensures { spec.StopTimesReadBack }
{}

/// Where a slot is once in the blocks, its record has the name of its block.
pub fn block_law()
    ensures { spec.BlockIsNamed }
{}
