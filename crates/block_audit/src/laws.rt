//! Laws of the definitions that the contracts cite. Each is the contract of a function that does nothing.
ghost use Rattle.block_audit.specs.Laws as spec;

use deadhead_matrix::laws::deadhead_law;
use trip_model::laws::plain_law;

/// Each trip that runs is in the stated blocks once. They are a blocking exactly where there is no misfit. Where a vehicle comes
/// too late to the second trip of a misfit, it does so by at least a minute. Where a misfit is forbidden, the rules of pairs do
/// not allow its two trips.
pub fn blocking_law()
    ensures stands { spec.EachStands }
    ensures blocking { spec.AreBlocking }
    ensures fitting { spec.HaveNoMisfit }
    ensures late { spec.AreLate }
    ensures forbidden { spec.AreForbidden }
{}

/// Where the trips of a stated block can be made one after the other in some order, that is their order there.
pub fn order_law()
    ensures { spec.StandInOrder }
{
    plain_law();
    deadhead_law();
}

/// Blocks are above least ones by nothing exactly where they are least. Else they are above by the vehicles that they have
/// more, or with as few vehicles by the empty minutes.
pub fn above_law()
    ensures says { spec.IsSaid }
    ensures nothing { spec.IsSaidOfLeast }
{}
