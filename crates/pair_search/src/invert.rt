ghost use Rattle.std.specs.Prelude.{◌≡◌, ◌≤◌, length};
ghost use Rattle.assignment_model.specs.Paths.{AreNextTrips};
ghost use Rattle.pair_search.specs.Inverse.{IsInverse};
ghost use Rattle.trip_model.specs.declared.limits.TheConstants.{MOST_SLOTS};

/// The inverse of links: for each column the row that is linked to it.
pub fn invert(next: &[Option<u16>], before: &mut [Option<u16>])
    requires slots { length next.now ≡ length before.old }
    requires few { length next.now ≤ MOST_SLOTS }
    requires links { AreNextTrips next.now }
    ensures { IsInverse (length next.now) next.now before.new }
{
    before.fill(None);
    for row in 0..next.len() {
        if let Some(column) = next[row] {
            before[column as usize] = Some(row as u16);
        }
    }
}
