ghost use Rattle.std.specs.Prelude.{◌≡◌, ℕ, ◌<◌, ◌≤◌, length, slice_index_or};
ghost use Rattle.pair_search.specs.Groups.{AreGroups};
ghost use Rattle.trip_model.specs.declared.limits.TheConstants.{MOST_SLOTS};

use crate::order::Column;

// A group has at most so many columns, so the nearest of them is soon found again.
const MOST_COLUMNS: usize = 128;

/// Columns next to each other that stand at one post and in the order of their minutes: those from one place until before
/// another. And the minute of the last of them.
#[derive(Clone, Copy)]
pub struct Group {
    pub post: Option<u16>,
    pub from: u16,
    pub to: u16,
    pub latest: u16,
}

// Where the group ends that begins at a place.
fn group_end(columns: &[Column], from: usize) -> usize
    requires { from < length columns.now }
    ensures after { from < result }
    ensures within { result ≤ length columns.now }
    ensures posts { (k : ℕ) (d : _) → from ≤ k → k < result
        → (slice_index_or columns.now k d).post ≡ (slice_index_or columns.now from d).post }
    ensures rise { (h k : ℕ) (d : _) → from ≤ h → h ≤ k → k < result
        → (slice_index_or columns.now h d).minute ≤ (slice_index_or columns.now k d).minute }
{
    let mut to = from + 1;
    while to < columns.len()
        && to - from < MOST_COLUMNS
        && columns[to].post == columns[from].post
        && columns[to - 1].minute <= columns[to].minute
    {
        to += 1;
    }
    to
}

/// Finds the groups of columns, and answers how many there are.
pub(crate) fn find_groups(columns: &[Column], groups: &mut [Group]) -> usize
    requires room { length groups.old ≡ length columns.now }
    requires few { length columns.now ≤ MOST_SLOTS }
    ensures { AreGroups (length columns.now) columns.now result groups.new }
{
    let mut count = 0;
    let mut from = 0;
    while from < columns.len() {
        let to = group_end(columns, from);
        groups[count] = Group {
            post: columns[from].post,
            from: from as u16,
            to: to as u16,
            latest: columns[to - 1].minute,
        };
        count += 1;
        from = to;
    }
    count
}
