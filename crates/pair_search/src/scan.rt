ghost use Rattle.std.specs.Prelude.{◌≡◌, ℕ, ◌+◌, ◌-◌, ◌*◌, ◌<◌, ◌≤◌, ◌⊎◌, true, false, not, List, ◌++◌, map, length, vec_len, Some};
ghost use Rattle.std.specs.Prelude.{IfSome, IfNone};
ghost use Rattle.std.specs.List.{range_with_len};
ghost use Rattle.pair_search.specs.Determined.{first_nearest};
ghost use Rattle.pair_search.specs.Groups.{group_at, AreApproached, AreNear, AreReached, IsNearer, IsNearerBy, IsNoNearerBy, IsSeen};
ghost use Rattle.pair_search.specs.Groups.{IsSpent};
ghost use Rattle.pair_search.specs.Search.{at, is_done, as_columns, columns_of, AreLooked, Columns, IsNearest};
ghost use Rattle.pair_graph.specs.Pairs.{is_kept, is_ruled};
ghost use Rattle.pair_search.specs.Side.{side_slots, line_weight, place_weight, IsFree};
ghost use Rattle.pair_search.specs.Visits.{RowLooks, Takes};
ghost use Rattle.pair_search.specs.declared.look.Look.TheVariants.{Visited, Passed};

use crate::leads::Lead;
use crate::limits::{FAR, GREATEST_PRICE};
use crate::line::Line;
use crate::look::Look;
use crate::looks::Looks;
use crate::side::Side;
use crate::tree::{Seen, Tree};
use desk_io::Steps;
use std::sync::ledger::Ledger;

/// What was found of columns that were approached: how far the nearest is that came nearer by this, and whether one of them is not
/// done.
#[derive(Clone, Copy)]
struct Approached {
    near: u64,
    undone: bool,
}

// Approaches the columns between two places at a cost, from a place of the tree: a row visits each once, which is a step.
fn approach<L: Ledger>(
    row: u16,
    first: u16,
    upto: u16,
    from: u16,
    cost: u64,
    enter: &[u64],
    done: &[bool],
    dist: &mut [u64],
    parent: &mut [u16],
    looks: &mut Looks,
    steps: &mut Steps<L>,
) -> Approached
    requires enter { length enter.now ≡ length dist.old }
    requires done { length done.now ≡ length dist.old }
    requires parent { length parent.old ≡ length dist.old }
    requires order { first ≤ upto }
    requires within { upto ≤ length dist.old }
    requires cost { cost ≤ 3 * GREATEST_PRICE }
    requires low { (j : ℕ) → first ≤ j → j < upto → at enter.now j ≤ GREATEST_PRICE }
    requires enough { (j : ℕ) → first ≤ j → j < upto → GREATEST_PRICE ≤ cost + at enter.now j }
    ensures approached { AreApproached first upto from cost enter.now (as_columns dist.old parent.old done.now)
        (as_columns dist.new parent.new done.now) result.near }
    ensures undone { result.undone ≡ false → (j : ℕ) → first ≤ j → j < upto → is_done done.now j ≡ true }
    ensures visited { looks.new.list ≡ looks.old.list ++ map (Visited row) (range_with_len first (upto - first)) }
    ensures counted { steps.new ≡ steps.old + (upto - first) }
{
    let mut near = FAR;
    let mut undone = false;
    for column in first..upto {
        looks.take(Look::Visited(row, column), steps);
        let place = column as usize;
        undone = undone | !done[place];
        let along = cost + enter[place] - GREATEST_PRICE;
        if along < dist[place] && !done[place] {
            dist[place] = along;
            parent[place] = from;
            near = near.min(along);
        }
    }
    Approached { near, undone }
}

// The place before which the columns of a group may come nearer at a cost: from it on they were reached at no more.
fn cut(was: Seen, cost: u64, to: u16) -> u16
    ensures within { result ≤ to }
    ensures cheaper { cost < was.cost → result ≡ to }
    ensures rest { (j : ℕ) → result ≤ j → j < to → (was.cost ≤ cost) × (was.from ≤ j) }
{
    if cost < was.cost {
        return to;
    }
    to.min(was.from)
}

// What is seen of a group after its columns from a place on were approached at a cost, or had been reached at no more. Where all that
// were approached are done, the lower cost holds.
fn renewed(was: Seen, found: Approached, cost: u64, from: u16, minute: u32) -> Seen
    ensures near { (result.near ≤ was.near) × (result.near ≤ found.near) }
    ensures place { (result.from ≡ from) × (result.minute ≡ minute) }
    ensures reached { (result.cost ≡ cost) ⊎ ((found.undone ≡ false) × (result.cost ≡ was.cost) × (was.cost ≤ cost)) }
{
    Seen {
        near: found.near.min(was.near),
        cost: if found.undone {
            cost
        } else {
            cost.min(was.cost)
        },
        from,
        minute,
    }
}

// The nearest column between two places that is not done, if one is near.
fn nearest_between(done: &[bool], dist: &[u64], first: u16, upto: u16) -> Option<u16>
    requires done { length done.now ≡ length dist.now }
    requires within { upto ≤ length dist.now }
    ensures some { IfSome result (λ j. (j < length dist.now) × (is_done done.now j ≡ false) × (at dist.now j < FAR)) }
    ensures least { IfSome result (λ j. (h : ℕ) → first ≤ h → h < upto → is_done done.now h ≡ false → at dist.now j ≤ at dist.now h) }
    ensures first { IfSome result (λ j. (h : ℕ) → first ≤ h → h < j → is_done done.now h ≡ false → at dist.now j < at dist.now h) }
    ensures none { IfNone result ((h : ℕ) → first ≤ h → h < upto → is_done done.now h ≡ false → FAR ≤ at dist.now h) }
{
    let mut best = None;
    let mut least = FAR;
    for column in first..upto {
        let place = column as usize;
        if dist[place] < least && !done[place] {
            best = Some(column);
            least = dist[place];
        }
    }
    best
}

// How far a column is, if there is one.
fn distance(column: Option<u16>, dist: &[u64]) -> u64
    requires { IfSome column (λ j. j < length dist.now) }
    ensures some { IfSome column (λ j. result ≡ at dist.now j) }
    ensures none { IfNone column (result ≡ FAR) }
{
    let Some(column) = column else {
        return FAR;
    };
    dist[column as usize]
}

/// The nearest column so far, and how far it is; without one, how near the next must be.
#[derive(Clone, Copy)]
pub struct Nearby {
    pub column: Option<u16>,
    pub distance: u64,
}

/// What was found between two places: the nearest column so far, and how near those between them are at most.
#[derive(Clone, Copy)]
pub struct Found {
    pub best: Nearby,
    pub near: u64,
}

/// Looks through the columns between two places for one that is nearer than the nearest so far.
pub fn nearer_between(done: &[bool], dist: &[u64], first: u16, upto: u16, best: Nearby) -> Found
    requires done { length done.now ≡ length dist.now }
    requires within { upto ≤ length dist.now }
    requires low { best.distance ≤ FAR }
    ensures near { (j : ℕ) → first ≤ j → j < upto → is_done done.now j ≡ false → result.near ≤ at dist.now j }
    ensures low { result.best.distance ≤ best.distance }
    ensures least { (j : ℕ) → first ≤ j → j < upto → is_done done.now j ≡ false → result.best.distance ≤ at dist.now j }
    ensures one { (result.best ≡ best) ⊎ IsNearer first done.now dist.now best result.best }
{
    let column = nearest_between(done, dist, first, upto);
    let near = distance(column, dist);
    if near < best.distance {
        return Found {
            best: Nearby {
                column,
                distance: near,
            },
            near,
        };
    }
    Found { best, near }
}

impl Tree {
    // Whether no column of a group comes nearer by a row that is so far with its price. Most are told by two comparisons: the row
    // is in time for none, or all that it is in time for were reached at no more.
    fn is_spent(&self, line: &Line<'_>, group: usize, start: u64) -> bool
        requires free { IsFree line.now }
        requires group { group < line.now.side.count }
        requires room { line.now.side.count ≤ length self.now.seen.items }
        requires start { start ≤ 2 * GREATEST_PRICE }
        ensures { result ≡ true → (enter : List ℕ) → IsSeen line.now.side enter self.now
            → IsSpent line.now (group_at line.now.side.groups group) start enter (columns_of self.now) }
    {
        let Some(reach) = line.reach_of(group) else {
            return true;
        };
        let was = self.seen[group];
        let cost = start + GREATEST_PRICE - line.share.saved + u64::from(reach.walk);
        cost >= was.cost && u32::from(reach.minute) >= was.minute
    }

    // The first group from one on of which columns may come nearer by a row. For those before it the look is a step.
    fn pass<L: Ledger>(
        &self,
        line: &Line<'_>,
        group: usize,
        start: u64,
        looks: &mut Looks,
        steps: &mut Steps<L>,
    ) -> usize
        requires free { IsFree line.now }
        requires group { group ≤ line.now.side.count }
        requires room { line.now.side.count ≤ length self.now.seen.items }
        requires start { start ≤ 2 * GREATEST_PRICE }
        ensures after { group ≤ result }
        ensures within { result ≤ line.now.side.count }
        ensures spent { (r : ℕ) (enter : List ℕ) → group ≤ r → r < result → IsSeen line.now.side enter self.now
            → IsSpent line.now (group_at line.now.side.groups r) start enter (columns_of self.now) }
        ensures passed { looks.new.list ≡ looks.old.list ++ map (Passed line.now.row) (range_with_len group (result - group)) }
        ensures counted { steps.new ≡ steps.old + (result - group) }
    {
        let count = line.side.groups();
        for next in group..count {
            if !self.is_spent(line, next, start) {
                return next;
            }
            looks.take(Look::Passed(line.row, next), steps);
        }
        count
    }

    // Looks at a group of columns from a place of the tree, which is so far with the price of its row. Those that were reached at
    // no more from another place are not visited again. Where none is visited, the look is a step.
    fn look<L: Ledger>(
        &mut self,
        line: &Line<'_>,
        group: usize,
        from: u16,
        start: u64,
        enter: &[u64],
        looks: &mut Looks,
        steps: &mut Steps<L>,
    )
        requires free { IsFree line.now }
        requires slots { vec_len self.old.dist ≡ side_slots line.now.side }
        requires enter { length enter.now ≡ side_slots line.now.side }
        requires group { group < line.now.side.count }
        requires columns { (group_at line.now.side.groups group).from < (group_at line.now.side.groups group).to }
        requires within { (group_at line.now.side.groups group).to ≤ side_slots line.now.side }
        requires seen { IsSeen line.now.side enter.now self.old }
        requires start { start ≤ 2 * GREATEST_PRICE }
        requires low { (j k : ℕ) → line_weight line.now j ≡ Some k → at enter.now j ≤ GREATEST_PRICE }
        requires covers { (j k : ℕ) → line_weight line.now j ≡ Some k → k ≤ start + at enter.now j }
        ensures slots { vec_len self.new.dist ≡ vec_len self.old.dist }
        ensures rows { (self.new.rows.items ≡ self.old.rows.items) × (self.new.far.items ≡ self.old.far.items) }
        ensures leads { self.new.leads.items ≡ self.old.leads.items }
        ensures looked { (was : Columns)
            → AreLooked (line_weight line.now) (group_at line.now.side.groups group).from from start enter.now was (columns_of self.old)
            → AreLooked (line_weight line.now) (group_at line.now.side.groups group).to from start enter.now was (columns_of self.new) }
        ensures seen { IsSeen line.now.side enter.now self.new }
        ensures visited { Takes (RowLooks line.now.side line.now.row (group_at line.now.side.groups group).from
            (group_at line.now.side.groups group).to) looks.old.list looks.new.list steps.old steps.new }
    {
        let Some(reach) = line.reach_of(group) else {
            looks.take(Look::Passed(line.row, group), steps);
            return;
        };
        let was = self.seen[group];
        let cost = start + GREATEST_PRICE - line.share.saved + u64::from(reach.walk);
        let upto = cut(was, cost, line.side.group(group).to);
        let first = line.first_fit(group, reach, upto);
        if first >= upto {
            looks.take(Look::Passed(line.row, group), steps);
            return;
        }
        let found = approach(
            line.row,
            first,
            upto,
            from,
            cost - u64::from(line.side.pull(group)),
            enter,
            &self.done,
            &mut self.dist,
            &mut self.parent,
            looks,
            steps,
        );
        let missed = line.side.missed(group, first);
        self.seen[group] = renewed(was, found, cost, first, missed);
    }

    // Looks at all columns, group by group, from a place of the tree, which is so far with the price of its row.
    fn look_along<L: Ledger>(
        &mut self,
        line: &Line<'_>,
        from: u16,
        start: u64,
        enter: &[u64],
        looks: &mut Looks,
        steps: &mut Steps<L>,
    )
        requires free { IsFree line.now }
        requires slots { vec_len self.old.dist ≡ side_slots line.now.side }
        requires enter { length enter.now ≡ side_slots line.now.side }
        requires seen { IsSeen line.now.side enter.now self.old }
        requires start { start ≤ 2 * GREATEST_PRICE }
        requires low { (j k : ℕ) → line_weight line.now j ≡ Some k → at enter.now j ≤ GREATEST_PRICE }
        requires covers { (j k : ℕ) → line_weight line.now j ≡ Some k → k ≤ start + at enter.now j }
        ensures slots { vec_len self.new.dist ≡ vec_len self.old.dist }
        ensures rows { (self.new.rows.items ≡ self.old.rows.items) × (self.new.far.items ≡ self.old.far.items) }
        ensures leads { self.new.leads.items ≡ self.old.leads.items }
        ensures looked { AreLooked (line_weight line.now) (side_slots line.now.side) from start enter.now (columns_of self.old)
            (columns_of self.new) }
        ensures seen { IsSeen line.now.side enter.now self.new }
        ensures visited { Takes (RowLooks line.now.side line.now.row 0 (side_slots line.now.side)) looks.old.list looks.new.list
            steps.old steps.new }
        ensures counted { steps.new ≤ steps.old + side_slots line.now.side }
    {
        let side = line.side;
        let count = side.groups();
        let mut group = self.pass(line, 0, start, looks, steps);
        while group < count {
            self.look(line, group, from, start, enter, looks, steps);
            group = self.pass(line, group + 1, start, looks, steps);
        }
    }

    // How far a column is by a row, where it is not done and comes nearer by that.
    fn nearer_by(&self, line: &Line<'_>, column: u16, start: u64, enter: &[u64]) -> Option<u64>
        requires slots { vec_len self.now.dist ≡ side_slots line.now.side }
        requires enter { length enter.now ≡ side_slots line.now.side }
        requires within { column < side_slots line.now.side }
        requires start { start ≤ 2 * GREATEST_PRICE }
        requires low { (j k : ℕ) → line_weight line.now j ≡ Some k → at enter.now j ≤ GREATEST_PRICE }
        requires covers { (j k : ℕ) → line_weight line.now j ≡ Some k → k ≤ start + at enter.now j }
        ensures some { IfSome result (IsNearerBy line.now column start enter.now (columns_of self.now)) }
        ensures none { IfNone result (IsNoNearerBy line.now column start enter.now (columns_of self.now)) }
    {
        let place = column as usize;
        if self.done[place] {
            return None;
        }
        let weight = line.walk_weight(column)?;
        let along = start.saturating_add(enter[place]).saturating_sub(weight);
        if along >= self.dist[place] {
            return None;
        }
        if !line.side.allows(line.row, column) {
            return None;
        }
        Some(along)
    }

    // Tries a column of a group from a place of the tree, which is so far with the price of its row. A rule names that row, so it
    // may weigh something else with each column, or nothing.
    fn try_column<L: Ledger>(
        &mut self,
        line: &Line<'_>,
        group: usize,
        column: u16,
        from: u16,
        start: u64,
        enter: &[u64],
        looks: &mut Looks,
        steps: &mut Steps<L>,
    )
        requires ruled { is_ruled line.now.side.pairs line.now.side.turned line.now.row ≡ true }
        requires slots { vec_len self.old.dist ≡ side_slots line.now.side }
        requires enter { length enter.now ≡ side_slots line.now.side }
        requires group { group < line.now.side.count }
        requires after { (group_at line.now.side.groups group).from ≤ column }
        requires before { column < (group_at line.now.side.groups group).to }
        requires within { column < side_slots line.now.side }
        requires seen { IsSeen line.now.side enter.now self.old }
        requires start { start ≤ 2 * GREATEST_PRICE }
        requires low { (j k : ℕ) → line_weight line.now j ≡ Some k → at enter.now j ≤ GREATEST_PRICE }
        requires covers { (j k : ℕ) → line_weight line.now j ≡ Some k → k ≤ start + at enter.now j }
        ensures slots { vec_len self.new.dist ≡ vec_len self.old.dist }
        ensures rows { (self.new.rows.items ≡ self.old.rows.items) × (self.new.far.items ≡ self.old.far.items) }
        ensures leads { self.new.leads.items ≡ self.old.leads.items }
        ensures looked { (was : Columns) → AreLooked (line_weight line.now) column from start enter.now was (columns_of self.old)
            → AreLooked (line_weight line.now) (column + 1) from start enter.now was (columns_of self.new) }
        ensures seen { IsSeen line.now.side enter.now self.new }
        ensures visited { Takes (RowLooks line.now.side line.now.row column (column + 1)) looks.old.list looks.new.list steps.old
            steps.new }
    {
        // Its clause says how columns stand in groups.
        let _groups = line.side.groups();
        looks.take(Look::Tried(line.row, column), steps);
        let Some(along) = self.nearer_by(line, column, start, enter) else {
            return;
        };
        self.dist[column as usize] = along;
        self.parent[column as usize] = from;
        let was = self.seen[group];
        self.seen[group] = Seen {
            near: was.near.min(along),
            ..was
        };
    }

    // Tries each column of a group. A row that a keep has fits only a column that one has too, and that stands at no post.
    fn try_group<L: Ledger>(
        &mut self,
        line: &Line<'_>,
        group: usize,
        keeping: bool,
        from: u16,
        start: u64,
        enter: &[u64],
        looks: &mut Looks,
        steps: &mut Steps<L>,
    )
        requires ruled { is_ruled line.now.side.pairs line.now.side.turned line.now.row ≡ true }
        requires keeping { keeping ≡ is_kept line.now.side.pairs (not line.now.side.turned) line.now.row }
        requires slots { vec_len self.old.dist ≡ side_slots line.now.side }
        requires enter { length enter.now ≡ side_slots line.now.side }
        requires group { group < line.now.side.count }
        requires columns { (group_at line.now.side.groups group).from < (group_at line.now.side.groups group).to }
        requires within { (group_at line.now.side.groups group).to ≤ side_slots line.now.side }
        requires seen { IsSeen line.now.side enter.now self.old }
        requires start { start ≤ 2 * GREATEST_PRICE }
        requires low { (j k : ℕ) → line_weight line.now j ≡ Some k → at enter.now j ≤ GREATEST_PRICE }
        requires covers { (j k : ℕ) → line_weight line.now j ≡ Some k → k ≤ start + at enter.now j }
        ensures slots { vec_len self.new.dist ≡ vec_len self.old.dist }
        ensures rows { (self.new.rows.items ≡ self.old.rows.items) × (self.new.far.items ≡ self.old.far.items) }
        ensures leads { self.new.leads.items ≡ self.old.leads.items }
        ensures looked { (was : Columns)
            → AreLooked (line_weight line.now) (group_at line.now.side.groups group).from from start enter.now was (columns_of self.old)
            → AreLooked (line_weight line.now) (group_at line.now.side.groups group).to from start enter.now was (columns_of self.new) }
        ensures seen { IsSeen line.now.side enter.now self.new }
        ensures visited { Takes (RowLooks line.now.side line.now.row (group_at line.now.side.groups group).from
            (group_at line.now.side.groups group).to) looks.old.list looks.new.list steps.old steps.new }
    {
        let side = line.side;
        // It says that columns are in order, and its clause that moves are of one day.
        let _columns = side.columns;
        let _slots = side.slots();
        let columns = side.group(group);
        if keeping && columns.post.is_some() {
            looks.take(Look::Passed(line.row, group), steps);
            return;
        }
        for column in columns.from..columns.to {
            self.try_column(line, group, column, from, start, enter, looks, steps);
        }
    }

    // Tries each column from a place of the tree, which is so far with the price of its row, that a rule names.
    fn try_each<L: Ledger>(
        &mut self,
        line: &Line<'_>,
        from: u16,
        start: u64,
        enter: &[u64],
        looks: &mut Looks,
        steps: &mut Steps<L>,
    )
        requires ruled { is_ruled line.now.side.pairs line.now.side.turned line.now.row ≡ true }
        requires slots { vec_len self.old.dist ≡ side_slots line.now.side }
        requires enter { length enter.now ≡ side_slots line.now.side }
        requires seen { IsSeen line.now.side enter.now self.old }
        requires start { start ≤ 2 * GREATEST_PRICE }
        requires low { (j k : ℕ) → line_weight line.now j ≡ Some k → at enter.now j ≤ GREATEST_PRICE }
        requires covers { (j k : ℕ) → line_weight line.now j ≡ Some k → k ≤ start + at enter.now j }
        ensures slots { vec_len self.new.dist ≡ vec_len self.old.dist }
        ensures rows { (self.new.rows.items ≡ self.old.rows.items) × (self.new.far.items ≡ self.old.far.items) }
        ensures leads { self.new.leads.items ≡ self.old.leads.items }
        ensures looked { AreLooked (line_weight line.now) (side_slots line.now.side) from start enter.now (columns_of self.old)
            (columns_of self.new) }
        ensures seen { IsSeen line.now.side enter.now self.new }
        ensures visited { Takes (RowLooks line.now.side line.now.row 0 (side_slots line.now.side)) looks.old.list looks.new.list
            steps.old steps.new }
        ensures counted { steps.new ≤ steps.old + side_slots line.now.side }
    {
        let side = line.side;
        let keeping = side.is_keeping(line.row);
        for group in 0..side.groups() {
            self.try_group(line, group, keeping, from, start, enter, looks, steps);
        }
    }

    // Looks at all columns from a place of the tree, where a row is that is so far with its price. A row that a rule names tries each.
    // Where another row stands at the same post, no later, and is no farther, the row brings nothing nearer: that is a step.
    pub(crate) fn look_from<L: Ledger>(
        &mut self,
        side: &Side<'_>,
        row: u16,
        from: u16,
        start: u64,
        enter: &[u64],
        looks: &mut Looks,
        steps: &mut Steps<L>,
    )
        requires row { row < side_slots side.now }
        requires slots { vec_len self.old.dist ≡ side_slots side.now }
        requires enter { length enter.now ≡ side_slots side.now }
        requires seen { IsSeen side.now enter.now self.old }
        requires start { start ≤ 2 * GREATEST_PRICE }
        requires low { (j k : ℕ) → place_weight side.now row j ≡ Some k → at enter.now j ≤ GREATEST_PRICE }
        requires covers { (j k : ℕ) → place_weight side.now row j ≡ Some k → k ≤ start + at enter.now j }
        ensures slots { vec_len self.new.dist ≡ vec_len self.old.dist }
        ensures rows { (self.new.rows.items ≡ self.old.rows.items) × (self.new.far.items ≡ self.old.far.items) }
        ensures looked { AreLooked (place_weight side.now row) (side_slots side.now) from start enter.now (columns_of self.old)
            (columns_of self.new) }
        ensures seen { IsSeen side.now enter.now self.new }
        ensures visited { Takes (RowLooks side.now row 0 (side_slots side.now)) looks.old.list looks.new.list steps.old steps.new }
        ensures counted { steps.new ≤ steps.old + side_slots side.now }
    {
        // Its clauses say that moves are of one day.
        let _slots = side.slots();
        let Some(stand) = side.stand(row) else {
            looks.take(Look::Led(row), steps);
            return;
        };
        if side.is_ruled(row) {
            self.try_each(&side.line(row), from, start, enter, looks, steps);
            return;
        }
        let lead = self.leads[stand.post as usize];
        if start >= lead.start && stand.ready >= lead.ready {
            looks.take(Look::Led(row), steps);
            return;
        }
        self.look_along(&side.line(row), from, start, enter, looks, steps);
        self.leads[stand.post as usize] = Lead {
            ready: stand.ready,
            start,
        };
    }
}

// The nearest column of those so far and of a group. That is looked through only where it may have a nearer one.
fn nearest_of(
    side: &Side<'_>,
    group: usize,
    done: &[bool],
    dist: &[u64],
    seen: &mut [Seen],
    best: Nearby,
) -> Nearby
    requires slots { length dist.now ≡ side_slots side.now }
    requires done { length done.now ≡ length dist.now }
    requires room { side.now.count ≤ length seen.old }
    requires group { group < side.now.count }
    requires near { AreNear side.now.count side.now.groups done.now dist.now seen.old }
    requires low { best.distance ≤ FAR }
    ensures near { AreNear side.now.count side.now.groups done.now dist.now seen.new }
    ensures reached { (enter : List ℕ) → AreReached side.now enter done.now dist.now seen.old
        → AreReached side.now enter done.now dist.now seen.new }
    ensures low { result.distance ≤ best.distance }
    ensures least { (j : ℕ) → (group_at side.now.groups group).from ≤ j → j < (group_at side.now.groups group).to
        → is_done done.now j ≡ false
        → result.distance ≤ at dist.now j }
    ensures one { (result ≡ best) ⊎ IsNearer (group_at side.now.groups group).from done.now dist.now best result }
{
    let columns = side.group(group);
    let was = seen[group];
    if best.distance <= was.near {
        return best;
    }
    let found = nearer_between(done, dist, columns.from, columns.to, best);
    seen[group] = Seen {
        near: found.near,
        ..was
    };
    found.best
}

/// The nearest column that is not done, if one is nearer than a bound.
pub(crate) fn nearest(
    side: &Side<'_>,
    done: &[bool],
    dist: &[u64],
    seen: &mut [Seen],
    bound: u64,
) -> Option<u16>
    requires slots { length dist.now ≡ side_slots side.now }
    requires done { length done.now ≡ length dist.now }
    requires room { side.now.count ≤ length seen.old }
    requires near { AreNear side.now.count side.now.groups done.now dist.now seen.old }
    requires bound { bound ≤ FAR }
    ensures near { AreNear side.now.count side.now.groups done.now dist.now seen.new }
    ensures reached { (enter : List ℕ) → AreReached side.now enter done.now dist.now seen.old
        → AreReached side.now enter done.now dist.now seen.new }
    ensures some { IfSome result (IsNearest done.now dist.now bound) }
    ensures none { IfNone result ((j : ℕ) → j < length dist.now → is_done done.now j ≡ false → bound ≤ at dist.now j) }
    ensures first { IfSome result (λ j. (h : ℕ) → h < j → is_done done.now h ≡ false → at dist.now j < at dist.now h) }
    ensures picked { result ≡ first_nearest (length dist.now) done.now dist.now bound }
{
    let mut best = Nearby {
        column: None,
        distance: bound,
    };
    for group in 0..side.groups() {
        best = nearest_of(side, group, done, dist, seen, best);
    }
    best.column
}
