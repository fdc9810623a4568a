ghost use Rattle.std.specs.Prelude.{◌≡◌, ◌<◌, ◌≤◌, ◌&&◌, not, length, is_some, unwrap_or};
ghost use Rattle.assignment_model.specs.declared.limits.TheConstants.{MOST_DEADHEAD};
ghost use Rattle.desk_core.specs.Counts.{minutes_to, minutes_out};
ghost use Rattle.pair_graph.specs.Pairs.{pairs_network};
ghost use Rattle.trip_model.specs.declared.limits.TheConstants.{LAST_MINUTE};
ghost use Rattle.trip_model.specs.Blocking as blocking;
ghost use Rattle.trip_model.specs.Links.{AreLinks, blocks_along, next_of};
ghost use Rattle.trip_model.specs.Network.{Fits};
ghost use Rattle.trip_model.specs.Order.{by_departure};

use deadhead_matrix::Matrix;
use pair_graph::Pairs;
use trip_model::Links;

// Whether the trip of a slot is the last of its block.
fn is_last(pairs: &Pairs<'_>, links: &Links, slot: u16) -> bool
    requires slot { slot < length pairs.now.moves }
    requires slots { length links.now ≡ length pairs.now.moves }
    ensures { result ≡ ((pairs_network pairs.now).live slot && not (is_some (next_of links.now slot))) }
{
    pairs.move_at(slot).is_some() && links.next(slot).is_none()
}

/// How many blocks the links of a plan make: as many as trips that are the last of one.
pub(crate) fn block_count(pairs: &Pairs<'_>, links: &Links) -> u32
    requires slots { length links.now ≡ length pairs.now.moves }
    requires links { AreLinks (pairs_network pairs.now) links.now }
    ensures { result ≡ length (blocks_along links.now (by_departure pairs.now.moves)) }
{
    let mut count = 0;
    for slot in 0..pairs.slots() {
        if is_last(pairs, links, slot) {
            count += 1;
        }
    }
    count
}

// The minutes out of the depot to the trip of a slot; 0 where it does not run.
fn out_of(pairs: &Pairs<'_>, matrix: &Matrix, slot: u16) -> u32
    requires matrix { matrix.now ≡ pairs.now.matrix }
    requires slot { slot < length pairs.now.moves }
    ensures value { result ≡ (pairs_network pairs.now).out slot }
    ensures bound { result ≤ MOST_DEADHEAD }
{
    let Some(made) = pairs.move_at(slot) else {
        return 0;
    };
    u32::from(matrix.pull_out(made.from))
}

// The minutes home after the trip of a slot; 0 where it does not run.
fn home_of(pairs: &Pairs<'_>, matrix: &Matrix, slot: u16) -> u32
    requires matrix { matrix.now ≡ pairs.now.matrix }
    requires slot { slot < length pairs.now.moves }
    ensures value { result ≡ (pairs_network pairs.now).home slot }
    ensures bound { result ≤ MOST_DEADHEAD }
{
    let Some(made) = pairs.move_at(slot) else {
        return 0;
    };
    u32::from(matrix.pull_in(made.to))
}

// The empty minutes between two trips, where the second can follow on the first.
fn between(pairs: &Pairs<'_>, matrix: &Matrix, before: u16, after: u16) -> u32
    requires matrix { matrix.now ≡ pairs.now.matrix }
    requires before { before < length pairs.now.moves }
    requires after { after < length pairs.now.moves }
    requires fits { Fits (pairs_network pairs.now) before after }
    ensures { result ≡ unwrap_or ((pairs_network pairs.now).empty before after) 0 }
{
    let Some(first) = pairs.move_at(before) else {
        return 0;
    };
    let Some(second) = pairs.move_at(after) else {
        return 0;
    };
    matrix.minutes(first.to, second.from).unwrap_or(0)
}

// The empty minutes after the trip of a slot, to its next trip or home.
fn minutes_after(pairs: &Pairs<'_>, matrix: &Matrix, links: &Links, slot: u16) -> u32
    requires matrix { matrix.now ≡ pairs.now.matrix }
    requires slot { slot < length pairs.now.moves }
    requires slots { length links.now ≡ length pairs.now.moves }
    requires links { AreLinks (pairs_network pairs.now) links.now }
    ensures value { result ≡ minutes_to (pairs_network pairs.now) slot (next_of links.now slot) }
    ensures bound { result ≤ LAST_MINUTE }
{
    // Its clauses say that the network is one of one day.
    let _slots = pairs.slots();
    match links.next(slot) {
        None => home_of(pairs, matrix, slot),
        Some(next) => between(pairs, matrix, slot, next),
    }
}

// The minutes out of the depot to the next trip of a slot, where there is one.
fn out_ahead(pairs: &Pairs<'_>, matrix: &Matrix, links: &Links, slot: u16) -> u32
    requires matrix { matrix.now ≡ pairs.now.matrix }
    requires slot { slot < length pairs.now.moves }
    requires slots { length links.now ≡ length pairs.now.moves }
    requires links { AreLinks (pairs_network pairs.now) links.now }
    ensures value { result ≡ minutes_out (pairs_network pairs.now) (next_of links.now slot) }
    ensures bound { result ≤ MOST_DEADHEAD }
{
    // Its clauses say that the network is one of one day.
    let _slots = pairs.slots();
    match links.next(slot) {
        None => 0,
        Some(next) => out_of(pairs, matrix, next),
    }
}

/// The empty minutes of the blocks that the links of a plan make. They are those out to each trip and after it, without those
/// out to trips that follow on another.
pub(crate) fn block_minutes(pairs: &Pairs<'_>, matrix: &Matrix, links: &Links) -> u32
    requires matrix { matrix.now ≡ pairs.now.matrix }
    requires slots { length links.now ≡ length pairs.now.moves }
    requires links { AreLinks (pairs_network pairs.now) links.now }
    ensures { result ≡ blocking.empty_minutes (pairs_network pairs.now) (blocks_along links.now (by_departure pairs.now.moves)) }
{
    let mut minutes = 0;
    let mut ahead = 0;
    for slot in 0..pairs.slots() {
        minutes += out_of(pairs, matrix, slot) + minutes_after(pairs, matrix, links, slot);
        ahead += out_ahead(pairs, matrix, links, slot);
    }
    minutes - ahead
}
