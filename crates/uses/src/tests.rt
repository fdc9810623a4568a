ghost use Rattle.std.specs.Prelude.{◌≡◌, ◌<◌, length, IfOk, IfSome};
ghost use Rattle.desk_feed.specs.Feed.{HasPapers};

use deadhead_matrix::Matrix;
use desk_core::Desk;
use desk_feed::{FEED_PAPERS, Feed, Judged, judge_feed, matrix_of};
use desk_io::{Memory, MemoryShelf, Shelf, Steps, Text};
use desk_run::Read;
use feed_desk::{Drawn, draw_after};
use feed_likings::read_likings;
use gtfs_tables::{FeedFault, MOST_BYTES};
use pair_graph::Pairs;
use std::alloc::Global;
use std::marker::Brand;
use std::sync::ledger::{Blank, Ledger};
use std::test::Fail;
use trip_model::Timetable;

// Three trips. The second can follow the first where a deadhead leads from B to C in half an hour.
const FEED: [(&str, &str); 2] = [
    (
        "trips.txt",
        "route_id,service_id,trip_id\nR,W,U1\nR,W,U2\nR,W,H\n",
    ),
    (
        "stop_times.txt",
        "trip_id,arrival_time,departure_time,stop_id,stop_sequence\nU1,06:00:00,06:00:00,A,1\nU1,06:30:00,06:30:00,B,2\nU2,07:00:00,07:00:00,C,1\nU2,07:30:00,07:30:00,A,2\nH,06:00:00,06:00:00,D,1\nH,06:30:00,06:30:00,E,2\n",
    ),
];

// The feed with these deadheads and these edits, as far as it was read.
fn read(alloc: Global, deadheads: &str, edits: &str) -> Result<Option<Read>, Memory>
    ensures { IfOk result (λ read. IfSome read (λ read. HasPapers read.pages)) }
{
    let mut shelf = MemoryShelf::open(alloc, Vec::new(alloc), Vec::new(alloc));
    for (name, text) in FEED {
        shelf.lay(alloc, name, text.as_bytes())?;
    }
    shelf.lay(alloc, "deadheads.csv", deadheads.as_bytes())?;
    shelf.lay(alloc, "edits.csv", edits.as_bytes())?;
    match Read::of_papers(alloc, &mut shelf, &FEED_PAPERS) {
        Ok(read) => Ok(Some(read)),
        Err(_) => Ok(None),
    }
}

// The desk after the edits of what was read, where no file is refused.
fn followed<L: Ledger>(
    alloc: Global,
    read: &Read,
    steps: &mut Steps<L>,
) -> Result<Option<Drawn>, Memory>
    requires { HasPapers read.now.pages }
{
    let Judged::Accepted(feed) = judge_feed(alloc, read)? else {
        return Ok(None);
    };
    let Feed {
        settings,
        timetable,
        deadheads,
        pulls,
        rules,
        lines,
    } = feed;
    let matrix = matrix_of(alloc, &timetable, &deadheads, pulls, rules)?;
    let likings = read_likings(alloc, &settings, read, &timetable)?;
    Ok(Some(draw_after(alloc, timetable, &lines, matrix, &likings, steps)?))
}

// The minutes of a least walk between two places by their names, or none where there is no walk or no such place.
fn walk(timetable: &Timetable, matrix: &Matrix, from: &str, to: &str) -> Option<u32>
    requires { length matrix.now.walks ≡ length timetable.now.places }
{
    let from = timetable.find_place(from)?;
    let to = timetable.find_place(to)?;
    matrix.minutes(from, to)
}

fn minutes(desk: &Desk, from: &str, to: &str) -> Option<u32> {
    walk(desk.timetable(), desk.matrix(), from, to)
}

// What it saves to make the second trip after the first, in the ledger that the blank becomes.
fn weight<L: Ledger>(desk: &Desk, steps: &mut Steps<L>) -> Option<u64> {
    let pairs = Pairs::of(desk.timetable(), desk.matrix());
    if pairs.slots() < 2 {
        return None;
    }
    pairs.weight(0, 1, steps)
}

// What the walks from B to C, from C to B and from X to X take, and what it saves to make the second trip after the first.
type Answers = (Option<u32>, Option<u32>, Option<u32>, Option<u64>);

fn answers<L: Ledger>(
    alloc: Global,
    deadheads: &Text,
    blank: Blank,
) -> Result<Option<Answers>, Memory>
    requires name { blank.name ≡ L.name }
    requires parts { blank.parts ≡ L.parts }
    requires shared { 0 < blank.parts }
{
    let mut steps = Steps::<L>::open(blank);
    let Some(read) = read(alloc, deadheads.as_str(), "")? else {
        return Ok(None);
    };
    let Some(drawn) = followed(alloc, &read, &mut steps)? else {
        return Ok(None);
    };
    let desk = &drawn.desk;
    let walks = (
        minutes(desk, "B", "C"),
        minutes(desk, "C", "B"),
        minutes(desk, "X", "X"),
    );
    Ok(Some((walks.0, walks.1, walks.2, weight(desk, &mut steps))))
}

#[test]
fn walks_and_weights_between_three_terminals(rt: HostRuntime) -> Result<(), Fail> {
    let alloc = rt.alloc();
    let rows: [(&str, Answers); 4] = [
        (
            "B,X,5\nX,C,10\n",
            (Some(15), None, Some(0), Some(67_108_849)),
        ),
        (
            "B,X,5\nB,C,20\n",
            (Some(20), None, Some(0), Some(67_108_844)),
        ),
        (
            "B,X,5\nB,C,30\n",
            (Some(30), None, Some(0), Some(67_108_834)),
        ),
        ("B,X,5\nB,C,31\n", (Some(31), None, Some(0), None)),
    ];
    for (records, expected) in rows {
        let deadheads = Text::wrap(format!(in alloc; "from,to,minutes\n{records}")?);
        let found = answers::<Brand>(alloc, &deadheads, Blank::new(1))?;
        assert!(rt; found == Some(expected));
    }
    Ok(())
}

// What the walks from A to C and back take.
type Walks = (Option<u32>, Option<u32>);

// How many places a timetable without trips has after these deadheads, and the walks, or none where a record is refused.
fn read_walks(alloc: Global, deadheads: &Text) -> Result<(u16, Option<Walks>), Memory> {
    let mut shelf = MemoryShelf::open(alloc, Vec::new(alloc), Vec::new(alloc));
    shelf.lay(alloc, "deadheads.csv", deadheads.as_str().as_bytes())?;
    let Ok(found) = shelf.read(alloc, "deadheads.csv", MOST_BYTES) else {
        return Err(Memory);
    };
    let mut timetable = Timetable::open(alloc, 0, 0);
    let walks = match Matrix::read(alloc, &found, &mut timetable) {
        Ok(matrix) => Some((
            walk(&timetable, &matrix, "A", "C"),
            walk(&timetable, &matrix, "C", "A"),
        )),
        Err(FeedFault::Memory) => return Err(Memory),
        Err(_refused) => None,
    };
    Ok((timetable.places(), walks))
}

#[test]
fn a_matrix_of_the_places_that_records_name(rt: HostRuntime) -> Result<(), Fail> {
    let alloc = rt.alloc();
    // A record that is refused gives no place.
    let rows = [
        ("A,B,5\nB,C,10\n", (3, Some((Some(15), None)))),
        ("A,B,5\nB,C,10\nA,C,12\n", (3, Some((Some(12), None)))),
        ("A,B,5\nC,D,x\n", (2, None)),
    ];
    for (records, expected) in rows {
        let deadheads = Text::wrap(format!(in alloc; "from,to,minutes\n{records}")?);
        let found = read_walks(alloc, &deadheads)?;
        assert!(rt; found == expected);
    }
    Ok(())
}

// How many slots the last kept edit changed in the plan, where an edit is kept.
fn changed<L: Ledger>(
    alloc: Global,
    edits: &Text,
    blank: Blank,
) -> Result<Option<Option<usize>>, Memory>
    requires name { blank.name ≡ L.name }
    requires parts { blank.parts ≡ L.parts }
    requires shared { 0 < blank.parts }
{
    let mut steps = Steps::<L>::open(blank);
    let Some(read) = read(alloc, "from,to,minutes\nB,C,30\n", edits.as_str())? else {
        return Ok(None);
    };
    let Some(drawn) = followed(alloc, &read, &mut steps)? else {
        return Ok(None);
    };
    match drawn.desk.last_change() {
        Some(changes) => Ok(Some(Some(changes.len()))),
        None => Ok(Some(None)),
    }
}

#[test]
fn what_the_last_kept_edit_changed(rt: HostRuntime) -> Result<(), Fail> {
    let alloc = rt.alloc();
    // No other trip is linked with H, so that nothing of the plan changes but which trips run.
    let rows = [("cancel,H\n", Some(0)), ("cancel,H\nundo\n", None)];
    for (edits, expected) in rows {
        let edits = Text::of(alloc, edits)?;
        let found = changed::<Brand>(alloc, &edits, Blank::new(1))?;
        assert!(rt; found == Some(expected));
    }
    Ok(())
}
