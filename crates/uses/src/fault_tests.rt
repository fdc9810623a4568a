ghost use Rattle.std.specs.Prelude.{◌≡◌, ◌<◌};

use desk_io::{Memory, MemoryShelf, MemorySink, Steps, Text};
use desk_keeper::MemoryKeeper;
use desk_program::run;
use std::alloc::Global;
use std::marker::Brand;
use std::sync::ledger::{Blank, Ledger};
use std::test::Fail;

// Two trips. Shifted by one minute, the second can follow the first with a deadhead of 31 minutes. Its tolerance allows that
// shift once.
const FEED: [(&str, &str); 5] = [
    ("trips.txt", "route_id,service_id,trip_id\nR,W,U1\nR,W,U2\n"),
    (
        "stop_times.txt",
        "trip_id,arrival_time,departure_time,stop_id,stop_sequence\nU1,06:00:00,06:00:00,A,1\nU1,06:30:00,06:30:00,B,2\nU2,07:00:00,07:00:00,C,1\nU2,07:30:00,07:30:00,A,2\n",
    ),
    ("deadheads.csv", "from,to,minutes\nB,C,31\n"),
    ("tolerances.csv", "trip_id,early,late\nU2,0,1\n"),
    ("edits.csv", "shift,U2,+1\nshift,U2,+1\n"),
];

// A command, the names and texts of the two files that it writes, and the text that it puts.
#[derive(Clone, Copy)]
struct Run {
    command: &'static str,
    first: &'static str,
    first_text: &'static str,
    second: &'static str,
    second_text: &'static str,
    text: &'static str,
}

const BLOCKS: Run = Run {
    command: "blocks",
    first: "blocks.csv",
    first_text: "block_id,trip_id,deadhead\nB1,U1,0\nB1,U2,31\n",
    second: "prices.csv",
    second_text: "trip_id,leave,enter\nU1,0,0\nU2,0,67108833\n",
    text: "record 1: ok, fixed 2, vehicles 1, minutes 31\nrecord 2: refused, U2: outside tolerance (+2)\nfixed 2, vehicles 1, minutes 31\n",
};

const WRITE: Run = Run {
    command: "write",
    first: "trips_blocks.txt",
    first_text: "route_id,service_id,trip_id,block_id\nR,W,U1,B1\nR,W,U2,B1\n",
    second: "stop_times_blocks.txt",
    second_text: "trip_id,arrival_time,departure_time,stop_id,stop_sequence\nU1,06:00:00,06:00:00,A,1\nU1,06:30:00,06:30:00,B,2\nU2,07:01:00,07:01:00,C,1\nU2,07:31:00,07:31:00,A,2\n",
    text: "record 2: refused, U2: outside tolerance (+2)\nwrote trips_blocks.txt, stop_times_blocks.txt\n",
};

// `keep` and `deficits` write no file.
const KEEP: Run = Run {
    command: "keep",
    first: "blocks.csv",
    first_text: "",
    second: "prices.csv",
    second_text: "",
    text: "journal 0 records\nrecord 1: ok\nrecord 2: refused, U2: outside tolerance (+2)\nkept 1 records\n",
};

const DEFICITS: Run = Run {
    command: "deficits",
    text: "record 2: refused, U2: outside tolerance (+2)\nA max 1 at 06:00\n 06:00 1\n 07:31 0\nB max 0 at 00:00\n 06:30 -1\nC max 1 at 07:01\n 07:01 1\nsum 2\n",
    ..KEEP
};

// Which read, write, call of the keeper and put of a run fails, counted from 1; 0 where none does. Then how many bytes of a
// text one put takes at the most, and how many all of them.
#[derive(Clone, Copy)]
struct Faults {
    read: u32,
    write: u32,
    call: u32,
    put: u32,
    chunk: usize,
    room: usize,
}

const NONE: Faults = Faults {
    read: 0,
    write: 0,
    call: 0,
    put: 0,
    chunk: 16,
    room: 200,
};

// How many bytes there are of a text, where they are its first ones, or that they are not.
fn prefix(bytes: Option<&[u8]>, text: &str) -> usize {
    match bytes {
        None => 0,
        Some(bytes) if text.as_bytes().starts_with(bytes) => bytes.len(),
        Some(_) => usize::MAX,
    }
}

// How many lines a journal has, where each is the edit of the feed that is accepted, or that one is not.
fn edits(lines: &[Text]) -> usize {
    if lines.iter().all(|line| line.as_str() == "shift,U2,+1") {
        lines.len()
    } else {
        usize::MAX
    }
}

// A run over words, a shelf, a sink and a keeper in the ledger that the blank becomes.
fn counted<L: Ledger>(
    alloc: Global,
    words: &[Text],
    shelf: &mut MemoryShelf,
    out: &mut MemorySink,
    keeper: &mut MemoryKeeper,
    blank: Blank,
) -> u8
    requires name { blank.name ≡ L.name }
    requires parts { blank.parts ≡ L.parts }
    requires shared { 0 < blank.parts }
{
    let mut steps = Steps::<L>::open(blank);
    run(alloc, words, shelf, out, keeper, &mut steps)
}

// A status, how many bytes of two files, how many lines of a journal, and how many bytes of a text.
type Stood = (u8, usize, usize, usize, usize);

// A shelf with the feed, whose read and write of these faults fail.
fn shelf_of(alloc: Global, faults: Faults) -> Result<MemoryShelf, Memory> {
    let reads = vec![in alloc; faults.read]?;
    let mut shelf = MemoryShelf::open(alloc, reads, vec![in alloc; faults.write]?);
    for (name, text) in FEED {
        shelf.lay(alloc, name, text.as_bytes())?;
    }
    Ok(shelf)
}

// A sink that takes what these faults say, and whose put of them fails.
fn sink_of(alloc: Global, faults: Faults) -> Result<MemorySink, Memory> {
    let puts = vec![in alloc; faults.put]?;
    MemorySink::open(alloc, faults.chunk.max(1), puts, faults.room)
}

// What a run leaves: its status, its two files, the journal, and the text that was put.
fn stands(alloc: Global, run: Run, faults: Faults) -> Result<Stood, Memory> {
    let words = vec![in alloc; Text::of(alloc, run.command)?, Text::of(alloc, "feed")?]?;
    let mut shelf = shelf_of(alloc, faults)?;
    let mut keeper = MemoryKeeper::open(alloc, vec![in alloc; faults.call]?);
    let mut out = sink_of(alloc, faults)?;
    let blank = Blank::new(1);
    let status = counted::<Brand>(alloc, &words, &mut shelf, &mut out, &mut keeper, blank);
    Ok((
        status,
        prefix(shelf.file(run.first), run.first_text),
        prefix(shelf.file(run.second), run.second_text),
        edits(keeper.lines()),
        prefix(Some(out.written()), run.text),
    ))
}

#[test]
fn each_file_that_cannot_be_read_ends_a_run(rt: HostRuntime) -> Result<(), Fail> {
    for read in 1..11 {
        let stood = stands(rt.alloc(), BLOCKS, Faults { read, ..NONE })?;
        assert_eq!(rt; stood, (5, 0, 0, 0, 0));
    }
    Ok(())
}

// A run, what of it fails, and what is left.
type Row = (Run, Faults, Stood);

// A file whose write fails has its first half.
const ROWS: &[Row] = &[
    (BLOCKS, NONE, (1, 43, 41, 0, 124)),
    (BLOCKS, Faults { write: 1, ..NONE }, (6, 21, 0, 0, 0)),
    (BLOCKS, Faults { write: 2, ..NONE }, (6, 43, 20, 0, 0)),
    (BLOCKS, Faults { put: 1, ..NONE }, (6, 43, 41, 0, 0)),
    (BLOCKS, Faults { put: 2, ..NONE }, (6, 43, 41, 0, 16)),
    (BLOCKS, Faults { put: 3, ..NONE }, (6, 43, 41, 0, 32)),
    (BLOCKS, Faults { put: 4, ..NONE }, (6, 43, 41, 0, 48)),
    (BLOCKS, Faults { put: 5, ..NONE }, (6, 43, 41, 0, 64)),
    (BLOCKS, Faults { put: 6, ..NONE }, (6, 43, 41, 0, 80)),
    (BLOCKS, Faults { put: 7, ..NONE }, (6, 43, 41, 0, 96)),
    (BLOCKS, Faults { put: 8, ..NONE }, (6, 43, 41, 0, 112)),
    (BLOCKS, Faults { room: 50, ..NONE }, (6, 43, 41, 0, 50)),
    (WRITE, NONE, (1, 57, 158, 0, 92)),
    (WRITE, Faults { write: 2, ..NONE }, (6, 57, 79, 0, 0)),
    (KEEP, NONE, (1, 0, 0, 1, 92)),
    (KEEP, Faults { call: 1, ..NONE }, (7, 0, 0, 0, 0)),
    (KEEP, Faults { call: 2, ..NONE }, (7, 0, 0, 0, 0)),
    (KEEP, Faults { put: 1, ..NONE }, (6, 0, 0, 1, 0)),
    (
        DEFICITS,
        Faults {
            put: 3,
            chunk: 8,
            ..NONE
        },
        (6, 0, 0, 0, 16),
    ),
];

#[test]
fn what_stands_up_to_the_call_that_fails(rt: HostRuntime) -> Result<(), Fail> {
    for (run, faults, stood) in ROWS.iter().copied() {
        assert_eq!(rt; stands(rt.alloc(), run, faults)?, stood);
    }
    Ok(())
}
