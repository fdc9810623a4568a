ghost use Rattle.std.specs.Prelude.{◌≡◌, ◌++◌, IfOk, OnOk, codes, string_bytes};
ghost use Rattle.gtfs_tables.specs.Reading.{Gives};
ghost use Rattle.desk_feed.specs.Script.{IsScript, ending_by};
ghost use Rattle.desk_run.specs.Outside.{outside};
ghost use Rattle.desk_run.specs.Performs.{Performs};
ghost use Rattle.journal_commands.specs.Journal as journal_spec;
ghost use Rattle.journal_commands.specs.Keep as spec;
ghost use Rattle.journal_commands.specs.Keep.{keep_asked};

use crate::journal::{journal_text, lines_loaded, script_loaded, text_script};
use crate::replay::{Replay, Source};
use desk_feed::{FeedCommand, OnFeed, Said, ending_by, refuse};
use desk_io::{Memory, Shelf, Sink, Steps, Text};
use desk_keeper::{Keeper, Lines};
use desk_run::{Loaded, Outcome, perform};
use edit_script::laws::{machine_law, read_back_law};
use edit_script::{Line, Script, follow_records};
use gtfs_tables::{FeedFault, MOST_RECORDS, Paper};
use std::alloc::Global;
use std::fmt::Write;
use std::sync::ledger::Ledger;
use trip_model::Timetable;

// The records of a journal with more lines, which may be no more than a journal may have.
fn script_with(alloc: Global, stored: &[Text], kept: &[Text]) -> Result<Vec<Line>, FeedFault>
    ensures { Gives (λ lines. lines.items) result (journal_spec.script_with stored.now kept.now) }
{
    if kept.len() > MOST_RECORDS as usize || stored.len() > MOST_RECORDS as usize - kept.len() {
        return Err(FeedFault::TooManyRecords(Paper::Journal));
    }
    let text = journal_text(alloc, stored, kept)?;
    text_script(alloc, &text)
}

// What is done after all records.
fn appended(alloc: Global, stored: &[Text], replay: Replay) -> Result<Outcome<'static>, Memory>
    ensures { IfOk result (λ outcome. outcome ≡ spec.appending (string_bytes replay.text) replay.kept.items (ending_by replay.some)
        (journal_spec.script_with stored.now replay.kept.items)) }
{
    match script_with(alloc, stored, &replay.kept) {
        Ok(lines) => {
            let mut text = replay.text;
            writeln!(text, "kept {} records", lines.len())?;
            let kept = Lines::wrap(replay.kept);
            let ending = ending_by(replay.some);
            Ok(Outcome::of(Vec::new(alloc), Some(kept), Text::wrap(text), ending))
        }
        Err(FeedFault::Memory) => Err(Memory),
        Err(refused) => refuse(alloc, &refused),
    }
}

// What is done of the records of a journal, and then of those of a script.
fn kept_lines(
    alloc: Global,
    timetable: Timetable,
    stored: &[Text],
    journal: &[Line],
    lines: &[Line],
) -> Result<Outcome<'static>, Memory>
    requires journal { IsScript journal.now }
    requires lines { IsScript lines.now }
    ensures { IfOk result (λ outcome. outcome ≡ spec.keeping_lines timetable stored.now journal.now lines.now) }
{
    machine_law();
    let script = Script::open(alloc, timetable)?;
    let text = format!(in alloc; "journal {} records\n", journal.len())?;
    let mut replay = Replay {
        alloc,
        source: Source::Journal,
        before: 0,
        script,
        text,
        kept: Vec::new(alloc),
        some: false,
    };
    follow_records(&mut replay, journal, &mut ())?;
    replay.source = Source::Edits;
    replay.before = journal.len() as u32;
    follow_records(&mut replay, lines, &mut ())?;
    appended(alloc, stored, replay)
}

// What is done of a journal as it was loaded, and of a script.
fn kept(
    alloc: Global,
    timetable: Timetable,
    loaded: &Loaded,
    lines: &[Line],
) -> Result<Outcome<'static>, Memory>
    requires { IsScript lines.now }
    ensures { IfOk result (λ outcome. outcome
        ≡ spec.keeping_by timetable (journal_spec.lines_loaded loaded.now) lines.now (journal_spec.script_loaded loaded.now)) }
{
    match script_loaded(alloc, loaded) {
        Ok(journal) => kept_lines(alloc, timetable, lines_loaded(loaded), &journal, lines),
        Err(FeedFault::Memory) => Err(Memory),
        Err(refused) => refuse(alloc, &refused),
    }
}

#[derive(Drop)]
struct KeepEdits;

impl FeedCommand for KeepEdits {
    ghost use Rattle.journal_commands.specs.Keep.{keep_does};

    ghost asks = { λ _. keep_does };

    fn outcome<'a, L: Ledger>(
        &self,
        said: Said<'a, '_>,
        _steps: &mut Steps<L>,
    ) -> Result<Outcome<'a>, Memory> {
        read_back_law();
        kept(said.alloc, said.timetable, said.read.journal(), said.lines)
    }
}

/// The command `keep`. The edit machine takes the records of the journal and then those of the script. The accepted records of
/// the script, but for shows, are appended to the journal. It answers the status.
#[tactic(auto, unfolding(crate::specs::Keep::keep_asked))]
pub fn run_keep<S: Shelf, O: Sink, K: Keeper, L: Ledger>(
    alloc: Global,
    shelf: &mut S,
    out: &mut O,
    keeper: &mut K,
    steps: &mut Steps<L>,
) -> u8
    ensures { let at = outside S.state S.history O.state O.history K.state K.history in
        Performs keep_asked (at shelf.old out.old keeper.old) (at shelf.new out.new keeper.new) result steps.old steps.new }
{
    perform(&OnFeed::keep(KeepEdits), alloc, shelf, out, keeper, steps)
}
