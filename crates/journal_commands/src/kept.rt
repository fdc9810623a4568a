ghost use Rattle.std.specs.Prelude.{◌≡◌, IfOk};
ghost use Rattle.desk_run.specs.Commands.{IsGiven};
ghost use Rattle.desk_run.specs.Outside.{outside};
ghost use Rattle.desk_run.specs.Performs.{Performs};
ghost use Rattle.journal_commands.specs.Journal as journal_spec;
ghost use Rattle.journal_commands.specs.Kept as spec;
ghost use Rattle.journal_commands.specs.Kept.{kept_asked};

use crate::journal::{journal_text, lines_loaded, script_loaded};
use desk_feed::refuse;
use desk_io::{Memory, Shelf, Sink, Steps, Text};
use desk_keeper::Keeper;
use desk_run::{Command, Ending, Outcome, Read, Writing, perform};
use gtfs_tables::{FeedFault, Paper};
use std::alloc::Global;
use std::sync::ledger::Ledger;

// What is done of a journal with so many records.
fn written(alloc: Global, lines: &[Text], records: usize) -> Result<Outcome<'static>, Memory>
    ensures { IfOk result (λ outcome. outcome ≡ spec.writing_lines lines.now records) }
{
    let text = journal_text(alloc, lines, &[])?;
    let writing = Writing::of(alloc, Paper::Edits.file_name(), text)?;
    let writes = vec![in alloc; writing]?;
    let line = format!(in alloc; "kept {records} records\n")?;
    Ok(Outcome::of(writes, None, Text::wrap(line), Ending::Done))
}

// What is done of the journal that was read.
fn journal_written(alloc: Global, read: &Read) -> Result<Outcome<'static>, Memory>
    ensures { IfOk result (IsGiven kept_asked read.now) }
{
    let loaded = read.journal();
    match script_loaded(alloc, loaded) {
        Ok(script) => written(alloc, lines_loaded(loaded), script.len()),
        Err(FeedFault::Memory) => Err(Memory),
        Err(refused) => refuse(alloc, &refused),
    }
}

struct WriteJournal;

impl Command for WriteJournal {
    ghost use Rattle.journal_commands.specs.Kept.{kept_asked};

    ghost asked = { λ _. kept_asked };

    fn papers(&self) -> &[Paper] {
        &[]
    }

    fn keeps(&self) -> bool {
        true
    }

    fn outcome<'a, L: Ledger>(
        &self,
        alloc: Global,
        read: &'a Read,
        _steps: &mut Steps<L>,
    ) -> Result<Outcome<'a>, Memory> {
        journal_written(alloc, read)
    }
}

/// The command `kept`: the journal as a script in `edits.csv`, and how many records it has. It answers the status.
pub fn run_kept<S: Shelf, O: Sink, K: Keeper, L: Ledger>(
    alloc: Global,
    shelf: &mut S,
    out: &mut O,
    keeper: &mut K,
    steps: &mut Steps<L>,
) -> u8
    ensures { let at = outside S.state S.history O.state O.history K.state K.history in
        Performs kept_asked (at shelf.old out.old keeper.old) (at shelf.new out.new keeper.new) result steps.old steps.new }
{
    perform(&WriteJournal, alloc, shelf, out, keeper, steps)
}
