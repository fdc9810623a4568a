use desk_io::{FolderShelf, Host, Memory, OutSink, Steps, Text};
use desk_program::{folder_of, run};
use sqlite_keeper::SqliteKeeper;
use std::sync::ledger::Ledger;

/// A real folder with its journal, and standard output.
#[derive(Drop)]
pub struct Outer<'a> {
    shelf: FolderShelf<Host<'a, HostRuntime>>,
    out: OutSink<Host<'a, HostRuntime>>,
    keeper: SqliteKeeper<'a>,
}

impl<'a> Outer<'a> {
    ghost use Rattle.std.specs.Prelude.{◌≡◌, [], IfOk};
    ghost use Rattle.desk_program.specs.Commands as spec;
    ghost use Rattle.desk_program.specs.Runs.{IsRun};
    ghost use Rattle.blockdesk.specs.Outer.{asked_of_files, asked_of_output, folder_named_by, journal_named_by, nothing_yet, outside_of};

    /// The folder that the words name, with its journal, and standard output. No call came, and the system was asked nothing.
    pub fn of(rt: &'a HostRuntime, words: &[Text]) -> Result<Outer<'a>, Memory>
        ensures folder { IfOk result (λ outer. folder_named_by outer ≡ spec.folder_of words.now) }
        ensures journal { IfOk result (λ outer. journal_named_by outer ≡ spec.folder_of words.now) }
        ensures nothing { IfOk result (λ outer. outside_of outer ≡ nothing_yet) }
        ensures unasked { IfOk result (λ outer. (asked_of_files outer ≡ []) × (asked_of_output outer ≡ [])) }
    {
        let folder = Text::of(rt.alloc(), folder_of(words))?;
        let kept = Text::of(rt.alloc(), folder_of(words))?;
        Ok(Outer {
            shelf: FolderShelf::over(Host::of(rt), folder),
            out: OutSink::over(Host::of(rt)),
            keeper: SqliteKeeper::over(rt, kept),
        })
    }

    /// The run of the command that the words name. It answers the status.
    pub fn run<L: Ledger>(&mut self, rt: &HostRuntime, words: &[Text], steps: &mut Steps<L>) -> u8
        ensures { IsRun (spec.command_of words.now) (outside_of self.old) (outside_of self.new) result steps.old steps.new }
    {
        run(
            rt.alloc(),
            words,
            &mut self.shelf,
            &mut self.out,
            &mut self.keeper,
            steps,
        )
    }
}
