ghost use Rattle.std.specs.Prelude.{◌≡◌, ◌++◌, IfOk, IsUtf8, OnOk, string_bytes};
ghost use Rattle.gtfs_tables.specs.Reading.{Gives};
ghost use Rattle.desk_feed.specs.Script.{IsScript};
ghost use Rattle.journal_commands.specs.Journal as spec;

use desk_io::{Memory, Text};
use desk_run::Loaded;
use edit_script::{Line, read_script};
use gtfs_tables::{FeedFault, Paper};
use std::alloc::Global;

// Appends lines, each with a line feed.
fn push_lines(text: &mut String, lines: &[Text]) -> Result<(), Memory>
    ensures { OnOk result (string_bytes text.new ≡ string_bytes text.old ++ spec.journal_text lines.now) }
{
    for line in lines {
        text.push_str(line.as_str())?;
        text.push_str("\n")?;
    }
    Ok(())
}

/// The text of a journal with more lines: its lines, each with a line feed, and then these.
pub(crate) fn journal_text(alloc: Global, lines: &[Text], more: &[Text]) -> Result<Text, Memory>
    ensures { IfOk result (λ text. text ≡ spec.journal_text (lines.now ++ more.now)) }
{
    let mut text = String::new(alloc);
    push_lines(&mut text, lines)?;
    push_lines(&mut text, more)?;
    Ok(Text::wrap(text))
}

/// The records of the text of a journal.
pub(crate) fn text_script(alloc: Global, text: &Text) -> Result<Vec<Line>, FeedFault>
    ensures gives { Gives (λ lines. lines.items) result (spec.text_script text.now) }
    ensures script { IfOk result (λ lines. IsScript lines.items) }
{
    read_script(alloc, Paper::Journal, text.as_str().as_bytes())
}

/// The lines of a journal as it was loaded.
pub(crate) fn lines_loaded(loaded: &Loaded) -> &[Text]
    ensures { result.now ≡ spec.lines_loaded loaded.now }
{
    match loaded {
        Loaded::Lines(lines) => lines.as_slice(),
        Loaded::TooLong | Loaded::Unasked => &[],
    }
}

/// The records of a journal as it was loaded.
pub(crate) fn script_loaded(alloc: Global, loaded: &Loaded) -> Result<Vec<Line>, FeedFault>
    ensures gives { Gives (λ lines. lines.items) result (spec.script_loaded loaded.now) }
    ensures script { IfOk result (λ lines. IsScript lines.items) }
{
    match loaded {
        Loaded::Lines(lines) => {
            let text = journal_text(alloc, lines.as_slice(), &[])?;
            text_script(alloc, &text)
        }
        Loaded::TooLong => Err(FeedFault::TooLong(Paper::Journal)),
        Loaded::Unasked => Ok(Vec::new(alloc)),
    }
}
