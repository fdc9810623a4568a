ghost use Rattle.std.specs.Prelude.{◌≡◌, ◌≤◌, IfSome};
ghost use Rattle.desk_program.specs.Commands as spec;
ghost use Rattle.feed_sample.specs.declared.sample.TheConstants.{MOST_SAMPLE};

use desk_io::Text;
use feed_sample::MOST_SAMPLE;
use gtfs_tables::read_number;

/// What the words after the program's name ask for.
#[derive(Clone, Copy)]
pub enum CommandName {
    /// The deficit functions of a feed.
    Deficits,
    /// Blocks without deadheads, and their number.
    Fixed,
    /// The blocks with the fewest vehicles and then the fewest empty minutes, with the prices that prove it.
    Blocks,
    /// Whether two files of blocks and prices prove that the blocks are least.
    Check,
    /// The feed written again, with the block of each trip.
    Write,
    /// Charts of deficits and of blocks.
    Chart,
    /// Chains of deadheads with which one vehicle less suffices each.
    Chains,
    /// Shifts within tolerances with which fewer vehicles suffice.
    Shifts,
    /// The accepted edits of the script, appended to the journal.
    Keep,
    /// The journal as a script.
    Kept,
    /// The deficits with the deadheads of blocks put in, and running boards.
    Joined,
    /// The records of several planners on one timetable.
    Planners,
    /// Whether the blocks that the feed has fit, and how far they are from the least.
    Audit,
    /// The summary of a generated feed of so many trips.
    Sample(u32),
}

// The command of that name.
fn command_named(word: &str) -> Option<CommandName>
    ensures { result ≡ spec.command_named word.now }
{
    match word {
        "deficits" => Some(CommandName::Deficits),
        "fixed" => Some(CommandName::Fixed),
        "blocks" => Some(CommandName::Blocks),
        "check" => Some(CommandName::Check),
        "write" => Some(CommandName::Write),
        "chart" => Some(CommandName::Chart),
        "chains" => Some(CommandName::Chains),
        "shifts" => Some(CommandName::Shifts),
        "keep" => Some(CommandName::Keep),
        "kept" => Some(CommandName::Kept),
        "joined" => Some(CommandName::Joined),
        "planners" => Some(CommandName::Planners),
        "audit" => Some(CommandName::Audit),
        _ => None,
    }
}

// How many digits a number below 10,000 has.
fn digits_of(number: u64) -> usize
    ensures { result ≡ spec.digits_of number }
{
    match number {
        ..10 => 1,
        ..100 => 2,
        ..1000 => 3,
        _ => 4,
    }
}

// The number of trips that a word has: its digits alone, without a zero in front, and no more than a sample may have.
fn trips_in(word: &str) -> Option<u32>
    ensures value { result ≡ spec.trips_in word.now }
    ensures few { IfSome result (λ trips. trips ≤ MOST_SAMPLE) }
{
    let number = read_number(word, 4)?;
    if word.len() != digits_of(number) || number > u64::from(MOST_SAMPLE) {
        return None;
    }
    Some(number as u32)
}

/// The command that the words name, and None where they are of no form.
pub fn command_of(words: &[Text]) -> Option<CommandName>
    ensures command { result ≡ spec.command_of words.now }
    ensures few { IfSome result spec.IsMakeable }
{
    match words {
        [command, trips] if command.as_str() == "sample" => match trips_in(trips.as_str()) {
            Some(trips) => Some(CommandName::Sample(trips)),
            None => None,
        },
        [command, _folder] => command_named(command.as_str()),
        _ => None,
    }
}

/// The folder that is read and written: the second of two words, but for `sample`, which works on none.
pub fn folder_of(words: &[Text]) -> &str
    ensures { result.now ≡ spec.folder_of words.now }
{
    match words {
        [command, folder] if command.as_str() != "sample" => folder.as_str(),
        _ => ".",
    }
}
