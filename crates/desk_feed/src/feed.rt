ghost use Rattle.std.specs.Prelude.{◌≡◌, length, IfOk};
ghost use Rattle.gtfs_tables.specs.Reading.{Gives};
ghost use Rattle.desk_run.specs.Reading.{found_of};
ghost use Rattle.desk_feed.specs.Feed as spec;
ghost use Rattle.desk_feed.specs.Script.{IsScript};

use deadhead_matrix::{Deadheads, Pulls};
use desk_run::Read;
use desk_settings::Settings;
use edit_script::{Line, read_script};
use gtfs_tables::{FeedFault, Paper, optional_bytes};
use pair_rules::PairRules;
use service_days::running;
use std::alloc::Global;
use trip_model::Timetable;

/// What a feed says. The settings of the desk, where they have a date with the services alone that run on it. The timetable
/// before its script, the deadheads between its places, their pulls, the rules of pairs, and the lines of its script.
#[derive(Drop)]
pub struct Feed {
    pub settings: Settings,
    pub timetable: Timetable,
    pub deadheads: Deadheads,
    pub pulls: Pulls,
    pub rules: PairRules,
    pub lines: Vec<Line>,
}

// The settings with the services alone that run on their date, where they have one.
fn kept_on_date(alloc: Global, settings: Settings, read: &Read) -> Result<Settings, FeedFault>
    requires { spec.HasPapers read.now.pages }
    ensures { Gives (λ kept. kept) result (spec.selection_in (found_of read.now.pages) settings) }
{
    let Some(date) = settings.date() else {
        return Ok(settings);
    };
    let calendar = read.found(Paper::Calendar);
    let dates = read.found(Paper::CalendarDates);
    let services = running(alloc, date, calendar, dates)?;
    let mut kept = settings;
    kept.keep_services(&services)?;
    Ok(kept)
}

fn read_settings(alloc: Global, read: &Read) -> Result<Settings, FeedFault>
    requires { spec.HasPapers read.now.pages }
    ensures { Gives (λ settings. settings) result (spec.settings_in (found_of read.now.pages)) }
{
    let settings = read.found(Paper::Settings);
    let terminals = read.found(Paper::Terminals);
    let tolerances = read.found(Paper::Tolerances);
    let settings = Settings::read(alloc, settings, terminals, tolerances)?;
    kept_on_date(alloc, settings, read)
}

fn read_timetable(alloc: Global, settings: &Settings, read: &Read) -> Result<Timetable, FeedFault>
    requires { spec.HasPapers read.now.pages }
    ensures { Gives (λ timetable. timetable) result (spec.timetable_in (found_of read.now.pages) settings.now) }
{
    let trips = read.found(Paper::Trips);
    let stop_times = read.found(Paper::StopTimes);
    feed_read::read_base(alloc, trips, stop_times, settings)
}

fn read_deadheads(
    alloc: Global,
    timetable: &mut Timetable,
    read: &Read,
) -> Result<Deadheads, FeedFault>
    requires { spec.HasPapers read.now.pages }
    ensures { Gives (λ entries. (timetable.new, entries)) result (spec.deadheads_in (found_of read.now.pages) timetable.old) }
{
    Deadheads::read(alloc, read.found(Paper::Deadheads), timetable)
}

fn read_pulls(alloc: Global, timetable: &Timetable, read: &Read) -> Result<Pulls, FeedFault>
    requires { spec.HasPapers read.now.pages }
    ensures gives { Gives (λ pulls. pulls) result (spec.pulls_in (found_of read.now.pages) timetable.now) }
    ensures places { IfOk result (λ pulls. length pulls ≡ length timetable.now.places) }
{
    Pulls::read(alloc, read.found(Paper::Depot), timetable)
}

fn read_rules(alloc: Global, read: &Read) -> Result<PairRules, FeedFault>
    requires { spec.HasPapers read.now.pages }
    ensures { Gives (λ rules. rules) result (spec.rules_in (found_of read.now.pages)) }
{
    PairRules::read(alloc, read.found(Paper::Pairs))
}

// The lines of the script, none where there is no file of edits.
fn read_lines(alloc: Global, read: &Read) -> Result<Vec<Line>, FeedFault>
    requires { spec.HasPapers read.now.pages }
    ensures gives { Gives (λ lines. lines.items) result (spec.lines_in (found_of read.now.pages)) }
    ensures script { IfOk result (λ lines. IsScript lines.items) }
{
    match optional_bytes(Paper::Edits, read.found(Paper::Edits))? {
        Some(bytes) => read_script(alloc, Paper::Edits, bytes),
        None => Ok(Vec::new(alloc)),
    }
}

/// The settings, the timetable, the deadheads, the pulls, the rules of pairs and the script of a feed. Or the first refusal in
/// the order in which its papers are judged.
#[tactic(auto, unfolding(crate::specs::Feed::said_by))]
pub(crate) fn read_feed(alloc: Global, read: &Read) -> Result<Feed, FeedFault>
    requires { spec.HasPapers read.now.pages }
    ensures gives { Gives spec.said_of result (spec.said_by (found_of read.now.pages)) }
    ensures pulls { IfOk result spec.HavePulls }
    ensures script { IfOk result (λ feed. IsScript feed.lines.items) }
{
    let settings = read_settings(alloc, read)?;
    let mut timetable = read_timetable(alloc, &settings, read)?;
    let deadheads = read_deadheads(alloc, &mut timetable, read)?;
    let pulls = read_pulls(alloc, &timetable, read)?;
    let rules = read_rules(alloc, read)?;
    let lines = read_lines(alloc, read)?;
    Ok(Feed {
        settings,
        timetable,
        deadheads,
        pulls,
        rules,
        lines,
    })
}
