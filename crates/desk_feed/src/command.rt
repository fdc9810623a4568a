ghost use Rattle.std.specs.Prelude.{◌≡◌, ◌+◌, ◌++◌, ◌≤◌, [], false, true, length, IfOk, Ok};
ghost use Rattle.desk_feed.specs.Commands.{said_to, stands_for};
ghost use Rattle.desk_feed.specs.Feed.{HavePulls, feed_papers, said_of};
ghost use Rattle.desk_feed.specs.Judging.{IsGivenOf, said_in};
ghost use Rattle.desk_feed.specs.Script.{IsScript};
ghost use Rattle.desk_feed.specs.Showing.{PutsBehind, stands_with};
ghost use Rattle.desk_run.specs.Reading.{papers_of};

use crate::feed::Feed;
use crate::judging::{FEED_PAPERS, Judged, judge_feed};
use crate::script::{Edited, after_script, putting_after};
use deadhead_matrix::{Deadheads, Pulls};
use desk_io::{Memory, Steps, Text};
use desk_run::{Command, Outcome, Read};
use desk_settings::Settings;
use edit_script::Line;
use gtfs_tables::Paper;
use pair_rules::PairRules;
use std::alloc::Global;
use std::marker::Model;
use std::sync::ledger::Ledger;
use trip_model::Timetable;

/// What a command has of an accepted feed: what was read, and what that says. The parts that no command uses up are lent.
#[derive(Drop)]
pub struct Said<'a, 'f> {
    pub alloc: Global,
    /// What was read.
    pub read: &'a Read,
    pub settings: &'f Settings,
    /// The timetable before the script.
    pub timetable: Timetable,
    pub deadheads: &'f Deadheads,
    /// The pulls of the depot.
    pub pulls: Pulls,
    /// The rules of pairs.
    pub rules: PairRules,
    /// The lines of the script.
    pub lines: &'f [Line],
}

/// What a command brings that works on a feed: what it asks, and the outcome that it gives of what an accepted feed says.
pub trait FeedCommand {
    ghost use Rattle.std.specs.Prelude.{◌≡◌, ◌+◌, ◌++◌, ◌≤◌, length, IfOk, Ok};
    ghost use Rattle.desk_feed.specs.Commands.{said_to};
    ghost use Rattle.desk_feed.specs.Feed.{feed_papers};
    ghost use Rattle.desk_feed.specs.Judging.{FeedAsked, IsGivenOf, said_in};
    ghost use Rattle.desk_feed.specs.Script.{IsScript};
    ghost use Rattle.desk_run.specs.Reading.{papers_of};

    /// What it asks.
    ghost asks: { Self → FeedAsked };

    /// What it does of what the feed says.
    fn outcome<'a, L: Ledger>(
        &self,
        said: Said<'a, '_>,
        steps: &mut Steps<L>,
    ) -> Result<Outcome<'a>, Memory>
        requires papers { papers_of said.read.now.pages ≡ feed_papers ++ (asks self.now).further }
        requires says { said_in said.read.now ≡ Ok (said_to said) }
        requires pulls { length said.pulls ≡ length said.timetable.places }
        requires script { IsScript said.lines.now }
        ensures given { IfOk result (IsGivenOf (asks self.now) said.entry.read.now (said_to said.entry)) }
        ensures counted { steps.new ≤ steps.old + (asks self.now).most said.entry.read.now (said_to said.entry) };
}

// What a command does of an accepted feed, which is taken apart here and nowhere else.
fn outcome_of<'a, C: FeedCommand, L: Ledger>(
    command: &C,
    alloc: Global,
    read: &'a Read,
    feed: Feed,
    steps: &mut Steps<L>,
) -> Result<Outcome<'a>, Memory>
    requires papers { papers_of read.now.pages ≡ feed_papers ++ (C.asks command.now).further }
    requires says { said_in read.now ≡ Ok (said_of feed) }
    requires pulls { HavePulls feed }
    requires script { IsScript feed.lines.items }
    ensures given { IfOk result (IsGivenOf (C.asks command.now) read.now (said_of feed)) }
    ensures counted { steps.new ≤ steps.old + (C.asks command.now).most read.now (said_of feed) }
{
    let Feed {
        settings,
        timetable,
        deadheads,
        pulls,
        rules,
        lines,
    } = feed;
    let said = Said {
        alloc,
        read,
        settings: &settings,
        timetable,
        deadheads: &deadheads,
        pulls,
        rules,
        lines: &lines,
    };
    command.outcome(said, steps)
}

/// The command of a run that works on a feed: it puts the first refusal, or does what the other does of an accepted feed.
#[derive(Drop)]
pub struct OnFeed<'a, C: FeedCommand> {
    command: C,
    papers: &'a [Paper],
    keeps: bool,
}

impl<'a, C: FeedCommand> Model for OnFeed<'a, C> {
    ghost use Rattle.std.specs.Prelude.{◌≡◌, ◌++◌};
    ghost use Rattle.desk_feed.specs.Feed.{feed_papers};

    ghost Value = { C };

    ghost view = { λ o. o.command };

    ghost invariant = { λ o. (o.papers.now ≡ feed_papers ++ (C.asks o.command).further) × (o.keeps ≡ (C.asks o.command).keeps) };
}

impl<'a, C: FeedCommand> OnFeed<'a, C> {
    /// A command that reads the papers of a feed and nothing else.
    pub fn of(command: C) -> OnFeed<'a, C>
        requires further { (C.asks command).further ≡ [] }
        requires keeps { (C.asks command).keeps ≡ false }
        ensures { result ≡ command }
    {
        OnFeed::with(command, &FEED_PAPERS)
    }

    /// A command that reads these papers, those of the feed first.
    pub fn with(command: C, papers: &'a [Paper]) -> OnFeed<'a, C>
        requires papers { papers.now ≡ feed_papers ++ (C.asks command).further }
        requires keeps { (C.asks command).keeps ≡ false }
        ensures { result ≡ command }
    {
        OnFeed {
            command,
            papers,
            keeps: false,
        }
    }

    /// A command that reads the papers of a feed, and then the journal.
    pub fn keep(command: C) -> OnFeed<'a, C>
        requires further { (C.asks command).further ≡ [] }
        requires keeps { (C.asks command).keeps ≡ true }
        ensures { result ≡ command }
    {
        OnFeed {
            command,
            papers: &FEED_PAPERS,
            keeps: true,
        }
    }
}

impl<'a, C: TextCommand> OnFeed<'a, AfterScript<C>> {
    /// A command that puts a text of the timetable after the script.
    pub fn text(command: C) -> OnFeed<'a, AfterScript<C>>
        ensures { result.0 ≡ command }
    {
        OnFeed::of(AfterScript(command))
    }
}

impl<'a, C: FeedCommand> Command for OnFeed<'a, C> {
    ghost use Rattle.desk_feed.specs.Judging.{of_feed};

    ghost asked = { λ c. of_feed (C.asks c) };

    fn papers(&self) -> &[Paper] {
        self.papers
    }

    fn keeps(&self) -> bool {
        self.keeps
    }

    fn outcome<'r, L: Ledger>(
        &self,
        alloc: Global,
        read: &'r Read,
        steps: &mut Steps<L>,
    ) -> Result<Outcome<'r>, Memory> {
        match judge_feed(alloc, read)? {
            Judged::Refused(outcome) => Ok(outcome),
            Judged::Accepted(feed) => outcome_of(&self.command, alloc, read, feed, steps),
        }
    }
}

/// What a command has of what stands after the script of a feed, of which nothing but the pulls and the rules is used up.
#[derive(Drop)]
pub struct Stands<'a> {
    pub alloc: Global,
    /// The timetable after the script.
    pub timetable: &'a Timetable,
    pub deadheads: &'a Deadheads,
    /// The pulls of the depot.
    pub pulls: Pulls,
    /// The rules of pairs.
    pub rules: PairRules,
}

/// What a command brings that puts a text of the timetable after the script of a feed.
pub trait TextCommand {
    ghost use Rattle.std.specs.Prelude.{◌≡◌, ◌+◌, ◌≤◌, length, IfOk};
    ghost use Rattle.desk_feed.specs.Commands.{stands_for};
    ghost use Rattle.desk_feed.specs.Showing.{TextAsked};

    /// What it asks.
    ghost asks: { Self → TextAsked };

    /// The text of what stands after the script.
    fn text<L: Ledger>(&self, stands: Stands, steps: &mut Steps<L>) -> Result<Text, Memory>
        requires { length stands.pulls ≡ length stands.timetable.now.places }
        ensures shown { IfOk result (λ text. (asks self.now).Shows (stands_for stands.entry) text) }
        ensures counted { steps.new ≤ steps.old + (asks self.now).most stands.entry.timetable.now };
}

// Puts the lines of the records that were refused, and then the text of the command.
fn put_edited<C: TextCommand, L: Ledger>(
    command: &C,
    stands: Stands,
    edited: &Edited,
    steps: &mut Steps<L>,
) -> Result<Outcome<'static>, Memory>
    requires { length stands.pulls ≡ length stands.timetable.now.places }
    ensures put { IfOk result (PutsBehind (C.asks command.now) edited.now.refused edited.now.ending (stands_for stands.entry)) }
    ensures counted { steps.new ≤ steps.old + (C.asks command.now).most stands.entry.timetable.now }
{
    let alloc = stands.alloc;
    let text = command.text(stands, steps)?;
    putting_after(alloc, &edited.refused, &text, edited.ending)
}

/// The command on a feed that puts the lines of the records that were refused, and then the text of the other.
#[derive(Drop)]
pub struct AfterScript<C>(pub C);

impl<C: TextCommand> FeedCommand for AfterScript<C> {
    ghost use Rattle.desk_feed.specs.Showing.{showing};

    ghost asks = { λ c. showing (C.asks c.0) };

    fn outcome<'a, L: Ledger>(
        &self,
        said: Said<'a, '_>,
        steps: &mut Steps<L>,
    ) -> Result<Outcome<'a>, Memory> {
        let edited = after_script(said.alloc, said.timetable, said.lines)?;
        let timetable = edited.script.timetable();
        let stands = Stands {
            alloc: said.alloc,
            timetable,
            deadheads: said.deadheads,
            pulls: said.pulls,
            rules: said.rules,
        };
        put_edited(&self.0, stands, &edited, steps)
    }
}
