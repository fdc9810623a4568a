ghost use Rattle.std.specs.Prelude.{◌≡◌, length, IfOk};
ghost use Rattle.gtfs_tables.specs.Papers.{IsWithinLimit};
ghost use Rattle.claim_files.specs.Claims.{claimed_of};
ghost use Rattle.desk_run.specs.Outside.{outside};
ghost use Rattle.desk_run.specs.Performs.{Performs};
ghost use Rattle.plan_commands.specs.Check.{Proves, check_asked, claim_outcome};

use claim_files::laws::{rows_law, told_law};
use claim_files::{ClaimFault, claim_line, read_claimed, reason_line};
use deadhead_matrix::Matrix;
use desk_feed::{FeedCommand, OnFeed, Said, after_script, feed_papers, matrix_of, putting_after};
use desk_io::{Found, Memory, Shelf, Sink, Steps, Text};
use desk_keeper::Keeper;
use desk_run::{Ending, Outcome, perform};
use gtfs_tables::Paper;
use price_check::laws::{certificate_law, least_law};
use price_check::{Verdict, check};
use std::alloc::Global;
use std::sync::ledger::Ledger;
use trip_model::Timetable;
use trip_model::laws::plain_law;

// What is put of the two files of a claim, behind the lines of refused records: the verdict, or why they are no claim.
fn checked(
    alloc: Global,
    refused: &Text,
    timetable: &Timetable,
    matrix: &Matrix,
    blocks: &Found,
    prices: &Found,
) -> Result<Outcome<'static>, Memory>
    requires places { length timetable.now.places ≡ length matrix.now.walks }
    requires blocks { IsWithinLimit blocks.now }
    requires prices { IsWithinLimit prices.now }
    ensures done { IfOk result (λ outcome. outcome ≡ claim_outcome refused.now timetable.now matrix.now
        (claimed_of timetable.now blocks.now prices.now)) }
    ensures proved { Proves timetable.now matrix.now (claimed_of timetable.now blocks.now prices.now) }
{
    plain_law();
    rows_law();
    certificate_law();
    least_law();
    told_law();
    // Their clauses say that the timetable is valid and that no pull is longer than a day.
    let _slots = timetable.slots();
    let _places = matrix.places();
    let claimed = match read_claimed(alloc, timetable, blocks, prices) {
        Ok(claimed) => claimed,
        Err(ClaimFault::Memory) => return Err(Memory),
        Err(fault) => {
            let line = claim_line(alloc, &fault)?;
            return putting_after(alloc, refused, &line, Ending::No);
        }
    };
    match check(timetable, matrix, &claimed) {
        Verdict::Yes { vehicles, minutes } => {
            let line = format!(in alloc; "yes, vehicles {vehicles}, minutes {minutes}\n")?;
            putting_after(alloc, refused, &Text::wrap(line), Ending::Done)
        }
        Verdict::No(reason) => {
            let line = reason_line(alloc, timetable, &claimed, &reason)?;
            putting_after(alloc, refused, &line, Ending::No)
        }
    }
}

#[derive(Drop)]
struct CheckClaim;

impl FeedCommand for CheckClaim {
    ghost use Rattle.plan_commands.specs.Check.{check_does};

    ghost asks = { λ _. check_does };

    fn outcome<'a, L: Ledger>(
        &self,
        said: Said<'a, '_>,
        _steps: &mut Steps<L>,
    ) -> Result<Outcome<'a>, Memory> {
        let blocks = said.read.found(Paper::Blocks);
        let prices = said.read.found(Paper::Prices);
        let alloc = said.alloc;
        let pulls = said.pulls;
        let rules = said.rules;
        let matrix = matrix_of(alloc, &said.timetable, said.deadheads, pulls, rules)?;
        let edited = after_script(alloc, said.timetable, said.lines)?;
        let timetable = edited.script.timetable();
        checked(alloc, &edited.refused, timetable, &matrix, blocks, prices)
    }
}

/// The command `check`: whether `blocks.csv` and `prices.csv` prove that their blocks are least, and else why not. It answers the status.
#[tactic(auto, unfolding(crate::specs::Check::check_asked))]
pub fn run_check<S: Shelf, O: Sink, K: Keeper, L: Ledger>(
    alloc: Global,
    shelf: &mut S,
    out: &mut O,
    keeper: &mut K,
    steps: &mut Steps<L>,
) -> u8
    ensures { let at = outside S.state S.history O.state O.history K.state K.history in
        Performs check_asked (at shelf.old out.old keeper.old) (at shelf.new out.new keeper.new) result steps.old steps.new }
{
    let papers = feed_papers!(Paper::Blocks, Paper::Prices);
    let command = OnFeed::with(CheckClaim, &papers);
    perform(&command, alloc, shelf, out, keeper, steps)
}
