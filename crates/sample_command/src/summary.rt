ghost use Rattle.std.specs.Prelude.{◌≡◌, ◌+◌, ◌≤◌, length, All, IfOk, Ok, ◌*◌, pos};
ghost use Rattle.block_build.specs.Names.{IsName};
ghost use Rattle.claim_files.specs.Written.{IsAccepted, written};
ghost use Rattle.desk_feed.specs.Schedule.{most_steps};
ghost use Rattle.desk_io.specs.declared.shelf.Found.TheVariants.{File};
ghost use Rattle.gtfs_tables.specs.Papers.{IsWithinLimit};
ghost use Rattle.price_check.specs.Claim.{AreBlockRows, ArePriceRows};
ghost use Rattle.sample_command.specs.Sample.{HasSummary};
ghost use Rattle.sample_command.specs.Summed.{IsSummedOf};

use block_build::{NamedBlocks, SlotPrices, blocks_text, prices_text};
use block_names::Naming;
use claim_files::laws::accepted_law;
use claim_files::{ClaimFault, read_claimed};
use deadhead_matrix::Matrix;
use deficit_steps::fixed_of;
use desk_feed::{Edited, FeedCommand, Said, after_script, matrix_of, putting_after};
use desk_io::{Bytes, Found, Memory, Steps, Text};
use desk_run::Outcome;
use feed_names::laws::names_law;
use feed_schedule::schedule_of;
use gtfs_tables::MOST_BYTES;
use price_assign::Plan;
use price_check::{Claimed, Verdict, check};
use std::alloc::Global;
use std::sync::ledger::Ledger;
use trip_model::Timetable;

// The three numbers of a timetable.
#[derive(Clone, Copy)]
struct Numbers {
    fixed: u64,
    vehicles: u32,
    minutes: u32,
}

// A text as a file. For a longer one than a file may be there is no memory.
fn file_of(alloc: Global, text: &Text) -> Result<Found, Memory>
    ensures { IfOk result (λ found. (found ≡ File text.now) × IsWithinLimit found) }
{
    let bytes = text.as_str().as_bytes();
    if bytes.len() as u64 > MOST_BYTES {
        return Err(Memory);
    }
    Ok(Found::File(Bytes::of(alloc, bytes)?))
}

// The claim of a plan and its blocks, as its two files are read, which are in form.
fn claim_of(alloc: Global, named: &NamedBlocks<'_>, plan: &Plan) -> Result<Claimed, Memory>
    requires prices { length plan.now.next ≡ length named.now.timetable.now.slots }
    requires accepted { IsAccepted named.now.timetable.now named.now.matrix.now named.now.names.now named.now.blocks.now plan.now.leave
        plan.now.enter }
    ensures claim { IfOk result (λ claimed. written named.now.timetable.now named.now.matrix.now named.now.names.now
        named.now.blocks.now plan.now.leave plan.now.enter ≡ Ok claimed) }
    ensures blocks { IfOk result (λ claimed. AreBlockRows named.now.timetable.now claimed.blocks) }
    ensures prices { IfOk result (λ claimed. ArePriceRows named.now.timetable.now claimed.prices) }
{
    let timetable = named.timetable;
    let blocks = file_of(alloc, &blocks_text(alloc, named)?)?;
    let prices = SlotPrices {
        timetable,
        leave: plan.leave(),
        enter: plan.enter(),
    };
    let prices = file_of(alloc, &prices_text(alloc, &prices)?)?;
    match read_claimed(alloc, timetable, &blocks, &prices) {
        Ok(claimed) => Ok(claimed),
        Err(ClaimFault::Memory) => Err(Memory),
        Err(_) => unreachable!(),
    }
}

// The three numbers of a timetable, on whose plan `check` says yes.
fn numbers_of<L: Ledger>(
    alloc: Global,
    timetable: &Timetable,
    matrix: &Matrix,
    naming: &Naming,
    steps: &mut Steps<L>,
) -> Result<Numbers, Memory>
    requires places { length timetable.now.places ≡ length matrix.now.walks }
    requires names { All (λ slot. IsName slot.name) timetable.now.slots }
    ensures summary { IfOk result (λ n. HasSummary timetable.now matrix.now naming.now n.fixed n.vehicles n.minutes) }
    ensures counted { steps.new ≤ steps.old + most_steps (length timetable.now.slots) }
{
    accepted_law();
    // Their clauses say that the timetable is valid and that no pull is longer than a day.
    let _slots = timetable.slots();
    let _places = matrix.places();
    let fixed = fixed_of(alloc, timetable, steps)?;
    let schedule = schedule_of(alloc, timetable, matrix, steps)?;
    let plan = schedule.solver.plan();
    let names = naming.names(alloc, &schedule.blocks)?;
    let named = NamedBlocks {
        timetable,
        matrix,
        blocks: &schedule.blocks,
        names: &names,
    };
    let claimed = claim_of(alloc, &named, plan)?;
    match check(timetable, matrix, &claimed) {
        Verdict::Yes { vehicles, minutes } => Ok(Numbers {
            fixed,
            vehicles,
            minutes,
        }),
        Verdict::No(_) => unreachable!(),
    }
}

// The summary of a timetable after its script.
#[tactic(auto, unfolding(crate::specs::Sample::summary_line))]
fn summed<L: Ledger>(
    alloc: Global,
    trips: u32,
    naming: &Naming,
    edited: &Edited,
    matrix: &Matrix,
    steps: &mut Steps<L>,
) -> Result<Outcome<'static>, Memory>
    requires places { length edited.now.script.timetable.places ≡ length matrix.now.walks }
    requires names { All (λ slot. IsName slot.name) edited.now.script.timetable.slots }
    ensures summed { IfOk result (IsSummedOf trips edited.now matrix.now naming.now) }
    ensures counted { steps.new ≤ steps.old + most_steps (length edited.now.script.timetable.slots) }
{
    let timetable = edited.script.timetable();
    let numbers = numbers_of(alloc, timetable, matrix, naming, steps)?;
    let Numbers {
        fixed,
        vehicles,
        minutes,
    } = numbers;
    let line = format!(in alloc;
        "sample {trips}: fixed {fixed}, vehicles {vehicles}, minutes {minutes}, check yes\n"
    )?;
    putting_after(alloc, &edited.refused, &Text::wrap(line), edited.ending)
}

/// The command on a feed that puts the summary of a sample of so many trips.
#[derive(Drop)]
pub struct Summarize {
    pub trips: u32,
}

impl FeedCommand for Summarize {
    ghost use Rattle.sample_command.specs.Sample.{summary_does};

    ghost asks = { λ c. summary_does c.trips };

    fn outcome<'a, L: Ledger>(
        &self,
        said: Said<'a, '_>,
        steps: &mut Steps<L>,
    ) -> Result<Outcome<'a>, Memory> {
        names_law();
        let alloc = said.alloc;
        let prefix = Text::of(alloc, said.settings.prefix())?;
        let naming = Naming::of(prefix, Vec::new(alloc));
        let pulls = said.pulls;
        let rules = said.rules;
        let matrix = matrix_of(alloc, &said.timetable, said.deadheads, pulls, rules)?;
        let edited = after_script(alloc, said.timetable, said.lines)?;
        summed(alloc, self.trips, &naming, &edited, &matrix, steps)
    }
}
