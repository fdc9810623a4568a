ghost use Rattle.std.specs.Prelude.{◌≡◌, ◌+◌, ◌*◌, ◌<◌, ◌≤◌, ◌++◌, List, true, false, length, IfOk, Ok, string_bytes};
ghost use Rattle.terminal_maxima.specs.declared.max_prefix.TheConstants.{MOST_CHANGE};
ghost use Rattle.trip_model.specs.Deficit.{live_moves};
ghost use Rattle.trip_model.specs.declared.trip.Move.{Move as ModelMove};
ghost use Rattle.deficit_steps.specs.Changes.{IsDeficits};
ghost use Rattle.deficit_steps.specs.Holds.{Holds};
ghost use Rattle.dh_chains.specs.Chains.{NoChain, places_of};
ghost use Rattle.desk_run.specs.Outside.{outside};
ghost use Rattle.desk_run.specs.Performs.{Performs};
ghost use Rattle.lowering_commands.specs.Chains.{IsChainsText, chains_asked};
ghost use Rattle.lowering_commands.specs.Step.{HasPut};

use deadhead_matrix::Matrix;
use deficit_steps::laws::held_law;
use deficit_steps::{Deficits, deficits_of};
use desk_feed::{OnFeed, Stands, TextCommand, matrix_of};
use desk_io::{Memory, Shelf, Sink, Steps, Text};
use desk_keeper::Keeper;
use desk_run::perform;
use dh_chains::laws::chain_law;
use dh_chains::{add_chain, chain_line, next_chain};
use std::alloc::Global;
use std::fmt::Write;
use std::sync::ledger::Ledger;
use trip_model::Timetable;

// Puts the first chain in, where there is one, and its line, as that of so many.
fn put_next<L: Ledger>(
    alloc: Global,
    text: &mut String,
    timetable: &Timetable,
    matrix: &Matrix,
    deficits: &mut Deficits,
    number: u32,
    steps: &mut Steps<L>,
) -> Result<bool, Memory>
    requires rows { length deficits.old ≡ length matrix.now.walks }
    requires places { length timetable.now.places ≡ length matrix.now.walks }
    requires few { (moves : List ModelMove) × Holds deficits.old moves × (length moves + 2 < MOST_CHANGE) }
    ensures some { result ≡ Ok true
        → HasPut timetable.now matrix.now number deficits.old deficits.new (string_bytes text.old) (string_bytes text.new) }
    ensures none { result ≡ Ok false → NoChain (places_of deficits.old matrix.now) }
    ensures unchanged { result ≡ Ok false → (deficits.new ≡ deficits.old) × (string_bytes text.new ≡ string_bytes text.old) }
    ensures before { IsDeficits deficits.old }
    ensures after { IfOk result (λ _. IsDeficits deficits.new) }
    ensures counted { steps.new ≤ steps.old + 84 }
{
    let _before = deficits.places();
    let Some(chain) = next_chain(deficits, matrix) else {
        return Ok(false);
    };
    add_chain(deficits, &chain, steps);
    let _after = deficits.places();
    let line = chain_line(alloc, timetable, number, &chain, deficits.total())?;
    text.push_str(line.as_str())?;
    Ok(true)
}

// The lines of the chains that are put in one after the other, and how many there are.
fn chains_text<L: Ledger>(
    alloc: Global,
    timetable: &Timetable,
    matrix: &Matrix,
    deficits: &mut Deficits,
    steps: &mut Steps<L>,
) -> Result<Text, Memory>
    requires held { Holds deficits.old (live_moves timetable.now.slots) }
    requires rows { length deficits.old ≡ length matrix.now.walks }
    requires places { length timetable.now.places ≡ length matrix.now.walks }
    ensures text { IfOk result (IsChainsText timetable.now matrix.now (live_moves timetable.now.slots) 0) }
    ensures counted { steps.new ≤ steps.old + 84 * (length timetable.now.slots + 1) }
{
    held_law();
    chain_law();
    // Their clauses say that the timetable is valid, and that these are deficits.
    let _slots = timetable.slots();
    let _places = deficits.places();
    let _sum = deficits.total();
    let mut text = String::new(alloc);
    let mut number = 0;
    while put_next(
        alloc,
        &mut text,
        timetable,
        matrix,
        deficits,
        number + 1,
        steps,
    )? {
        number += 1;
    }
    writeln!(text, "chains {number}, sum {}", deficits.total())?;
    Ok(Text::wrap(text))
}

#[derive(Drop)]
struct ShowChains;

impl TextCommand for ShowChains {
    ghost use Rattle.lowering_commands.specs.Chains.{chains_shown};

    ghost asks = { λ _. chains_shown };

    fn text<L: Ledger>(&self, stands: Stands, steps: &mut Steps<L>) -> Result<Text, Memory> {
        let timetable = stands.timetable;
        let alloc = stands.alloc;
        let matrix = matrix_of(
            alloc,
            timetable,
            stands.deadheads,
            stands.pulls,
            stands.rules,
        )?;
        let mut deficits = deficits_of(alloc, timetable, steps)?;
        chains_text(alloc, timetable, &matrix, &mut deficits, steps)
    }
}

/// The command `chains`. The first chain of deadheads with which one vehicle less suffices is put in as moves. Then the next
/// one is, until there is none. It answers the status.
#[tactic(auto, unfolding(crate::specs::Chains::chains_asked))]
pub fn run_chains<S: Shelf, O: Sink, K: Keeper, L: Ledger>(
    alloc: Global,
    shelf: &mut S,
    out: &mut O,
    keeper: &mut K,
    steps: &mut Steps<L>,
) -> u8
    ensures { let at = outside S.state S.history O.state O.history K.state K.history in
        Performs chains_asked (at shelf.old out.old keeper.old) (at shelf.new out.new keeper.new) result steps.old steps.new }
{
    perform(&OnFeed::text(ShowChains), alloc, shelf, out, keeper, steps)
}
