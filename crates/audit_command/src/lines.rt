ghost use Rattle.std.specs.Prelude.{◌≡◌, ◌<◌, ◌++◌, length, All, IfOk, OnOk, string_bytes};
ghost use Rattle.price_check.specs.Claim.{Runs};
ghost use Rattle.audit_command.specs.Lines as spec;

use block_audit::{Above, Misfit, Stated, Why, above_by};
use desk_io::{Memory, Text};
use std::alloc::Global;
use std::fmt::Write;
use trip_model::Timetable;

// Appends the line of a misfit.
#[tactic(auto, unfolding(crate::specs::Lines::misfit_line))]
fn push_misfit(
    text: &mut String,
    timetable: &Timetable,
    stated: &Stated,
    misfit: &Misfit,
) -> Result<(), Memory>
    requires block { misfit.now.block < length stated.now }
    requires before { Runs timetable.now misfit.now.before }
    requires after { Runs timetable.now misfit.now.after }
    ensures { OnOk result (string_bytes text.new ≡ string_bytes text.old ++ spec.misfit_line timetable.now stated.now misfit.now) }
{
    let name = stated.name(misfit.block as usize);
    let before = timetable.name(misfit.before);
    let after = timetable.name(misfit.after);
    write!(text, "block {name}: {before} to {after}")?;
    match misfit.why {
        Why::NoWay => text.push_str(" no way")?,
        Why::Late(minutes) => write!(text, " short by {minutes}")?,
        Why::Forbidden => text.push_str(" forbidden")?,
    }
    text.push_str("\n")?;
    Ok(())
}

/// The lines of misfits, and how many they are.
#[tactic(auto, unfolding(crate::specs::Lines::misfits_text))]
pub(crate) fn misfits_text(
    alloc: Global,
    timetable: &Timetable,
    stated: &Stated,
    misfits: &[Misfit],
) -> Result<Text, Memory>
    requires blocks { All (λ misfit. misfit.block < length stated.now) misfits.now }
    requires slots { All (λ misfit. Runs timetable.now misfit.before × Runs timetable.now misfit.after) misfits.now }
    ensures { IfOk result (λ text. text ≡ spec.misfits_text timetable.now stated.now misfits.now) }
{
    let mut text = String::new(alloc);
    for misfit in misfits {
        push_misfit(&mut text, timetable, stated, misfit)?;
    }
    let count = misfits.len();
    writeln!(text, "no: {count} pairs do not fit")?;
    Ok(Text::wrap(text))
}

// The line that compares stated blocks with least ones.
fn above_line(alloc: Global, above: Above) -> Result<Text, Memory>
    ensures { IfOk result (λ text. text ≡ spec.above_line above) }
{
    match above {
        Above::Nothing => Text::of(alloc, "least\n"),
        Above::Vehicles(more) => Ok(Text::wrap(format!(in alloc; "above by {more} vehicles\n")?)),
        Above::Minutes(more) => Ok(Text::wrap(format!(in alloc; "above by {more} minutes\n")?)),
    }
}

// The line of a cost, of vehicles and empty minutes.
fn cost_line(alloc: Global, vehicles: u32, minutes: u32) -> Result<Text, Memory>
    ensures { IfOk result (λ text. text ≡ spec.cost_line vehicles minutes) }
{
    Ok(Text::wrap(format!(in alloc; "vehicles {vehicles}, minutes {minutes}\n")?))
}

/// The vehicles and the empty minutes of stated blocks, those of least ones, and how the first compare with the second.
#[tactic(auto, unfolding(crate::specs::Lines::costs_text))]
pub(crate) fn costs_text(alloc: Global, cost: (u32, u32), least: (u32, u32)) -> Result<Text, Memory>
    ensures { IfOk result (λ text. text ≡ spec.costs_text cost.0 cost.1 least.0 least.1) }
{
    let last = above_line(alloc, above_by(cost, least))?;
    let first = cost_line(alloc, cost.0, cost.1)?;
    let second = cost_line(alloc, least.0, least.1)?;
    let text = format!(in alloc;
        "{}least {}{}",
        first.as_str(),
        second.as_str(),
        last.as_str()
    )?;
    Ok(Text::wrap(text))
}
