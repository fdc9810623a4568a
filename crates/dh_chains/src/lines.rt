ghost use Rattle.std.specs.Prelude.{◌≡◌, ◌<◌, ◌++◌, length, All, string_bytes, IfOk, OnOk};
ghost use Rattle.dh_chains.specs.Chains.{deadheads, following};
ghost use Rattle.dh_chains.specs.Lines.{IsBetween, chain_text, deadhead_text, further_text};

use crate::chain::{Chain, Deadhead};
use desk_io::{Memory, Text};
use gtfs_tables::minute_text;
use std::alloc::Global;
use std::fmt::Write;
use trip_model::Timetable;

// Appends a deadhead behind what stands before it.
#[tactic(auto, unfolding(crate::specs::Lines::deadhead_text))]
fn push_deadhead(
    alloc: Global,
    text: &mut String,
    timetable: &Timetable,
    before: &str,
    deadhead: Deadhead,
) -> Result<(), Memory>
    requires { IsBetween (length timetable.now.places) deadhead }
    ensures { OnOk result (string_bytes text.new ≡ string_bytes text.old ++ (before.now ++ deadhead_text timetable.now deadhead)) }
{
    let leaves = minute_text(alloc, deadhead.leaves)?;
    let arrives = minute_text(alloc, deadhead.arrives)?;
    write!(
        text,
        "{before}{} {} to {} {}",
        timetable.place_name(deadhead.from),
        leaves.as_str(),
        timetable.place_name(deadhead.to),
        arrives.as_str()
    )?;
    Ok(())
}

// Appends the deadheads behind the first.
fn push_following(
    alloc: Global,
    text: &mut String,
    timetable: &Timetable,
    chain: &Chain,
) -> Result<(), Memory>
    requires { All (IsBetween (length timetable.now.places)) (following chain.now.second chain.now.third) }
    ensures { OnOk result (string_bytes text.new ≡ string_bytes text.old
        ++ further_text timetable.now (following chain.now.second chain.now.third)) }
{
    let Some(second) = chain.second else {
        return Ok(())
    };
    push_deadhead(alloc, text, timetable, "; ", second)?;
    let Some(third) = chain.third else {
        return Ok(())
    };
    push_deadhead(alloc, text, timetable, "; ", third)?;
    Ok(())
}

/// The line of a chain as it is printed, `chain NUMBER: FROM HH:MM to TO HH:MM; .., sum SUM`, where the sum is that of the
/// maxima with the chain.
#[tactic(auto, unfolding(crate::specs::Lines::chain_text))]
pub fn chain_line(
    alloc: Global,
    timetable: &Timetable,
    number: u32,
    chain: &Chain,
    sum: u64,
) -> Result<Text, Memory>
    requires { All (IsBetween (length timetable.now.places)) (deadheads chain.now) }
    ensures { IfOk result (λ text. text ≡ chain_text timetable.now number chain.now sum) }
{
    let mut text = String::new(alloc);
    write!(text, "chain {number}: ")?;
    push_deadhead(alloc, &mut text, timetable, "", chain.first)?;
    push_following(alloc, &mut text, timetable, chain)?;
    writeln!(text, ", sum {sum}")?;
    Ok(Text::wrap(text))
}
