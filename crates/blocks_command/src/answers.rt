ghost use Rattle.std.specs.Prelude.{◌≡◌, ◌++◌, OnOk, string_bytes};
ghost use Rattle.blocks_command.specs.Answers as spec;

use block_build::{NamedBlocks, SlotPrices, block_lines, price_lines};
use block_names::Naming;
use deficit_steps::Deficits;
use desk_core::Desk;
use desk_feed::{push_numbers_line, push_refusal};
use desk_io::Memory;
use edit_script::{Edit, Line};
use feed_desk::{Answers, ScriptRecord, blocks_now};
use std::alloc::Global;
use std::fmt::Write;

/// Appends the three numbers of a desk.
pub(crate) fn push_numbers(text: &mut String, desk: &Desk) -> Result<(), Memory>
    ensures { OnOk result (string_bytes text.new ≡ string_bytes text.old
        ++ spec.numbers_text desk.now.script.timetable desk.now.matrix desk.now.plan) }
{
    let fixed = u64::from(desk.fixed());
    let vehicles = desk.vehicles() as usize;
    push_numbers_line(text, fixed, vehicles, desk.minutes())
}

// Appends the plan of a desk: the lines of its blocks and of its prices.
fn push_show(alloc: Global, text: &mut String, desk: &Desk, naming: &Naming) -> Result<(), Memory>
    ensures { OnOk result (string_bytes text.new ≡ string_bytes text.old
        ++ spec.show_text desk.now.matrix naming.now desk.now.script.timetable desk.now.plan) }
{
    let timetable = desk.timetable();
    let plan = desk.plan();
    let blocks = blocks_now(alloc, desk)?;
    let names = naming.names(alloc, &blocks)?;
    let named = NamedBlocks {
        timetable,
        matrix: desk.matrix(),
        blocks: &blocks,
        names: &names,
    };
    let lines = block_lines(alloc, &named, " ")?;
    let prices = SlotPrices {
        timetable,
        leave: plan.leave(),
        enter: plan.enter(),
    };
    let prices = price_lines(alloc, &prices)?;
    text.push_str(lines.as_str())?;
    text.push_str(prices.as_str())?;
    Ok(())
}

// Appends what is shown after a record that is accepted.
fn push_shown(
    alloc: Global,
    text: &mut String,
    desk: &Desk,
    line: &Line,
    naming: &Naming,
) -> Result<(), Memory>
    ensures { OnOk result (string_bytes text.new ≡ string_bytes text.old
        ++ spec.shown_text desk.now.matrix naming.now line.now desk.now.script.timetable desk.now.plan) }
{
    match line {
        Line::Edit(Edit::Show) => push_show(alloc, text, desk, naming),
        _ => Ok(()),
    }
}

/// Of each record the numbers after it, and of a show the plan with its blocks named so; or why the record is refused.
#[derive(Drop)]
pub(crate) struct Numbers<'a> {
    pub(crate) alloc: Global,
    pub(crate) naming: &'a Naming,
}

impl<'a> Answers<Deficits> for Numbers<'a> {
    ghost use Rattle.blocks_command.specs.Answers.{answer_text};

    ghost answer = { λ numbers matrix. answer_text matrix numbers.naming.now };

    #[tactic(auto, unfolding(crate::specs::Answers::answer_text))]
    fn push_answer(
        &self,
        text: &mut String,
        desk: &Desk,
        record: &ScriptRecord,
    ) -> Result<(), Memory> {
        let number = record.number;
        match record.refused {
            Some(refused) => push_refusal(self.alloc, text, number, record.line, refused),
            None => {
                write!(text, "record {number}: ok, ")?;
                push_numbers(text, desk)?;
                push_shown(self.alloc, text, desk, record.line, self.naming)
            }
        }
    }
}
