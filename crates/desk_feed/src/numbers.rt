ghost use Rattle.std.specs.Prelude.{◌≡◌, ◌++◌, OnOk, string_bytes};
ghost use Rattle.desk_feed.specs.Numbers.{numbers_line};

use desk_io::Memory;
use std::fmt::Write;

/// Appends the line of three numbers: the fewest vehicles without deadheads, the vehicles of blocks, and their empty minutes.
#[tactic(auto, unfolding(crate::specs::Numbers::numbers_line))]
pub fn push_numbers_line(
    text: &mut String,
    fixed: u64,
    vehicles: usize,
    minutes: u32,
) -> Result<(), Memory>
    ensures { OnOk result (string_bytes text.new ≡ string_bytes text.old ++ numbers_line fixed vehicles minutes) }
{
    writeln!(
        text,
        "fixed {fixed}, vehicles {vehicles}, minutes {minutes}"
    )?;
    Ok(())
}
