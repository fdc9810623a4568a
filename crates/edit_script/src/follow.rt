ghost use Rattle.std.specs.Prelude.{◌≤◌, All, OnErr, OnOk, length};
ghost use Rattle.gtfs_tables.specs.declared.paper.TheConstants.{MOST_RECORDS};

use desk_io::Memory;

/// Who follows the records of a script: it does what each asks, and answers whoever asked. `C` is what it is lent meanwhile.
pub trait Follower<C> {
    ghost use Rattle.std.specs.Prelude.{◌≡◌, ℕ, ◌+◌, ◌≤◌, List, OnErr, OnOk};
    ghost use Rattle.gtfs_tables.specs.declared.paper.TheConstants.{MOST_RECORDS};
    ghost use Rattle.edit_script.specs.Follow.{IsLineAt};

    /// What a record says.
    type Line;

    // A record is in form.
    ghost Fits: { Self.Line → Type 0 };
    // The record of that number may come next.
    ghost IsReady: { Self → ℕ → Type 0 };
    // It was before the records of a script, and is now after so many of them.
    ghost Stands: { Self → C → List Self.Line → ℕ → Self → C → Type 0 };
    // It was before the records, and stopped at one of them for lack of memory.
    ghost Stops: { Self → C → List Self.Line → C → Type 0 };

    /// Follows the record of that number, counted from 1.
    fn follow(&mut self, number: u32, line: &Self::Line, lent: &mut C) -> Result<(), Memory>
        requires fits { Fits line.now }
        requires ready { IsReady self.old number }
        requires few { number ≤ MOST_RECORDS }
        ensures ready { OnOk result (IsReady self.new (number + 1)) }
        ensures stands { OnOk result ((was : Self) (had : C) (lines : List Self.Line) (n : ℕ) → number ≡ n + 1 → IsLineAt lines n line.now
            → Stands was had lines n self.old lent.old → Stands was had lines (n + 1) self.new lent.new) }
        ensures stops { OnErr result ((was : Self) (had : C) (lines : List Self.Line) (n : ℕ) → number ≡ n + 1 → IsLineAt lines n line.now
            → Stands was had lines n self.old lent.old → Stops was had lines lent.new) };
}

/// Follows the records of a script, each once and in order.
pub fn follow_records<C, F: Follower<C>>(
    follower: &mut F,
    lines: &[F::Line],
    lent: &mut C,
) -> Result<(), Memory>
    requires few { length lines.now ≤ MOST_RECORDS }
    requires fit { All F.Fits lines.now }
    requires ready { F.IsReady follower.old 1 }
    requires stands { F.Stands follower.old lent.old lines.now 0 follower.old lent.old }
    ensures stands { OnOk result (F.Stands follower.old lent.old lines.now (length lines.now) follower.new lent.new) }
    ensures stops { OnErr result (F.Stops follower.old lent.old lines.now lent.new) }
{
    for n in 0..lines.len() {
        follower.follow(n as u32 + 1, &lines[n], lent)?;
    }
    Ok(())
}
