//! The theorem of joined moves, and laws of the definitions that the contracts cite. Each is the contract of a function that
//! does nothing.
ghost use Rattle.std.specs.Prelude.{◌≡◌, ℕ, ℤ, pos, ◌≤ℤ◌, ◌≤◌, List, [], length, All, Ok};
ghost use Rattle.trip_model.specs.declared.trip.Move.{Move};
ghost use Rattle.trip_model.specs.Blocking.{IsBlocking, IsFewest, IsLeast};
ghost use Rattle.trip_model.specs.Deficit.{deficit};
ghost use Rattle.trip_model.specs.Maximum.{sum_of_maxima};
ghost use Rattle.trip_model.specs.Plain.{IsMove};
ghost use Rattle.trip_model.specs.Timetable.{TimetableView, IsTimetable};
ghost use Rattle.desk_io.specs.declared.shelf.Found.{Found};
ghost use Rattle.deadhead_matrix.specs.declared.entry.Entry.{Entry};
ghost use Rattle.deadhead_matrix.specs.Deadheads.{deadheads_of};
ghost use Rattle.deadhead_matrix.specs.Fitting.{network_of};
ghost use Rattle.deadhead_matrix.specs.Matrix.{MatrixView, AreLeastWalks};
ghost use Rattle.deficit_steps.specs.Changes.{IsDeficits, value};
ghost use Rattle.deficit_steps.specs.Holds.{Holds};
ghost use Rattle.joined_deficits.specs.declared.limits.TheConstants.{MOST_MOVES};
ghost use Rattle.joined_deficits.specs.Joined.{joined_moves, TakeTime};
ghost use Rattle.joined_deficits.specs.Lines.{joined_text};

use deficit_steps::laws::held_law;
use fixed_fleet::laws::plain_blocks_law;

/// The theorem of joined moves. The matrix has the least walks of entries that take time, between the places of the timetable.
/// Each block with its deadheads is a block without deadheads of the joined moves. So the sum of their maxima is at most the
/// number of blocks. Without rules of pairs it is the number of the fewest blocks. For blocks without deadheads of the joined
/// moves are then blocks of the trips, once the deadheads are dropped. A deficit counts the trips at a place and cannot see which
/// trip follows which, so with rules the fewest blocks may be more than the sum.
pub fn joined_law()
    ensures most { (timetable : TimetableView) (matrix : MatrixView) (blocks : List (List ℕ)) → IsTimetable timetable
        → AreLeastWalks matrix → length matrix.walks ≡ length timetable.places → TakeTime matrix.entries
        → IsBlocking (network_of timetable matrix) blocks
        → sum_of_maxima (deficit (joined_moves timetable matrix blocks)) (length timetable.places) ≤ℤ pos (length blocks) }
    ensures fewest { (timetable : TimetableView) (matrix : MatrixView) (blocks : List (List ℕ)) → IsTimetable timetable
        → AreLeastWalks matrix → length matrix.walks ≡ length timetable.places → TakeTime matrix.entries → matrix.rules ≡ []
        → IsFewest (network_of timetable matrix) blocks
        → sum_of_maxima (deficit (joined_moves timetable matrix blocks)) (length timetable.places) ≡ pos (length blocks) }
    ensures least { (timetable : TimetableView) (matrix : MatrixView) (blocks : List (List ℕ)) → IsTimetable timetable
        → AreLeastWalks matrix → length matrix.walks ≡ length timetable.places → TakeTime matrix.entries → matrix.rules ≡ []
        → IsLeast (network_of timetable matrix) blocks
        → sum_of_maxima (deficit (joined_moves timetable matrix blocks)) (length timetable.places) ≡ pos (length blocks) }
{
    plain_blocks_law();
}

/// The joined moves of a blocking take time and arrive on the service day, and are at most 8,191.
pub fn moves_law()
    ensures valid { (timetable : TimetableView) (matrix : MatrixView) (blocks : List (List ℕ)) → IsTimetable timetable
        → IsBlocking (network_of timetable matrix) blocks
        → All (IsMove (length timetable.places)) (joined_moves timetable matrix blocks) }
    ensures few { (timetable : TimetableView) (matrix : MatrixView) (blocks : List (List ℕ)) → IsTimetable timetable
        → IsBlocking (network_of timetable matrix) blocks
        → length (joined_moves timetable matrix blocks) ≤ MOST_MOVES }
{}

/// Every entry that a file gives takes time, so the theorem speaks of each matrix that was read.
pub fn entries_law()
    ensures { (found : Found) (timetable after : TimetableView) (entries : List Entry)
        → deadheads_of found timetable ≡ Ok (after, entries) → TakeTime entries }
{}

/// Where lists of moves are held, the printed text is that of the deficits of these lists.
pub fn text_law()
    ensures { (names : List (List ℕ)) (joined before : List (List ℤ)) (moves trips : List Move) (blocks : ℕ)
        → IsDeficits joined → IsDeficits before → Holds joined moves → Holds before trips
        → length names ≡ length joined → length names ≡ length before
        → joined_text names (value joined) (value before) blocks ≡ joined_text names (deficit moves) (deficit trips) blocks }
{
    held_law();
}
