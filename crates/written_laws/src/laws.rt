//! The laws of a feed that is written and read again.
ghost use Rattle.written_laws.specs.Laws as spec;
ghost use Rattle.written_laws.specs.PlanLaws as plan;

use deadhead_matrix::laws::deadhead_law;
use trip_model::laws::plain_law;

/// The two files are written of a timetable which follows that of a feed. They read as the timetable of the feed, with its
/// trips at their minutes in the one that follows.
pub fn written_law()
    ensures { spec.WrittenFeedReadsBack }
{}

/// What stands after a script over a timetable whose trips end after they depart follows it.
pub fn follows_law()
    ensures { spec.StandingFollows }
{}

/// All times can be written where those of the feed are before 99:00:00.
pub fn early_law()
    ensures { spec.EarlyTimesAreWritable }
{}

/// Where no trip is cancelled and there are no extras, the trips of the written feed make the moves that were planned, under
/// the names that they have there. So blocks are least of the one where they are of the other, under any rules of pairs.
pub fn moves_law()
    ensures same { plan.SameMoves }
    ensures least { plan.LeastAgain }
{}

/// Where all trips run, the `block_id` of each selected record that is written is the name of the block of its trip.
pub fn names_law()
    ensures { plan.NamesAreStated }
{}

/// So the blocks that it states are those of the plan, in their order and each with its trips in theirs. For that no name of a
/// block may be empty, and no two the same. Where the blocks are least, it states the plan.
pub fn blocks_law()
    ensures blocks { plan.BlocksAreStated }
    ensures least { plan.LeastAreStated }
{
    plain_law();
    deadhead_law();
}

/// The selected records of a feed name the trips of its slots, each in its turn.
pub fn services_law()
    ensures { plan.FeedNamesSlots }
{}

/// So the files that are written of a feed in which all trips run and no others, read again, state the plan.
pub fn plan_law()
    ensures { plan.WrittenFeedStatesPlan }
{
    plain_law();
    deadhead_law();
}

/// All trips run and no others after a script that leaves as many, and leaves none cancelled.
pub fn script_law()
    ensures { plan.ScriptLeavesWhole }
{}
