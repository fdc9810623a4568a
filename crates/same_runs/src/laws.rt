//! Laws of runs. Each is the contract of a function that does nothing.
ghost use Rattle.std.specs.Prelude.{◌≡◌, ℕ, ◌≤◌, length};
ghost use Rattle.block_names.specs.Names.{NamingView};
ghost use Rattle.blocks_command.specs.Blocks.{WritesPlans, blocks_asked, plan_files};
ghost use Rattle.desk_feed.specs.Feed.{FeedView, standing};
ghost use Rattle.desk_program.specs.Commands.{asked_by};
ghost use Rattle.desk_program.specs.declared.command.CommandName.{CommandName};
ghost use Rattle.desk_run.specs.Answers.{found_by};
ghost use Rattle.desk_run.specs.Outcome.{OutcomeView};
ghost use Rattle.desk_run.specs.Outside.{Outside};
ghost use Rattle.desk_run.specs.Performs.{Performs};
ghost use Rattle.desk_run.specs.declared.status.TheConstants.{EDITS_REFUSED, NO};
ghost use Rattle.feed_desk.specs.Plans.{plan_at};
ghost use Rattle.gtfs_tables.specs.Table.{TableView};
ghost use Rattle.joined_command.specs.Joined.{IsJoined};
ghost use Rattle.plan_choice.specs.Likings.{LikingsView};
ghost use Rattle.plan_commands.specs.Chart.{IsChart};
ghost use Rattle.same_runs.specs.Blocks.{listed};
ghost use Rattle.same_runs.specs.Fulfilled.{IsFulfilled};
ghost use Rattle.same_runs.specs.Same.{AreAlike, IsDetermined};
ghost use Rattle.write_command.specs.Write.{IsWritten};

/// What was read determines the outcome of each command.
pub fn determined_law()
    ensures { (command : CommandName) → IsDetermined (asked_by command) }
{}

/// Two runs of a command do the same: they make the same writes, appends and puts, with the same bytes. The reads and loads of both
/// were answered the same, and both come to their ends: neither a fault nor want of memory stops them. This holds of real folders too.
pub fn same_run_law()
    ensures { (command : CommandName) (before after later last : Outside) (status second n m k l : ℕ)
        → Performs (asked_by command) before after status n m → Performs (asked_by command) later last second k l
        → found_by (asked_by command) later.calls last.calls ≡ found_by (asked_by command) before.calls after.calls
        → status ≤ NO → second ≤ NO → AreAlike (asked_by command) before after later last status second }
{}

/// The blocks that `blocks` lists in `blocks.csv` are those of the boards of `joined`, of the rows of `chart` and of the feed that
/// `write` writes, where these commands read the same feed.
pub fn same_blocks_law()
    ensures listed { (likings : LikingsView) (naming : NamingView) (said : FeedView) (outcome : OutcomeView)
        (plan : WritesPlans likings naming said outcome)
        → outcome.writes ≡ plan_files (standing said) plan.matrix naming
        (plan_at said.base said.lines plan.matrix likings (length said.lines)) }
    ensures joined { (likings : LikingsView) (naming : NamingView) (said : FeedView) (outcome other : OutcomeView)
        (plan : WritesPlans likings naming said outcome)
        (joined : IsJoined likings naming said other) → joined.blocks ≡ listed likings naming said outcome plan }
    ensures drawn { (likings : LikingsView) (naming : NamingView) (said : FeedView) (outcome other : OutcomeView)
        (plan : WritesPlans likings naming said outcome)
        (chart : IsChart likings naming said other) → chart.blocks ≡ listed likings naming said outcome plan }
    ensures written { (likings : LikingsView) (naming : NamingView) (said : FeedView) (outcome other : OutcomeView)
        (trips stop_times : TableView)
        (plan : WritesPlans likings naming said outcome) (written : IsWritten likings naming said trips stop_times other)
        → written.blocks ≡ listed likings naming said outcome plan }
{}

/// A run of `blocks` that comes to its end with an accepted feed, perhaps with refused edits, does what the record `Headline` says. This
/// holds of real folders too.
pub fn headline_law()
    ensures { (before after : Outside) (status n m : ℕ) → Performs blocks_asked before after status n m → status ≤ EDITS_REFUSED
        → IsFulfilled before after status }
{}
