//! Laws of the definitions that the contracts cite. Each is the contract of a function that does nothing.
ghost use Rattle.std.specs.Prelude.{◌≡◌, ℕ, List, length, Ok};
ghost use Rattle.deadhead_matrix.specs.Matrix.{MatrixView};
ghost use Rattle.assignment_model.specs.Prices.{Plan};
ghost use Rattle.deadhead_matrix.specs.Fitting.{network_of};
ghost use Rattle.desk_io.specs.declared.shelf.Found.{Found};
ghost use Rattle.price_check.specs.Certificate.{IsCertificate};
ghost use Rattle.price_check.specs.Claim.{ClaimedView, AreBlockRows, ArePriceRows};
ghost use Rattle.price_check.specs.declared.verdict.Reason.{Reason};
ghost use Rattle.price_check.specs.declared.verdict.Verdict.TheVariants.{No};
ghost use Rattle.price_check.specs.Reasons.{verdict_of};
ghost use Rattle.trip_model.specs.Timetable.{TimetableView, IsTimetable};
ghost use Rattle.claim_files.specs.Claims.{claimed_of};
ghost use Rattle.claim_files.specs.Lines.{IsTold};
ghost use Rattle.claim_files.specs.Written.{AreOfPlan, CanBeWritten, IsAccepted, written, written_claim};

/// What is claimed are rows that the checker judges: at most 4,096 of each file, which name slots whose trips run, or none.
pub fn rows_law()
    ensures blocks { (timetable : TimetableView) (blocks prices : Found) (claimed : ClaimedView)
        → claimed_of timetable blocks prices ≡ Ok claimed → AreBlockRows timetable claimed.blocks }
    ensures prices { (timetable : TimetableView) (blocks prices : Found) (claimed : ClaimedView)
        → claimed_of timetable blocks prices ≡ Ok claimed → ArePriceRows timetable claimed.prices }
{}

/// The records and the slots whose names are printed of the reason of a no are there.
pub fn told_law()
    ensures { (timetable : TimetableView) (matrix : MatrixView) (claimed : ClaimedView) (reason : Reason)
        → ArePriceRows timetable claimed.prices
        → verdict_of timetable matrix claimed ≡ No reason → IsTold timetable claimed reason }
{}

/// Blocks and prices that are written read back. Each trip has a row with its name, its slot, and the empty minutes before it
/// or its prices. The names of trips and of blocks may have any bytes of text, commas, quotes and line ends too.
pub fn read_back_law()
    ensures { (timetable : TimetableView) (matrix : MatrixView) (names blocks : List (List ℕ)) (leave enter : List ℕ)
        → IsTimetable timetable → CanBeWritten timetable matrix names blocks leave enter
        → written timetable matrix names blocks leave enter ≡ Ok (written_claim timetable matrix blocks leave enter) }
{}

/// Of a certified plan what is written is a certificate, and is accepted. It reads back, and the verdict on it is yes, with the
/// vehicles and the empty minutes of its blocks.
pub fn accepted_law()
    ensures certificate { (timetable : TimetableView) (matrix : MatrixView) (names : List (List ℕ)) (plan : Plan) (blocks : List (List ℕ))
        → AreOfPlan timetable matrix names plan blocks
        → IsCertificate (network_of timetable matrix) (length timetable.slots)
        (written_claim timetable matrix blocks plan.leave plan.enter) }
    ensures accepted { (timetable : TimetableView) (matrix : MatrixView) (names : List (List ℕ)) (plan : Plan) (blocks : List (List ℕ))
        → AreOfPlan timetable matrix names plan blocks → IsAccepted timetable matrix names blocks plan.leave plan.enter }
{}
