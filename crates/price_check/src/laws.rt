//! Laws of the definitions that the contracts cite. Each is the contract of a function that does nothing.
ghost use Rattle.std.specs.Prelude.{◌≡◌, ◌≤◌, length, All, None};
ghost use Rattle.deadhead_matrix.specs.Matrix.{MatrixView};
ghost use Rattle.deadhead_matrix.specs.Pulls.{IsPull};
ghost use Rattle.deadhead_matrix.specs.Fitting.{network_of};
ghost use Rattle.trip_model.specs.declared.limits.TheConstants.{MOST_SLOTS};
ghost use Rattle.trip_model.specs.Blocking.{IsLeast};
ghost use Rattle.trip_model.specs.Timetable.{TimetableView, IsTimetable};
ghost use Rattle.price_check.specs.Certificate.{IsCertificate};
ghost use Rattle.price_check.specs.Claim.{ClaimedView, AreBlockRows, ArePriceRows, blocks_in};
ghost use Rattle.price_check.specs.Reasons.{reason_of};

/// A claim against which no reason holds is a certificate, and the other way round.
pub fn certificate_law()
    ensures certificate { (timetable : TimetableView) (matrix : MatrixView) (claimed : ClaimedView) → IsTimetable timetable
        → AreBlockRows timetable claimed.blocks → ArePriceRows timetable claimed.prices → reason_of timetable matrix claimed ≡ None
        → IsCertificate (network_of timetable matrix) (length timetable.slots) claimed }
    ensures reasonless { (timetable : TimetableView) (matrix : MatrixView) (claimed : ClaimedView) → IsTimetable timetable
        → IsCertificate (network_of timetable matrix) (length timetable.slots) claimed → reason_of timetable matrix claimed ≡ None }
{}

/// The blocks of a certificate are least over all blockings.
pub fn least_law()
    ensures { (timetable : TimetableView) (matrix : MatrixView) (claimed : ClaimedView) → IsTimetable timetable → All IsPull matrix.pulls
        → length claimed.blocks ≤ MOST_SLOTS → IsCertificate (network_of timetable matrix) (length timetable.slots) claimed
        → IsLeast (network_of timetable matrix) (blocks_in claimed.blocks) }
{}
