ghost use Rattle.std.specs.Prelude.{◌≡◌, Ok};
ghost use Rattle.claim_files.specs.Claims.{claimed_of};
ghost use Rattle.desk_io.specs.declared.shelf.Found.TheVariants.{File};
ghost use Rattle.examples_computed.specs.Claims.{blocks_file, claimed, one_deadhead, prices_file, two_trips};
ghost use Rattle.price_check.specs.Reasons.{verdict_of};
ghost use Rattle.price_check.specs.declared.verdict.Reason.TheVariants.{MinutesDiffer};
ghost use Rattle.price_check.specs.declared.verdict.Verdict.TheVariants.{No, Yes};

/// The two files that are written read as this claim.
pub fn a_claim()
    ensures { claimed_of two_trips (File blocks_file) (File prices_file) ≡ Ok (claimed 20) }
{}

/// Of `examples/depot`: one vehicle makes both trips, with 10 empty minutes out, 20 between them and 15 home.
pub fn a_yes()
    ensures { verdict_of two_trips one_deadhead (claimed 20) ≡ Yes 1 45 }
{}

/// The same claim with 19 minutes before the second trip is refused at its second record.
pub fn a_no()
    ensures { verdict_of two_trips one_deadhead (claimed 19) ≡ No (MinutesDiffer 2 19 20) }
{}
