//! Laws of the definitions that the contracts cite. Each is the contract of a function that does nothing.
ghost use Rattle.std.specs.Prelude.{◌≡◌, ℕ, true, false, not, List, []};
ghost use Rattle.pair_rules.specs.Rules.{PairRule, allows, names_first, names_second, keeps_first, keeps_second};

/// No rules allow all pairs. Of a trip that is the first of no rule, a pair is allowed unless a keep has the other trip as its
/// second. Of a trip that is the second of no rule, it is allowed unless a keep has the other trip as its first.
pub fn allowed_law()
    ensures none { (a b : List ℕ) → allows [] a b ≡ true }
    ensures unnamed_first { (rules : List PairRule) (a b : List ℕ) → names_first rules a ≡ false
        → allows rules a b ≡ not (keeps_second rules b) }
    ensures unnamed_second { (rules : List PairRule) (a b : List ℕ) → names_second rules b ≡ false
        → allows rules a b ≡ not (keeps_first rules a) }
{}
