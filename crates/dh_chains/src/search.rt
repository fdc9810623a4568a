ghost use Rattle.std.specs.Prelude.{◌≡◌, ◌≢◌, ℕ, ◌<◌, ◌≤◌, [], ◌∷◌, length, ℤ, None, IfSome, IfNone};
ghost use Rattle.trip_model.specs.declared.limits.TheConstants.{LAST_MINUTE};
ghost use Rattle.dh_chains.specs.Chains.{IsChainOf, IsFirstChain, NoChain, following, places_of, places_with};
ghost use Rattle.dh_chains.specs.Ends.{AreEarliest};
ghost use Rattle.dh_chains.specs.Search.{IsFirstBranch, IsFirstChainTo, IsFirstTail, IsNext, NoBranch, NoChainTo, NoTail, listed};
ghost use Rattle.dh_chains.specs.declared.chain.Deadhead.{Deadhead as ModelDeadhead};

use crate::chain::{Chain, Deadhead};
use crate::ends::{Earliest, earliest_of, minute_of};
use deadhead_matrix::Matrix;
use deficit_steps::Deficits;

// The deadhead from a place that the chain does not have yet, if a walk from there can arrive at a place at a minute.
fn next_from(matrix: &Matrix, had: &[u16], from: u16, to: u16, arrives: u16) -> Option<Deadhead>
    requires from { from < length matrix.now.walks }
    requires to { to < length matrix.now.walks }
    ensures from { IfSome result (λ next. next.from ≡ from) }
    ensures next { (d : ℕ → ℕ → ℤ) → IfSome result (IsNext (places_with d matrix.now) had.now to arrives) }
    ensures none { (d : ℕ → ℕ → ℤ) (next : ModelDeadhead) → next.from ≡ from
        → IfNone result (¬ IsNext (places_with d matrix.now) had.now to arrives next) }
{
    if had.contains(&from) {
        return None;
    }
    let minutes = matrix.minutes(from, to)?;
    if minutes == 0 {
        return None;
    }
    let leaves = u32::from(arrives).checked_sub(minutes)?;
    Some(Deadhead {
        from,
        to,
        leaves: leaves as u16,
        arrives,
    })
}

// The first deadhead that arrives at a place at a minute, and behind which the chain ends.
fn last_into(
    deficits: &Deficits,
    matrix: &Matrix,
    had: &[u16],
    to: u16,
    arrives: u16,
) -> Option<Deadhead>
    requires places { length deficits.now ≡ length matrix.now.walks }
    requires to { to < length matrix.now.walks }
    requires in_day { arrives ≤ LAST_MINUTE }
    ensures first { IfSome result (λ last. IsFirstBranch (places_of deficits.now matrix.now) 0 had.now to arrives last []) }
    ensures none { IfNone result (NoBranch (places_of deficits.now matrix.now) 0 had.now to arrives) }
{
    for from in 0..deficits.places() {
        if let Some(last) = next_from(matrix, had, from, to, arrives) {
            if deficits.first_max_from(last.from, last.leaves).is_none() {
                return Some(last);
            }
        }
    }
    None
}

// The third deadhead, or none where the chain ends behind its second one; `None` where it can have no end.
fn after_second(
    deficits: &Deficits,
    matrix: &Matrix,
    earliest: &Earliest,
    first: Deadhead,
    second: Deadhead,
) -> Option<Option<Deadhead>>
    requires places { length deficits.now ≡ length matrix.now.walks }
    requires second { AreEarliest (places_of deficits.now matrix.now) 1 earliest.now.second }
    requires from { second.from < length matrix.now.walks }
    requires in_day { second.leaves ≤ LAST_MINUTE }
    ensures first { IfSome result (λ third. IsFirstTail (places_of deficits.now matrix.now) 1
        (second.from ∷ first.from ∷ first.to ∷ []) second (listed third)) }
    ensures none { IfNone result (NoTail (places_of deficits.now matrix.now) 1
        (second.from ∷ first.from ∷ first.to ∷ []) second) }
{
    if second.leaves < minute_of(&earliest.second, second.from) {
        return None;
    }
    let Some(minute) = deficits.first_max_from(second.from, second.leaves) else {
        return Some(None)
    };
    let had = [second.from, first.from, first.to];
    let third = last_into(deficits, matrix, &had, second.from, minute)?;
    Some(Some(third))
}

// The first second deadhead that arrives at a minute where the first one left, and the third, if there is one.
fn second_into(
    deficits: &Deficits,
    matrix: &Matrix,
    earliest: &Earliest,
    first: Deadhead,
    arrives: u16,
) -> Option<(Deadhead, Option<Deadhead>)>
    requires places { length deficits.now ≡ length matrix.now.walks }
    requires second { AreEarliest (places_of deficits.now matrix.now) 1 earliest.now.second }
    requires from { first.from < length matrix.now.walks }
    requires in_day { arrives ≤ LAST_MINUTE }
    ensures first { IfSome result (λ both. IsFirstBranch (places_of deficits.now matrix.now) 1
        (first.from ∷ first.to ∷ []) first.from arrives both.0 (listed both.1)) }
    ensures none { IfNone result (NoBranch (places_of deficits.now matrix.now) 1
        (first.from ∷ first.to ∷ []) first.from arrives) }
{
    let had = [first.from, first.to];
    for from in 0..deficits.places() {
        if let Some(second) = next_from(matrix, &had, from, first.from, arrives) {
            if let Some(third) = after_second(deficits, matrix, earliest, first, second) {
                return Some((second, third));
            }
        }
    }
    None
}

// The first chain that begins with this deadhead.
fn after_first(
    deficits: &Deficits,
    matrix: &Matrix,
    earliest: &Earliest,
    first: Deadhead,
) -> Option<Chain>
    requires places { length deficits.now ≡ length matrix.now.walks }
    requires first { AreEarliest (places_of deficits.now matrix.now) 2 earliest.now.first }
    requires second { AreEarliest (places_of deficits.now matrix.now) 1 earliest.now.second }
    requires from { first.from < length matrix.now.walks }
    requires in_day { first.leaves ≤ LAST_MINUTE }
    ensures begins { IfSome result (λ chain. chain.first ≡ first) }
    ensures in_order { IfSome result (λ chain. chain.second ≡ None → chain.third ≡ None) }
    ensures first { IfSome result (λ chain. IsFirstTail (places_of deficits.now matrix.now) 2
        (first.from ∷ first.to ∷ []) first (following chain.second chain.third)) }
    ensures none { IfNone result (NoTail (places_of deficits.now matrix.now) 2
        (first.from ∷ first.to ∷ []) first) }
{
    if first.leaves < minute_of(&earliest.first, first.from) {
        return None;
    }
    let Some(minute) = deficits.first_max_from(first.from, first.leaves) else {
        return Some(Chain {
            first,
            second: None,
            third: None,
        })
    };
    let (second, third) = second_into(deficits, matrix, earliest, first, minute)?;
    Some(Chain {
        first,
        second: Some(second),
        third,
    })
}

// The first chain whose first deadhead arrives at a place.
fn chain_to(deficits: &Deficits, matrix: &Matrix, earliest: &Earliest, target: u16) -> Option<Chain>
    requires places { length deficits.now ≡ length matrix.now.walks }
    requires first { AreEarliest (places_of deficits.now matrix.now) 2 earliest.now.first }
    requires second { AreEarliest (places_of deficits.now matrix.now) 1 earliest.now.second }
    requires target { target < length matrix.now.walks }
    ensures in_order { IfSome result (λ chain. chain.second ≡ None → chain.third ≡ None) }
    ensures first { IfSome result (λ chain. IsFirstChainTo (places_of deficits.now matrix.now) target
        chain.first (following chain.second chain.third)) }
    ensures none { IfNone result (NoChainTo (places_of deficits.now matrix.now) target) }
{
    let (high, minute) = deficits.max(target);
    if high == 0 {
        return None;
    }
    let had = [target];
    for from in 0..deficits.places() {
        if let Some(first) = next_from(matrix, &had, from, target, minute) {
            if let Some(chain) = after_first(deficits, matrix, earliest, first) {
                return Some(chain);
            }
        }
    }
    None
}

/// The first chain of deadheads with which the sum of the maxima of the deficits is smaller by one. Chains are ordered by the
/// place where the first deadhead arrives. Then come the places that the first, the second and the third leave. None where
/// there is none.
///
/// A look-up, which takes no memory.
pub fn next_chain(deficits: &Deficits, matrix: &Matrix) -> Option<Chain>
    requires { length deficits.now ≡ length matrix.now.walks }
    ensures in_order { IfSome result (λ chain. chain.second ≡ None → chain.third ≡ None) }
    ensures first { IfSome result (λ chain. IsFirstChain (places_of deficits.now matrix.now)
        chain.first (following chain.second chain.third)) }
    ensures of_deficits { IfSome result (IsChainOf deficits.now) }
    ensures none { IfNone result (NoChain (places_of deficits.now matrix.now)) }
{
    let earliest = earliest_of(deficits, matrix);
    for target in 0..deficits.places() {
        if let Some(chain) = chain_to(deficits, matrix, &earliest, target) {
            return Some(chain);
        }
    }
    None
}
