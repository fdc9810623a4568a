ghost use Rattle.std.specs.Prelude.{◌≡◌, ◌<◌, ◌++◌, length, All, IfOk, OnOk};
ghost use Rattle.pair_rules.specs.Rules.{allows};
ghost use Rattle.price_check.specs.Claim.{Runs};
ghost use Rattle.trip_model.specs.Timetable.{slot_at};
ghost use Rattle.block_audit.specs.Misfits as spec;
ghost use Rattle.block_audit.specs.Stated.{slots_by};

use crate::stated::Stated;
use deadhead_matrix::Matrix;
use desk_io::Memory;
use std::alloc::Global;
use trip_model::Timetable;

/// Two neighbours of a stated block that do not fit: no vehicle can make the second after the first.
#[derive(Clone, Copy)]
pub struct Misfit {
    /// The number of the block, counted from 0.
    pub block: u32,
    /// The slot of the first trip.
    pub before: u16,
    /// The slot of the second trip.
    pub after: u16,
    /// Why it cannot.
    pub why: Why,
}

/// Why no vehicle can make the second trip of a misfit after the first.
#[derive(Clone, Copy)]
pub enum Why {
    /// No way leads there.
    NoWay,
    /// It comes so many minutes too late, which are more than 0.
    Late(u32),
    /// It would come in time, and a rule of pairs forbids it.
    Forbidden,
}

// By how many minutes a vehicle comes too late from the one trip to the other. It is 0 where it comes in time, and None where
// no way leads there.
fn short_by(timetable: &Timetable, matrix: &Matrix, before: u16, after: u16) -> Option<u32>
    requires places { length timetable.now.places ≡ length matrix.now.walks }
    requires before { Runs timetable.now before }
    requires after { Runs timetable.now after }
    ensures { result ≡ spec.short_by timetable.now matrix.now before after }
{
    let first = timetable.trip(before);
    let second = timetable.trip(after);
    let minutes = matrix.minutes(first.to, second.from)?;
    Some((u32::from(first.ends) + minutes).saturating_sub(u32::from(second.departs)))
}

// Whether the rules of pairs allow the one trip straight after the other.
fn is_allowed(timetable: &Timetable, matrix: &Matrix, before: u16, after: u16) -> bool
    requires before { Runs timetable.now before }
    requires after { Runs timetable.now after }
    ensures { result ≡ allows matrix.now.rules (slot_at timetable.now before).name (slot_at timetable.now after).name }
{
    matrix
        .rules()
        .allows(timetable.name(before), timetable.name(after))
}

// Why two trips do not fit, of which a vehicle comes so many minutes too late from the one to the other.
fn why_of(short: Option<u32>) -> Why
    ensures { result ≡ spec.why_of short }
{
    match short {
        None => Why::NoWay,
        Some(0) => Why::Forbidden,
        Some(minutes) => Why::Late(minutes),
    }
}

// The misfit of two neighbours of a block; None where the second fits after the first.
fn misfit_between(
    timetable: &Timetable,
    matrix: &Matrix,
    block: u32,
    before: u16,
    after: u16,
) -> Option<Misfit>
    requires places { length timetable.now.places ≡ length matrix.now.walks }
    requires before { Runs timetable.now before }
    requires after { Runs timetable.now after }
    ensures { result ≡ spec.misfit_between timetable.now matrix.now block before after }
{
    let short = short_by(timetable, matrix, before, after);
    if short == Some(0) && is_allowed(timetable, matrix, before, after) {
        return None;
    }
    Some(Misfit {
        block,
        before,
        after,
        why: why_of(short),
    })
}

// Appends the misfits of a block.
fn push_block(
    misfits: &mut Vec<Misfit>,
    timetable: &Timetable,
    matrix: &Matrix,
    block: u32,
    slots: &[u16],
) -> Result<(), Memory>
    requires places { length timetable.now.places ≡ length matrix.now.walks }
    requires runs { All (Runs timetable.now) slots.now }
    ensures { OnOk result (misfits.new.items ≡ misfits.old.items ++ spec.block_misfits timetable.now matrix.now block slots.now) }
{
    for n in 1..slots.len() {
        if let Some(misfit) = misfit_between(timetable, matrix, block, slots[n - 1], slots[n]) {
            misfits.push(misfit)?;
        }
    }
    Ok(())
}

/// The neighbours in stated blocks that do not fit, block by block and in the order of the trips. Each trip of the blocks has
/// to run.
pub fn misfits(
    alloc: Global,
    timetable: &Timetable,
    matrix: &Matrix,
    stated: &Stated,
) -> Result<Vec<Misfit>, Memory>
    requires places { length timetable.now.places ≡ length matrix.now.walks }
    requires runs { All (All (Runs timetable.now)) (slots_by stated.now) }
    ensures misfits { IfOk result (λ misfits. misfits.items ≡ spec.misfits_in timetable.now matrix.now stated.now) }
    ensures blocks { IfOk result (λ misfits. All (λ misfit. misfit.block < length stated.now) misfits.items) }
    ensures slots { IfOk result (λ misfits. All (λ misfit. Runs timetable.now misfit.before × Runs timetable.now misfit.after)
        misfits.items) }
{
    let mut misfits = Vec::new(alloc);
    for b in 0..stated.len() {
        push_block(&mut misfits, timetable, matrix, b as u32, stated.block(b))?;
    }
    Ok(misfits)
}
