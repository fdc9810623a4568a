ghost use Rattle.std.specs.Prelude.{◌≡◌, ℕ, ◌+◌, ◌*◌, ◌≤◌, ◌==◌, ◌&&◌, cond, slice_index_or, None};
ghost use Rattle.assignment_model.specs.declared.limits.TheConstants.{MOST_LIKING};
ghost use Rattle.plan_choice.specs.Likings.{is_same_line, liking, likes_nothing, nothing_liked};
ghost use Rattle.trip_model.specs.Links.{leads_to};
ghost use Rattle.trip_model.specs.declared.limits.TheConstants.{LAST_MINUTE};

use std::alloc::Global;
use std::marker::Model;
use trip_model::LAST_MINUTE;

/// How it is liked that one trip is next after another: what counts how much, and by slot the next trip of its stated block and
/// the number of its line. A slot past the end of a list has neither.
#[derive(Drop)]
pub struct Likings {
    stated: u64,
    line: u64,
    waiting: u64,
    nexts: Vec<Option<u16>>,
    lines: Vec<Option<u16>>,
}

impl Model for Likings {
    ghost use Rattle.std.specs.Prelude.{◌+◌, ◌*◌, ◌≤◌};
    ghost use Rattle.assignment_model.specs.declared.limits.TheConstants.{MOST_LIKING};
    ghost use Rattle.plan_choice.specs.Likings.{LikingsView};
    ghost use Rattle.trip_model.specs.declared.limits.TheConstants.{LAST_MINUTE};

    ghost Value = { LikingsView };

    ghost view = { λ l. record {
      stated = l.stated;
      line = l.line;
      waiting = l.waiting;
      nexts = l.nexts.items;
      lines = l.lines.items;
    } };

    ghost invariant = { λ l. l.stated + l.line + l.waiting * LAST_MINUTE ≤ MOST_LIKING };
}

// What a list has for a slot; None past its end.
fn entry_at(entries: &[Option<u16>], slot: u16) -> Option<u16>
    ensures { result ≡ slice_index_or entries.now slot None }
{
    match entries.get(usize::from(slot)) {
        Some(entry) => *entry,
        None => None,
    }
}

// What counts where a fact holds, and 0 where it does not.
fn counted(holds: bool, counts: u64) -> u64
    ensures { result ≡ cond holds counts 0 }
{
    if holds { counts } else { 0 }
}

// Whether three numbers are 0.
fn are_zero(a: u64, b: u64, c: u64) -> bool
    ensures { result ≡ ((a == 0) && (b == 0) && (c == 0)) }
{
    a == 0 && b == 0 && c == 0
}

// Whether both have a line, the same.
fn is_same_line(a: Option<u16>, b: Option<u16>) -> bool
    ensures { result ≡ is_same_line a b }
{
    match (a, b) {
        (Some(a), Some(b)) => a == b,
        _ => false,
    }
}

// Whether an entry leads to a slot.
fn leads_to(slot: u16, entry: Option<u16>) -> bool
    ensures { result ≡ leads_to slot entry }
{
    match entry {
        Some(next) => next == slot,
        None => false,
    }
}

impl Likings {
    /// What counts how much: that a trip is next as the feed states it, that two trips are of one line, and each minute that a
    /// vehicle does not wait. And by slot the next trip of its stated block, and the number of its line.
    pub fn new(
        stated: u64,
        line: u64,
        waiting: u64,
        nexts: Vec<Option<u16>>,
        lines: Vec<Option<u16>>,
    ) -> Likings
        requires { stated + line + waiting * LAST_MINUTE ≤ MOST_LIKING }
        ensures { result ≡ record { stated = stated; line = line; waiting = waiting; nexts = nexts.items; lines = lines.items } }
    {
        Likings {
            stated,
            line,
            waiting,
            nexts,
            lines,
        }
    }

    /// Nothing is liked.
    pub fn none(alloc: Global) -> Likings
        ensures { result ≡ nothing_liked }
    {
        Likings {
            stated: 0,
            line: 0,
            waiting: 0,
            nexts: Vec::new(alloc),
            lines: Vec::new(alloc),
        }
    }

    /// Whether nothing counts.
    pub fn likes_nothing(&self) -> bool
        ensures nothing { result ≡ likes_nothing self.now }
        ensures most { (i j wait : ℕ) → liking self.now i j wait ≤ MOST_LIKING }
    {
        are_zero(self.stated, self.line, self.waiting)
    }

    /// How it is liked that the trip of `j` is next after that of `i`, with so many minutes of waiting between them.
    pub fn liking(&self, i: u16, j: u16, wait: u16) -> u64
        ensures liking { result ≡ liking self.now i j wait }
        ensures most { result ≤ MOST_LIKING }
    {
        let stated = counted(leads_to(j, entry_at(&self.nexts, i)), self.stated);
        let same = is_same_line(entry_at(&self.lines, i), entry_at(&self.lines, j));
        let line = counted(same, self.line);
        stated + line + self.waiting * u64::from(LAST_MINUTE.saturating_sub(wait))
    }
}
