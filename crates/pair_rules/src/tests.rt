use crate::{PairRules, RuleKind};
use desk_io::Memory;
use std::alloc::Global;
use std::test::Fail;

// A keep, a never, and three rules that clash with these.
const RULES: &[(&str, &str, RuleKind)] = &[
    ("A", "B", RuleKind::Keep),
    ("C", "B2", RuleKind::Never),
    ("A", "B", RuleKind::Never),
    ("A", "D", RuleKind::Keep),
    ("C", "B", RuleKind::Keep),
];

// Two trips, and whether the second may come straight after the first.
const PAIRS: &[(&str, &str, bool)] = &[
    ("A", "B", true),
    ("A", "D", false),
    ("D", "B", false),
    ("B", "A", true),
    ("C", "B2", false),
    ("C", "D", true),
    ("B2", "C", true),
    ("D", "E", true),
];

// The rules that do not clash with those before them.
fn rules(alloc: Global) -> Result<PairRules, Memory> {
    let mut rules = PairRules::none(alloc);
    for (before, after, kind) in RULES {
        if before != after && !rules.clashes(before, after, *kind) && rules.has_room() {
            rules.add(before, after, *kind)?;
        }
    }
    Ok(rules)
}

// How many rules there are, and whether all pairs are allowed as the table says.
fn tried(alloc: Global) -> Result<(usize, bool), Memory> {
    let rules = rules(alloc)?;
    let mut right = true;
    for (before, after, allowed) in PAIRS {
        if rules.allows(before, after) != *allowed {
            right = false;
        }
    }
    Ok((rules.len(), right))
}

/// Where there is memory, rules are added.
#[test]
fn rules_are_added(rt: HostRuntime) -> Result<(), Fail> {
    assert!(rt; matches!(tried(rt.alloc()), Ok((2, true))));
    Ok(())
}
