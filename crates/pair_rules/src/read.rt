ghost use Rattle.std.specs.Prelude.{◌≡◌, ◌≢◌, IfOk};
ghost use Rattle.gtfs_tables.specs.Papers.{IsWithinLimit};
ghost use Rattle.gtfs_tables.specs.Reading.{Gives};
ghost use Rattle.pair_rules.specs.Reading as spec;

use crate::{PairRules, RuleKind};
use desk_io::Found;
use gtfs_tables::{
    Column, FeedFault, Paper, RecordReader, Row, column_in, filled_in, read_optional, text_in,
    without_spaces,
};
use std::alloc::Global;

/// Where the required columns of `pairs.csv` are.
#[derive(Clone, Copy)]
pub(crate) struct Columns {
    before: usize,
    after: usize,
    rule: usize,
}

// The kind of a text: `keep` or `never`, with spaces round it or not.
fn kind_in(text: &str) -> Option<RuleKind>
    ensures { result ≡ spec.kind_in text.now }
{
    let word = without_spaces(text.as_bytes());
    if word == "keep".as_bytes() {
        Some(RuleKind::Keep)
    } else if word == "never".as_bytes() {
        Some(RuleKind::Never)
    } else {
        None
    }
}

// The two trips of a record, and what it says of them.
#[tactic(auto, unfolding(crate::specs::Reading::rule_in))]
fn rule_in<'a>(
    row: &'a Row,
    columns: &Columns,
    number: u32,
) -> Result<(&'a str, &'a str, RuleKind), FeedFault>
    ensures gives { Gives (λ rule. record { before = rule.0.now; after = rule.1.now; kind = rule.2 }) result
        (spec.rule_in columns.now number row.now) }
    ensures two { IfOk result (λ rule. rule.0.now ≢ rule.1.now) }
{
    let paper = Paper::Pairs;
    let before = text_in(paper, number, Column::Before, row.field(columns.before))?;
    let after = text_in(paper, number, Column::After, row.field(columns.after))?;
    let rule = text_in(paper, number, Column::Rule, row.field(columns.rule))?;
    filled_in(paper, number, Column::Before, before)?;
    filled_in(paper, number, Column::After, after)?;
    filled_in(paper, number, Column::Rule, rule)?;
    let kind = kind_in(rule).ok_or(FeedFault::BadRule(number))?;
    if before == after {
        return Err(FeedFault::SameTrip(number));
    }
    Ok((before, after, kind))
}

// The rules of the records that were read.
#[derive(Drop)]
struct Reading {
    rules: PairRules,
}

impl RecordReader for Reading {
    ghost use Rattle.std.specs.Prelude.{List};
    ghost use Rattle.pair_rules.specs.Reading as spec;
    ghost use Rattle.pair_rules.specs.Rules.{PairRule};

    type Columns = Columns;

    ghost State = { List PairRule };

    ghost state = { λ read. read.rules };

    ghost columns_in = { spec.columns_in };

    ghost step = { λ _. spec.with_row };

    #[tactic(auto, unfolding(crate::specs::Reading::columns_in))]
    fn columns(&self, header: &Row) -> Result<Columns, FeedFault> {
        let before = column_in(Paper::Pairs, Column::Before, header)?;
        let after = column_in(Paper::Pairs, Column::After, header)?;
        let rule = column_in(Paper::Pairs, Column::Rule, header)?;
        Ok(Columns {
            before,
            after,
            rule,
        })
    }

    fn record(&mut self, columns: &Columns, number: u32, row: &Row) -> Result<(), FeedFault> {
        let (before, after, kind) = rule_in(row, columns, number)?;
        self.rules.add_record(number, before, after, kind)
    }
}

impl PairRules {
    // Adds the rule of a record, where it clashes with none and there is room for it.
    fn add_record(
        &mut self,
        number: u32,
        before: &str,
        after: &str,
        kind: RuleKind,
    ) -> Result<(), FeedFault>
        requires { before.now ≢ after.now }
        ensures { Gives (λ _. self.new) result
            (spec.with_rule number self.old (record { before = before.now; after = after.now; kind = kind })) }
    {
        if self.clashes(before, after, kind) {
            return Err(FeedFault::DuplicateRow(Paper::Pairs, number));
        }
        if !self.has_room() {
            return Err(FeedFault::TooManyRecords(Paper::Pairs));
        }
        self.add(before, after, kind)?;
        Ok(())
    }

    /// The rules of `pairs.csv`, one for each record, in the order of these; none where it is not there. A refused file answers
    /// its first refusal.
    pub fn read(alloc: Global, pairs: &Found) -> Result<PairRules, FeedFault>
        requires { IsWithinLimit pairs.now }
        ensures { Gives (λ rules. rules) result (spec.rules_of pairs.now) }
    {
        let rules = PairRules::none(alloc);
        let read = read_optional(alloc, Paper::Pairs, pairs, Reading { rules })?;
        Ok(read.rules)
    }
}
