ghost use Rattle.std.specs.Prelude.{◌≡◌};
ghost use Rattle.pair_rules.specs.Rules.{is_keep};

/// What a planner says of two trips.
#[derive(Clone, Copy)]
pub enum RuleKind {
    /// A vehicle makes the second straight after the first.
    Keep,
    /// No vehicle makes the second straight after the first.
    Never,
}

impl RuleKind {
    /// Whether it keeps the two together.
    pub(crate) fn is_keep(self) -> bool
        ensures { result ≡ is_keep self }
    {
        matches!(self, RuleKind::Keep)
    }
}
