ghost use Rattle.std.specs.Prelude.{◌≡◌, ℕ};
ghost use Rattle.terminal_maxima.specs.Summary.{MayJoin, SummaryLaws};

/// How many leaves a tree has, one for each minute of a service day.
pub const LEAVES: usize = 8_192;

/// What a tree knows of neighbouring leaves. Two summaries of neighbours are joined into the summary of both.
///
/// The laws are asked only of summaries of at most 8,192 leaves, so that numbers in a summary may have a bound.
pub trait Summary: Copy {
    /// Holds of a summary and the number of leaves under it.
    ghost sums: { Self → ℕ → Type 0 };

    /// The summary that [`Summary::unit`] gives.
    ghost empty: { Self };

    /// The summary that [`Summary::join`] gives.
    ghost joined: { Self → Self → Self };

    /// The summary of no leaf, which a leaf that was never set has too.
    fn unit() -> Self
        ensures { result ≡ empty };

    /// The summary of the leaves of both, `right` being the summary of those that follow.
    fn join(self, right: Self) -> Self
        requires { MayJoin sums self right }
        ensures { result ≡ joined self right };

    /// The predicate is kept, and on such summaries `join` is associative and `unit` is neutral.
    ghost laws: { SummaryLaws sums empty joined };
}
