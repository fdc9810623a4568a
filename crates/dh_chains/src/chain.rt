use trip_model::Move;

/// A vehicle that runs empty from one place to another, in minutes of the service day.
#[derive(Clone, Copy)]
pub struct Deadhead {
    /// The place that it leaves.
    pub from: u16,
    /// The place where it arrives.
    pub to: u16,
    pub leaves: u16,
    /// The minute from which the vehicle can leave again.
    pub arrives: u16,
}

/// A chain of one to three deadheads. The first arrives where a vehicle is wanting, and each further one where the one
/// before it left. A third one is none where there is no second.
#[derive(Clone, Copy)]
pub struct Chain {
    pub first: Deadhead,
    pub second: Option<Deadhead>,
    pub third: Option<Deadhead>,
}

impl Deadhead {
    ghost use Rattle.std.specs.Prelude.{◌≡◌};
    ghost use Rattle.dh_chains.specs.Chains.{move_of};

    /// The deadhead as deficits count it.
    pub fn as_move(&self) -> Move
        ensures { result ≡ move_of self.now }
    {
        Move {
            from: self.from,
            to: self.to,
            leaves: self.leaves,
            arrives: self.arrives,
        }
    }
}
