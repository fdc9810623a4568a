ghost use Rattle.std.specs.Prelude.{◌≡◌, ◌≤◌};
ghost use Rattle.desk_io.specs.Calls.{CallCount, calls_at_first, after_call, after_fault, fails_next};

use std::marker::Model;

/// Which calls of an object in memory fail: those that are listed, counted from 1, and no others.
#[derive(Drop)]
pub struct Calls {
    listed: Vec<u32>,
    made: u64,
    faults: u64,
}

impl Model for Calls {
    ghost use Rattle.desk_io.specs.Calls.{CallCount};

    ghost Value = { CallCount };

    ghost view = { λ c. record { listed = c.listed.items; made = c.made; faults = c.faults } };
}

impl Calls {
    /// No call was made, and no fault was counted.
    pub fn new(listed: Vec<u32>) -> Calls
        ensures { result ≡ calls_at_first listed.items }
    {
        Calls {
            listed,
            made: 0,
            faults: 0,
        }
    }

    /// Counts a call, and tells whether it is to fail.
    pub fn enter(&mut self) -> bool
        ensures fails { result ≡ fails_next self.old }
        ensures counted { self.new ≡ after_call self.old }
    {
        self.made = self.made.saturating_add(1);
        let number = self.made;
        self.listed
            .iter()
            .any(|listed| u64::from(*listed) == number)
    }

    /// Counts a fault.
    pub fn fault(&mut self)
        ensures counted { self.new ≡ after_fault self.old }
        ensures never_falls { self.old.faults ≤ self.new.faults }
    {
        self.faults = self.faults.saturating_add(1);
    }
}
