ghost use Rattle.std.specs.Prelude.{◌≡◌};
ghost use Rattle.service_days.specs.Dates.{IsDateNumber};

use std::marker::Model;

/// A date of the calendar, as the number YYYYMMDD.
#[derive(Drop)]
pub(crate) struct Date {
    number: u32,
}

impl Model for Date {
    ghost use Rattle.std.specs.Prelude.{ℕ};
    ghost use Rattle.service_days.specs.Dates.{IsDateNumber};

    ghost Value = { ℕ };

    ghost view = { λ d. d.number };

    ghost invariant = { λ d. IsDateNumber d.number };
}

impl Date {
    pub(crate) fn of(number: u32) -> Date
        requires { IsDateNumber number }
        ensures { result ≡ number }
    {
        Date { number }
    }

    pub(crate) fn number(&self) -> u32
        ensures value { result ≡ self.now }
        ensures valid { IsDateNumber result }
    {
        self.number
    }
}
