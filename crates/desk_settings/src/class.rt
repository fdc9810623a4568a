ghost use Rattle.std.specs.Prelude.{◌≡◌, false};
ghost use Rattle.trip_model.specs.Place.{has_slash};

use desk_io::Text;
use std::marker::Model;

/// A class of vehicles: its name has no `/`.
#[derive(Drop)]
pub(crate) struct Class {
    name: Text,
}

impl Model for Class {
    ghost use Rattle.std.specs.Prelude.{◌≡◌, ℕ, List, false};
    ghost use Rattle.trip_model.specs.Place.{has_slash};

    ghost Value = { List ℕ };

    ghost view = { λ c. c.name };

    ghost invariant = { λ c. has_slash c.name ≡ false };
}

impl Class {
    pub(crate) fn of(name: Text) -> Class
        requires { has_slash name ≡ false }
        ensures { result ≡ name }
    {
        Class { name }
    }

    pub(crate) fn name(&self) -> &str
        ensures value { result.now ≡ self.now }
        ensures valid { has_slash result.now ≡ false }
    {
        self.name.as_str()
    }
}
