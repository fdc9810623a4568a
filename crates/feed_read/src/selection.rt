ghost use Rattle.std.specs.Prelude.{◌≡◌, ◌≤◌, false, All, length};
ghost use Rattle.std.proofs.Props.{props};
ghost use Rattle.trip_model.specs.declared.limits.TheConstants.{MOST_SLOTS};
ghost use Rattle.trip_model.specs.Place.{has_slash};

use desk_io::Text;
use desk_settings::Names;

/// The trips that are selected, by their names, and for each of these the class of its vehicles.
#[derive(Drop)]
pub(crate) struct Selection {
    pub(crate) names: Names,
    pub(crate) classes: Vec<Text>,
    ghost few: { length names ≤ MOST_SLOTS },
    ghost each: { length names ≤ length classes.items },
    ghost named: { All (λ class. has_slash class ≡ false) classes.items } by { Prim.hlevel props },
}
