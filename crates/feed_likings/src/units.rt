ghost use Rattle.std.specs.Prelude.{◌≡◌, ◌<◌, ◌*◌, ◌^◌, ◌==◌, ◌&&◌, true, if◌then◌else◌};
ghost use Rattle.desk_settings.specs.Prefer.{is_same, none_twice};
ghost use Rattle.feed_likings.specs.Units as spec;

use desk_settings::Preference;
use trip_model::{MINUTES, MOST_SLOTS};

// A number that all links of a plan do not reach together, by how often they have what is preferred.
fn range_of(preference: Preference) -> u64
    ensures { result ≡ spec.range_of preference }
{
    let links = u64::from(MOST_SLOTS);
    match preference {
        Preference::Stated | Preference::Line => links,
        Preference::Waiting => links * u64::from(MINUTES),
    }
}

// What a preference counts, where one more stands behind it: from the preference itself on, ranges are multiplied.
fn with_one_more(preference: Preference, unit: u64, other: Preference) -> u64
    requires { unit * spec.range_of other < 2 ^ 64 }
    ensures { result ≡ (if (unit == 0) && is_same preference other then 1 else unit * spec.range_of other) }
{
    if unit == 0 && preference.is_same(other) {
        1
    } else {
        unit * range_of(other)
    }
}

/// How much a preference counts: more than all together that stand behind it. One that is not preferred counts 0.
pub(crate) fn unit_of(preference: Preference, order: &[Preference]) -> u64
    requires { none_twice order.now ≡ true }
    ensures { result ≡ spec.unit_of preference order.now }
{
    let mut unit = 0;
    for other in order {
        unit = with_one_more(preference, unit, *other);
    }
    unit
}
