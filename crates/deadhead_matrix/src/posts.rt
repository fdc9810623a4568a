ghost use Rattle.std.specs.Prelude.{◌≡◌, ◌≢◌, ◌<◌, ◌≤◌, true, false, [], ◌∷◌, ◌++◌, length, All, Contains, Err, IfOk, OnOk, OnErr};
ghost use Rattle.gtfs_tables.specs.Reading.{Gives};
ghost use Rattle.trip_model.specs.declared.limits.TheConstants.{MOST_PLACES};
ghost use Rattle.trip_model.specs.Place.{has_slash};
ghost use Rattle.trip_model.specs.Timetable.{place_names};
ghost use Rattle.deadhead_matrix.specs.Deadheads as spec;
ghost use Rattle.deadhead_matrix.specs.Left.{left_places};
ghost use Rattle.deadhead_matrix.specs.Named.{HasGained, IsPlaceOf};
ghost use Rattle.deadhead_matrix.specs.Posts as posts;

use desk_io::{Memory, Text};
use gtfs_tables::{FeedFault, Paper};
use std::alloc::Global;
use trip_model::{MOST_PLACES, Timetable};

// Whether a class is among others.
fn has_class(classes: &[Text], class: &str) -> bool
    ensures { result ≡ posts.has_class classes.now class.now }
{
    classes.iter().any(|other| class == other.as_str())
}

// Appends a class, if it is new.
fn add_class(alloc: Global, classes: &mut Vec<Text>, class: &str) -> Result<(), Memory>
    ensures { OnOk result (classes.new.items ≡ posts.with_class classes.old.items class.now) }
{
    if has_class(classes, class) {
        return Ok(());
    }
    classes.push(Text::of(alloc, class)?)?;
    Ok(())
}

// The classes of posts, each where it first comes.
fn classes_met(alloc: Global, timetable: &Timetable) -> Result<Vec<Text>, Memory>
    requires { timetable.now.classed ≡ true }
    ensures met { IfOk result (λ classes. classes.items ≡ posts.classes_met timetable.now.places) }
    ensures named { IfOk result (λ classes. All (λ class. has_slash class ≡ false) classes.items) }
{
    let mut classes = Vec::new(alloc);
    for place in 0..timetable.places() {
        add_class(alloc, &mut classes, timetable.class_name(place))?;
    }
    Ok(classes)
}

/// The classes of the posts of the timetable, in the order in which they are first met. A terminal has a place for each. Where
/// vehicles are of no classes, there is the empty class alone.
pub(crate) fn classes_of(alloc: Global, timetable: &Timetable) -> Result<Vec<Text>, Memory>
    ensures classes { IfOk result (λ classes. classes.items ≡ posts.classes_of timetable.now) }
    ensures named { IfOk result (λ classes. All (λ class. has_slash class ≡ false) classes.items) }
{
    if timetable.classed() {
        return classes_met(alloc, timetable);
    }
    let mut classes = Vec::new(alloc);
    classes.push(Text::of(alloc, "")?)?;
    Ok(classes)
}

// The name of the place of a terminal for vehicles of a class.
fn place_name(alloc: Global, classed: bool, terminal: &str, class: &str) -> Result<Text, Memory>
    ensures { IfOk result (λ name. name ≡ (posts.place_for classed terminal.now class.now).name) }
{
    if classed {
        Ok(Text::wrap(format!(in alloc; "{terminal}/{class}")?))
    } else {
        Ok(Text::of(alloc, terminal)?)
    }
}

// Appends the place of a terminal for vehicles of a class.
fn push_place(timetable: &mut Timetable, terminal: &str, class: &str) -> Result<u16, Memory>
    requires new { ¬ Contains (place_names timetable.old) (posts.place_for timetable.old.classed terminal.now class.now).name }
    requires room { length timetable.old.places < MOST_PLACES }
    requires named { has_slash class.now ≡ false }
    ensures number { IfOk result (λ place. place ≡ length timetable.old.places) }
    ensures pushed { IfOk result (λ _. timetable.new ≡ record timetable.old {
      places = timetable.old.places ++ posts.place_for timetable.old.classed terminal.now class.now ∷ [];
    }) }
    ensures err { OnErr result (timetable.new ≡ timetable.old) }
{
    if timetable.classed() {
        Ok(timetable.push_post(terminal, class, 0)?)
    } else {
        Ok(timetable.push_place(terminal, 0)?)
    }
}

// The place of a terminal for vehicles of a class, a new one at the end where there is none.
fn place_of(
    alloc: Global,
    timetable: &mut Timetable,
    terminal: &str,
    class: &str,
) -> Result<u16, FeedFault>
    requires { has_slash class.now ≡ false }
    ensures gives { Gives (λ place. (timetable.new, place)) result
        (spec.with_place timetable.old (posts.place_for timetable.old.classed terminal.now class.now)) }
    ensures err { OnErr result (timetable.new ≡ timetable.old) }
    ensures gained { HasGained (λ place. place ≡ posts.place_for timetable.old.classed terminal.now class.now) timetable.old timetable.new }
    ensures within { IfOk result (λ place. place < MOST_PLACES) }
{
    let places = timetable.places();
    let name = place_name(alloc, timetable.classed(), terminal, class)?;
    if let Some(place) = timetable.find_place(name.as_str()) {
        return Ok(place);
    }
    if places >= MOST_PLACES {
        return Err(FeedFault::TooManyPlaces(Paper::Deadheads));
    }
    Ok(push_place(timetable, terminal, class)?)
}

/// The places of a terminal for each class in turn, new ones at the end.
pub(crate) fn places_of(
    alloc: Global,
    timetable: &mut Timetable,
    terminal: &str,
    classes: &[Text],
) -> Result<Vec<u16>, FeedFault>
    requires { All (λ class. has_slash class ≡ false) classes.now }
    ensures gives { Gives (λ places. (timetable.new, places.items)) result (spec.with_places terminal.now timetable.old [] classes.now) }
    ensures left { result ≢ Err FeedFault.Memory → timetable.new ≡ left_places terminal.now timetable.old classes.now }
    ensures gained { HasGained (IsPlaceOf timetable.old.classed classes.now terminal.now) timetable.old timetable.new }
    ensures count { IfOk result (λ places. length places.items ≡ length classes.now) }
    ensures within { IfOk result (λ places. All (λ place. place < MOST_PLACES) places.items) }
{
    let mut places = Vec::new(alloc);
    for class in classes {
        places.push(place_of(alloc, timetable, terminal, class.as_str())?)?;
    }
    Ok(places)
}
