ghost use Rattle.std.specs.Prelude.{◌≡◌, [], IfOk, Some, None, is_some, unwrap_or, if◌then◌else◌};
ghost use Rattle.std.specs.Option.{ok_or};
ghost use Rattle.gtfs_tables.specs.Reading.{Gives};
ghost use Rattle.toml.specs.View.{view, items_view, table_view};
ghost use Rattle.desk_settings.specs.Desk as spec;

use crate::class::Class;
use crate::date::Date;
use crate::minutes::{Layover, Minutes, Tolerance};
use crate::names::Names;
use crate::prefer::{Preferences, preferences_in};
use desk_io::{Found, Memory, Text};
use gtfs_tables::{Entries, FeedFault, Paper, optional_bytes};
use service_days::read_date;
use std::alloc::Global;
use toml::{Table, Value};
use trip_model::MOST_LAYOVER;

/// The most bytes of what the names of blocks begin with.
pub const MOST_PREFIX: usize = 32;

/// The most bytes of a class of vehicles.
pub const MOST_CLASS: usize = 16;

/// What `desk.toml` says.
pub(crate) struct DeskTable {
    /// The services whose trips are selected; None where all are.
    pub(crate) services: Option<Names>,
    /// The date whose services are selected, if there is one.
    pub(crate) date: Option<Date>,
    /// The classes of routes; vehicles are of none where there is no entry.
    pub(crate) classes: Entries<Class>,
    /// How long a vehicle stays after a trip where `layovers` does not name the place.
    pub(crate) layover: Layover,
    /// How long a vehicle stays at these places.
    pub(crate) layovers: Entries<Layover>,
    /// By how much a trip may be moved before its published times.
    pub(crate) early: Tolerance,
    /// By how much a trip may be moved after its published times.
    pub(crate) late: Tolerance,
    /// What the names of blocks by numbers begin with.
    pub(crate) prefix: Text,
    /// Whether blocks keep the names that the feed states.
    pub(crate) keeps_names: bool,
    /// What is preferred among plans that are equally good.
    pub(crate) prefer: Preferences,
}

impl Drop for DeskTable {
    fn drop(self) {
        let Self {
            services: _,
            date: _,
            classes: _,
            layover: _,
            layovers: _,
            early: _,
            late: _,
            prefix: _,
            keeps_names: _,
            prefer: _,
        } = self;
    }
}

// An integer from 0 to `MOST`.
fn minutes_in<const MOST: u16>(value: &Value) -> Option<Minutes<MOST>>
    ensures { result ≡ spec.minutes_in MOST (view value.now) }
{
    match value.as_integer() {
        Some(minutes) if minutes >= 0 && minutes <= i64::from(MOST) => {
            Some(Minutes::of(minutes as u16))
        }
        _ => None,
    }
}

// A string of at most 32 bytes.
fn prefix_in(alloc: Global, value: &Value) -> Result<Option<Text>, Memory>
    ensures { IfOk result (λ prefix. prefix ≡ spec.prefix_in (view value.now)) }
{
    match value.as_str() {
        Some(text) if text.len() <= MOST_PREFIX => Ok(Some(Text::of(alloc, text)?)),
        _ => Ok(None),
    }
}

// Whether blocks keep the names that the feed states.
fn keeps_names_in(value: &Value) -> Option<bool>
    ensures { result ≡ spec.keeps_names_in (view value.now) }
{
    match value.as_str()? {
        "numbered" => Some(false),
        "stated" => Some(true),
        _ => None,
    }
}

// The strings of a list, each where it first comes; None where an item is no string.
fn names_from(alloc: Global, items: &[Value]) -> Result<Option<Names>, Memory>
    ensures { IfOk result (λ names. names ≡ spec.names_from [] (items_view items.now)) }
{
    let mut names = Names::new(alloc);
    for item in items {
        let Some(name) = item.as_str() else {
            return Ok(None);
        };
        names.add(name)?;
    }
    Ok(Some(names))
}

// A list of strings.
fn names_in(alloc: Global, value: &Value) -> Result<Option<Names>, Memory>
    ensures { IfOk result (λ names. names ≡ spec.names_in (view value.now)) }
{
    match value.as_array() {
        Some(items) => names_from(alloc, items),
        None => Ok(None),
    }
}

// The places of a table with their minutes; None where a value is no integer from 0 to 240.
fn layovers_from(alloc: Global, table: &Table) -> Result<Option<Entries<Layover>>, Memory>
    ensures { IfOk result (λ layovers. layovers ≡ spec.entries_from (spec.minutes_in MOST_LAYOVER) [] (table_view table.now)) }
{
    let mut layovers = Entries::new(alloc);
    for (place, value) in table.iter() {
        let Some(layover) = minutes_in(value) else {
            return Ok(None);
        };
        layovers.push(place.as_str(), layover)?;
    }
    Ok(Some(layovers))
}

// A table from places to minutes.
fn layovers_in(alloc: Global, value: &Value) -> Result<Option<Entries<Layover>>, Memory>
    ensures { IfOk result (λ layovers. layovers ≡ spec.layovers_in (view value.now)) }
{
    match value.as_table() {
        Some(table) => layovers_from(alloc, table),
        None => Ok(None),
    }
}

// Whether a text is a class: 1 to 16 bytes without `/`.
fn is_class(text: &str) -> bool
    ensures { result ≡ spec.is_class text.now }
{
    !text.is_empty() && text.len() <= MOST_CLASS && !text.as_bytes().contains(&b'/')
}

// A class.
fn class_in(alloc: Global, value: &Value) -> Result<Option<Class>, Memory>
    ensures { IfOk result (λ class. class ≡ spec.class_in (view value.now)) }
{
    match value.as_str() {
        Some(text) if is_class(text) => Ok(Some(Class::of(Text::of(alloc, text)?))),
        _ => Ok(None),
    }
}

// The routes of a table with their classes; None where a value is no class.
fn classes_from(alloc: Global, table: &Table) -> Result<Option<Entries<Class>>, Memory>
    ensures { IfOk result (λ classes. classes ≡ spec.entries_from spec.class_in [] (table_view table.now)) }
{
    let mut classes = Entries::new(alloc);
    for (route, value) in table.iter() {
        let Some(class) = class_in(alloc, value)? else {
            return Ok(None);
        };
        classes.push(route.as_str(), class)?;
    }
    Ok(Some(classes))
}

// A table from routes to classes.
fn classes_in(alloc: Global, value: &Value) -> Result<Option<Entries<Class>>, Memory>
    ensures { IfOk result (λ classes. classes ≡ spec.classes_in (view value.now)) }
{
    match value.as_table() {
        Some(table) => classes_from(alloc, table),
        None => Ok(None),
    }
}

// A string of the eight digits of a date.
fn date_in(value: &Value) -> Option<Date>
    ensures { result ≡ spec.date_in (view value.now) }
{
    match value.as_str() {
        Some(text) if text.len() == 8 => Some(Date::of(read_date(text)?)),
        _ => None,
    }
}

// Puts a value in its place, if there is one, and answers whether there is.
fn put<T: Drop>(place: &mut T, value: Option<T>) -> bool
    ensures put { place.new ≡ unwrap_or value place.old }
    ensures is { result ≡ is_some value }
{
    match value {
        Some(value) => {
            *place = value;
            true
        }
        None => false,
    }
}

impl DeskTable {
    // What holds where `desk.toml` does not say otherwise.
    fn standard(alloc: Global) -> Result<DeskTable, Memory>
        ensures { IfOk result (λ desk. desk ≡ spec.standard_desk) }
    {
        let prefix = Text::of(alloc, "B")?;
        Ok(DeskTable {
            services: None,
            date: None,
            classes: Entries::new(alloc),
            layover: Layover::of(0),
            layovers: Entries::new(alloc),
            early: Tolerance::of(0),
            late: Tolerance::of(0),
            prefix,
            keeps_names: false,
            prefer: Preferences::standard(alloc)?,
        })
    }

    // Puts the value of a key in its place. False where the key is unknown or its value of another form.
    #[tactic(auto, unfolding(crate::specs::Desk::with_key))]
    fn put_value(&mut self, alloc: Global, key: &str, value: &Value) -> Result<bool, Memory>
        ensures { IfOk result (λ is_put. (if is_put then Some self.new else None) ≡ spec.with_key self.old key.now (view value.now)) }
    {
        Ok(match key {
            "services" => put(&mut self.services, names_in(alloc, value)?.map(Some)),
            "date" => put(&mut self.date, date_in(value).map(Some)),
            "classes" => put(&mut self.classes, classes_in(alloc, value)?),
            "layover" => put(&mut self.layover, minutes_in(value)),
            "layovers" => put(&mut self.layovers, layovers_in(alloc, value)?),
            "early" => put(&mut self.early, minutes_in(value)),
            "late" => put(&mut self.late, minutes_in(value)),
            "block_prefix" => put(&mut self.prefix, prefix_in(alloc, value)?),
            "block_names" => put(&mut self.keeps_names, keeps_names_in(value)),
            "prefer" => put(&mut self.prefer, preferences_in(alloc, value)?),
            _ => false,
        })
    }

    // Puts the value of a key in its place.
    fn set(&mut self, alloc: Global, key: &str, value: &Value) -> Result<(), FeedFault>
        ensures { Gives (λ _. self.new) result (ok_or (spec.with_key self.old key.now (view value.now)) (FeedFault.BadSettings key.now)) }
    {
        if self.put_value(alloc, key, value)? {
            Ok(())
        } else {
            Err(FeedFault::BadSettings(Text::of(alloc, key)?))
        }
    }

    // Puts the values of all keys in their places, key after key in byte order.
    fn set_all(&mut self, alloc: Global, table: &Table) -> Result<(), FeedFault>
        ensures { Gives (λ _. self.new) result (spec.desk_from self.old (table_view table.now)) }
    {
        for (key, value) in table.iter() {
            self.set(alloc, key.as_str(), value)?;
        }
        Ok(())
    }
}

// The table of a TOML document.
#[tactic(auto, unfolding(crate::specs::Desk::document_in))]
fn document_in(alloc: Global, bytes: &[u8]) -> Result<Table, FeedFault>
    ensures { Gives (λ table. table_view table) result (spec.document_in bytes.now) }
{
    match str::from_utf8(bytes) {
        Ok(text) => match toml::table_from_str(alloc, text) {
            Ok(table) => Ok(table),
            Err(error) if error.is_memory() => Err(FeedFault::Memory),
            Err(_) => Err(FeedFault::NotToml),
        },
        Err(_) => Err(FeedFault::NotToml),
    }
}

// What the table of a document says.
fn desk_from(alloc: Global, table: &Table) -> Result<DeskTable, FeedFault>
    ensures { Gives (λ desk. desk) result (spec.desk_from spec.standard_desk (table_view table.now)) }
{
    let mut desk = DeskTable::standard(alloc)?;
    desk.set_all(alloc, table)?;
    Ok(desk)
}

/// What the file says; the standard where it is not there.
pub(crate) fn desk_of(alloc: Global, found: &Found) -> Result<DeskTable, FeedFault>
    ensures { Gives (λ desk. desk) result (spec.desk_of found.now) }
{
    match optional_bytes(Paper::Settings, found)? {
        Some(bytes) => desk_from(alloc, &document_in(alloc, bytes)?),
        None => Ok(DeskTable::standard(alloc)?),
    }
}
