ghost use Rattle.std.specs.Prelude.{◌≡◌, ℕ, ◌≤◌, ◌&&◌, false, List, Ok, IfOk, IfSome, OnOk, OnErr};
ghost use Rattle.service_days.specs.Dates.{IsDateNumber};
ghost use Rattle.trip_model.specs.Place.{has_slash};
ghost use Rattle.trip_model.specs.declared.limits.TheConstants.{MOST_LAYOVER, MOST_TOLERANCE};
ghost use Rattle.gtfs_tables.specs.Papers.{IsWithinLimit};
ghost use Rattle.gtfs_tables.specs.Reading.{Gives};
ghost use Rattle.toml.specs.Data.{Members};
ghost use Rattle.desk_settings.specs.declared.desk.DeskTable.{DeskTable};
ghost use Rattle.desk_settings.specs.Desk.{Ascend, document_in};
ghost use Rattle.desk_settings.specs.Names.{is_among};
ghost use Rattle.desk_settings.specs.Settings as spec;

use crate::desk::{DeskTable, desk_of};
use crate::laws::key_order_law;
use crate::minutes::Tolerance;
use crate::names::Names;
use crate::prefer::Preferences;
use crate::terminals::terminals_of;
use crate::tolerances::tolerances_of;
use desk_io::{Found, Memory, Text};
use gtfs_tables::{Entries, FeedFault};
use std::alloc::Global;
use std::marker::Model;

/// The settings of a desk, seen as a record:
///
/// - the services that are selected, each once, or None where all are
/// - the date whose services are to be selected, if there is one
/// - the classes of routes
/// - the minutes of layover, with a list of places that have their own
/// - the minutes of tolerance, early and late
/// - the prefix of block names, and whether blocks keep the names that the feed states
/// - what is preferred among plans that are equally good, in the order of importance
/// - the list of stops with their terminals, and that of trips with their tolerances
///
/// Entries for places, stops and trips that no feed names are kept.
pub struct Settings {
    desk: DeskTable,
    terminals: Entries<Text>,
    tolerances: Entries<(Tolerance, Tolerance)>,
}

impl Drop for Settings {
    fn drop(self) {
        let Self {
            desk: _,
            terminals: _,
            tolerances: _,
        } = self;
    }
}

impl Model for Settings {
    ghost use Rattle.desk_settings.specs.Settings.{SettingsView, settings_with};

    ghost Value = { SettingsView };

    ghost view = { λ s. settings_with s.desk s.terminals s.tolerances };
}

// Of the services that are selected those that run: all that run, each once, or those of a list.
fn kept_services(alloc: Global, services: &Option<Names>, running: &[Text]) -> Result<Names, Memory>
    ensures { IfOk result (λ kept. kept ≡ spec.kept_services services.now running.now) }
{
    let among = Names::of(alloc, running)?;
    match services {
        None => Ok(among),
        Some(services) => services.kept(alloc, &among),
    }
}

// The terminals of stops and the tolerances of trips.
fn tables_of(
    alloc: Global,
    terminals: &Found,
    tolerances: &Found,
) -> Result<(Entries<Text>, Entries<(Tolerance, Tolerance)>), FeedFault>
    requires terminals { IsWithinLimit terminals.now }
    requires tolerances { IsWithinLimit tolerances.now }
    ensures { (desk : DeskTable) → Gives (λ tables. spec.settings_with desk tables.0 tables.1) result
        (spec.with_tables terminals.now tolerances.now desk) }
{
    let terminals = terminals_of(alloc, terminals)?;
    let tolerances = tolerances_of(alloc, tolerances)?;
    Ok((terminals, tolerances))
}

impl Settings {
    /// The settings of the files, of at most [`gtfs_tables::MOST_BYTES`] bytes each, or the first refusal: of `desk.toml`,
    /// then of `terminals.csv`, then of `tolerances.csv`. A file that is not there has no entries.
    #[tactic(auto, unfolding(crate::specs::Settings::settings_of))]
    pub fn read(
        alloc: Global,
        settings: &Found,
        terminals: &Found,
        tolerances: &Found,
    ) -> Result<Settings, FeedFault>
        requires settings { IsWithinLimit settings.now }
        requires terminals { IsWithinLimit terminals.now }
        requires tolerances { IsWithinLimit tolerances.now }
        ensures gives { Gives (λ read. read) result (spec.settings_of settings.now terminals.now tolerances.now) }
        // The keys of the document are judged in byte order.
        ensures order { (bytes : List ℕ) (members : Members) → settings.now ≡ Found.File bytes → document_in bytes ≡ Ok members
            → Ascend members }
    {
        key_order_law();
        let desk = desk_of(alloc, settings)?;
        let (terminals, tolerances) = tables_of(alloc, terminals, tolerances)?;
        Ok(Settings {
            desk,
            terminals,
            tolerances,
        })
    }

    /// Whether the trips of a service are selected. Those of all services are where `desk.toml` has no key `services`. None are
    /// where its list is empty.
    pub fn chosen(&self, service: &str) -> bool
        ensures { result ≡ spec.is_chosen self.now service.now }
    {
        match &self.desk.services {
            None => true,
            Some(services) => services.has(service),
        }
    }

    /// The date whose services are to be selected, as the number YYYYMMDD. None where `desk.toml` has no date.
    pub fn date(&self) -> Option<u32>
        ensures value { result ≡ self.now.date }
        ensures valid { IfSome result IsDateNumber }
    {
        let date = self.desk.date.as_ref()?;
        Some(date.number())
    }

    /// Selects of the services that are chosen those alone that are among these.
    pub fn keep_services(&mut self, services: &[Text]) -> Result<(), Memory>
        ensures kept { OnOk result (self.new ≡ spec.with_services_kept self.old services.now) }
        ensures err { OnErr result (self.new ≡ self.old) }
        ensures chosen { OnOk result ((service : List ℕ)
            → spec.is_chosen self.new service ≡ (spec.is_chosen self.old service && is_among service services.now)) }
    {
        let alloc = self.desk.classes.allocator();
        self.desk.services = Some(kept_services(alloc, &self.desk.services, services)?);
        Ok(())
    }

    /// What is preferred among plans that are equally good, in the order of importance.
    pub fn prefer(&self) -> &Preferences
        ensures { result.now ≡ self.now.prefer }
    {
        &self.desk.prefer
    }

    /// Whether vehicles are of classes, as they are where `desk.toml` has a class for a route.
    pub fn classed(&self) -> bool
        ensures { result ≡ spec.is_classed self.now }
    {
        self.desk.classes.len() != 0
    }

    /// The class of the vehicles of a route: the empty one where the route is empty or `desk.toml` has no class for it.
    pub fn class(&self, route: &str) -> &str
        ensures value { result.now ≡ spec.class_of self.now route.now }
        ensures valid { has_slash result.now ≡ false }
    {
        if route.is_empty() {
            return "";
        }
        match self.desk.classes.find(route) {
            Some(class) => class.name(),
            None => "",
        }
    }

    /// The minutes that a vehicle stays at a place after a trip that ends there: those of `layovers`, or else `layover`.
    pub fn layover(&self, place: &str) -> u16
        ensures value { result ≡ spec.layover_at self.now place.now }
        ensures valid { result ≤ MOST_LAYOVER }
    {
        match self.desk.layovers.find(place) {
            Some(layover) => layover.minutes(),
            None => self.desk.layover.minutes(),
        }
    }

    /// By how many minutes a trip without tolerances of its own may be moved before its published times.
    pub fn early(&self) -> u8
        ensures value { result ≡ self.now.early }
        ensures valid { result ≤ MOST_TOLERANCE }
    {
        self.desk.early.minutes() as u8
    }

    /// By how many minutes a trip without tolerances of its own may be moved after its published times.
    pub fn late(&self) -> u8
        ensures value { result ≡ self.now.late }
        ensures valid { result ≤ MOST_TOLERANCE }
    {
        self.desk.late.minutes() as u8
    }

    /// Whether blocks keep the names that the feed states.
    pub fn keeps_names(&self) -> bool
        ensures { result ≡ self.now.keeps_names }
    {
        self.desk.keeps_names
    }

    /// What the names of blocks by numbers begin with.
    pub fn prefix(&self) -> &str
        ensures { result.now ≡ self.now.prefix }
    {
        self.desk.prefix.as_str()
    }

    /// The terminal that `terminals.csv` names for a stop, or else the stop.
    pub fn terminal<'a>(&'a self, stop: &'a str) -> &'a str
        ensures { result.now ≡ spec.terminal_of self.now stop.now }
    {
        match self.terminals.find(stop) {
            Some(terminal) => terminal.as_str(),
            None => stop,
        }
    }

    /// By how many minutes a trip may be moved before and after its published times: as `tolerances.csv` says, or
    /// else `early` and `late`.
    pub fn tolerance(&self, trip: &str) -> (u8, u8)
        ensures value { result ≡ spec.tolerance_of self.now trip.now }
        ensures early { result.0 ≤ MOST_TOLERANCE }
        ensures late { result.1 ≤ MOST_TOLERANCE }
    {
        match self.tolerances.find(trip) {
            Some((early, late)) => (early.minutes() as u8, late.minutes() as u8),
            None => (self.early(), self.late()),
        }
    }
}
