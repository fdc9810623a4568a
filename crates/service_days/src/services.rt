ghost use Rattle.std.specs.Prelude.{◌≡◌, IfOk, OnOk};
ghost use Rattle.gtfs_tables.specs.Papers.{IsWithinLimit};
ghost use Rattle.gtfs_tables.specs.Reading.{Gives};
ghost use Rattle.service_days.specs.Dates.{IsDateNumber};
ghost use Rattle.service_days.specs.Services as spec;

use crate::calendar::Calendar;
use crate::calendar_dates::{CalendarDates, Exception};
use desk_io::{Found, Memory, Text};
use gtfs_tables::{FeedFault, Paper};
use std::alloc::Global;
use std::collections::BTreeSet;
use std::marker::Model;

// Whether there is no such file.
fn is_missing(found: &Found) -> bool
    ensures { result ≡ spec.is_missing found.now }
{
    matches!(found, Found::Missing)
}

// The names of a set, in byte order.
fn names_of(alloc: Global, set: BTreeSet<Text>) -> Result<Vec<Text>, Memory>
    ensures { IfOk result (λ names. names.items ≡ set.keys) }
{
    Ok(set.into_iter().collect(alloc)?)
}

// The services of the two files.
struct Services {
    calendar: Calendar,
    dates: CalendarDates,
}

impl Drop for Services {
    fn drop(self) {
        let Self {
            calendar: _,
            dates: _,
        } = self;
    }
}

impl Model for Services {
    ghost use Rattle.service_days.specs.Services.{ServicesView};

    ghost Value = { ServicesView };

    ghost view = { λ s. record { schedules = s.calendar; exceptions = s.dates } };
}

impl Services {
    // What the files say.
    #[tactic(auto, unfolding(crate::specs::Services::services_of))]
    fn read(alloc: Global, calendar: &Found, dates: &Found) -> Result<Services, FeedFault>
        requires calendar { IsWithinLimit calendar.now }
        requires dates { IsWithinLimit dates.now }
        ensures { Gives (λ services. services) result (spec.services_of calendar.now dates.now) }
    {
        if is_missing(calendar) && is_missing(dates) {
            return Err(FeedFault::Missing(Paper::Calendar));
        }
        let calendar = Calendar::read(alloc, calendar)?;
        let dates = CalendarDates::read(alloc, dates)?;
        Ok(Services { calendar, dates })
    }

    // Whether a service runs on a date.
    fn is_running(&self, date: u32, service: &str) -> Result<bool, Memory>
        requires { IsDateNumber date }
        ensures { IfOk result (λ runs. runs ≡ spec.is_running self.now date service.now) }
    {
        Ok(match self.dates.find(service, date)? {
            Some(Exception::Added) => true,
            Some(Exception::Removed) => false,
            None => match self.calendar.find(service) {
                Some(schedule) => schedule.covers(date),
                None => false,
            },
        })
    }

    // Adds a service where it runs on the date.
    fn add_running(
        &self,
        alloc: Global,
        date: u32,
        service: &str,
        names: &mut BTreeSet<Text>,
    ) -> Result<(), Memory>
        requires { IsDateNumber date }
        ensures { OnOk result (names.new.keys ≡ spec.with_running self.now date names.old.keys service.now) }
    {
        if self.is_running(date, service)? {
            names.insert(Text::of(alloc, service)?)?;
        }
        Ok(())
    }

    // Adds the services that have a schedule and run on the date.
    fn add_scheduled(
        &self,
        alloc: Global,
        date: u32,
        names: &mut BTreeSet<Text>,
    ) -> Result<(), Memory>
        requires { IsDateNumber date }
        ensures { OnOk result (names.new.keys ≡ spec.scheduled_on self.now date names.old.keys) }
    {
        for number in 0..self.calendar.len() {
            self.add_running(alloc, date, self.calendar.service(number), names)?;
        }
        Ok(())
    }

    // Adds the services that have an exception on the date and run on it.
    fn add_excepted(
        &self,
        alloc: Global,
        date: u32,
        names: &mut BTreeSet<Text>,
    ) -> Result<(), Memory>
        requires { IsDateNumber date }
        ensures { OnOk result (names.new.keys ≡ spec.excepted_on self.now date names.old.keys) }
    {
        for number in 0..self.dates.len() {
            let (service, on) = self.dates.service_date(number);
            if on == date {
                self.add_running(alloc, date, service, names)?;
            }
        }
        Ok(())
    }

    // The services that run on the date, in byte order.
    fn running(&self, alloc: Global, date: u32) -> Result<Vec<Text>, Memory>
        requires { IsDateNumber date }
        ensures { IfOk result (λ names. names.items ≡ spec.services_on self.now date) }
    {
        let mut names = BTreeSet::new(alloc);
        self.add_scheduled(alloc, date, &mut names)?;
        self.add_excepted(alloc, date, &mut names)?;
        names_of(alloc, names)
    }
}

/// The services that run on a date, which is an answer of [`crate::read_date`]. The answer is exactly these, each once, in byte
/// order; or the first refusal, of `calendar.txt` and then of `calendar_dates.txt`. A file that is not there has no records,
/// but where neither is there `calendar.txt` is missing.
pub fn running(
    alloc: Global,
    date: u32,
    calendar: &Found,
    dates: &Found,
) -> Result<Vec<Text>, FeedFault>
    requires date { IsDateNumber date }
    requires calendar { IsWithinLimit calendar.now }
    requires dates { IsWithinLimit dates.now }
    ensures gives { Gives (λ names. names.items) result (spec.services_running date calendar.now dates.now) }
    ensures exact { IfOk result (λ names. spec.AreServicesOn date calendar.now dates.now names.items) }
{
    let services = Services::read(alloc, calendar, dates)?;
    Ok(services.running(alloc, date)?)
}
