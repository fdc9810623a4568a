ghost use Rattle.std.specs.Prelude.{◌≡◌, length, IfOk};
ghost use Rattle.desk_settings.specs.Selected as spec;

use crate::settings::Settings;
use desk_io::Memory;
use gtfs_tables::{Column, Row, Table, place_of};
use std::alloc::Global;

// Whether a service is text and is chosen.
#[tactic(auto, using(crate::proofs::SelectedLemmas::chosen_text, crate::proofs::SelectedLemmas::chosen_bad))]
fn is_text_chosen(settings: &Settings, service: &[u8]) -> bool
    ensures { result ≡ spec.is_text_chosen settings.now service.now }
{
    match str::from_utf8(service) {
        Ok(text) => settings.chosen(text),
        Err(_) => false,
    }
}

// Whether a record is selected, by its service in the column of that number.
fn is_selected(settings: &Settings, place: usize, row: &Row) -> bool
    ensures { result ≡ spec.is_selected settings.now place row.now }
{
    is_text_chosen(settings, row.field(place))
}

/// Which records of `trips.txt` are selected, by the services that they name; one whose service is not UTF-8 is not.
pub fn chosen_in(alloc: Global, settings: &Settings, trips: &Table) -> Result<Vec<bool>, Memory>
    ensures chosen { IfOk result (λ chosen. chosen.items ≡ spec.chosen_in settings.now trips.now) }
    ensures count { IfOk result (λ chosen. length chosen.items ≡ length trips.now.rows) }
{
    let place = place_of(Column::ServiceId, trips.header());
    let mut chosen = Vec::new(alloc);
    for before in 0..trips.records() {
        chosen.push(is_selected(settings, place, trips.row(before + 1)))?;
    }
    Ok(chosen)
}
