//! How a file of a real folder is read and written: whole, or as it was.
ghost use Rattle.std.specs.Prelude.{◌≡◌, ◌⊎◌, ℕ, List, [], ◌∷◌, ◌++◌, IfOk, OnOk, OnErr, None, Some, Err};
ghost use Rattle.std.specs.Path.{path_join};
ghost use Rattle.desk_io.specs.Shelf.{found_as};
ghost use Rattle.desk_io.specs.System.{Create, Rename, Sync, Write};
ghost use Rattle.desk_io.specs.WholeFiles.{AsksToRead, AsksToWrite, IsMadeBeside, IsReplaced, Spared, beside};
ghost use Rattle.desk_io.specs.declared.system_call.Refusal.{Refusal};
ghost use Rattle.desk_io.specs.declared.system_call.Refusal.TheVariants.{Other};

use crate::system::System;
use crate::system_call::Refusal;
use crate::{Bytes, Found, Memory, Text};
use std::alloc::Global;
use std::path::Path;

// How many names beside a file are tried.
const MOST_BESIDE: u32 = 100;

impl From<Memory> for Refusal {
    ghost use Rattle.desk_io.specs.declared.system_call.Refusal.TheVariants as refusal;

    ghost from_gives = { λ _ why. why ≡ refusal.Memory };

    fn from(_: Memory) -> Refusal {
        Refusal::Memory
    }
}

// The path of a name in a folder.
fn path_in(alloc: Global, folder: &str, name: &str) -> Result<Text, Memory>
    ensures { IfOk result (λ path. path ≡ path_join folder.now name.now) }
{
    let path = Path::new(folder).join(alloc, name)?;
    Text::of(alloc, path.as_str())
}

// What bytes are found as, when at most so many are wanted.
fn found(bytes: Bytes, limit: u64) -> Found
    ensures { result ≡ found_as limit (Some bytes) }
{
    if bytes.as_slice().len() as u64 <= limit {
        Found::File(bytes)
    } else {
        Found::TooLong
    }
}

/// What is found of a file. One that was opened is never missing.
pub(crate) fn read_file<Y: System>(
    system: &mut Y,
    alloc: Global,
    folder: &str,
    name: &str,
    limit: u64,
) -> Result<Found, Refusal>
    ensures { AsksToRead folder.now name.now limit result (Y.trace system.old) (Y.trace system.new) }
{
    let path = path_in(alloc, folder, name)?;
    match system.open(path.as_str()) {
        Ok(file) => Ok(found(system.read(alloc, file, limit.saturating_add(1))?, limit)),
        Err(Refusal::NotThere) => Ok(Found::Missing),
        Err(why) => Err(why),
    }
}

// A file that was made beside another one, and its path.
#[derive(Drop)]
struct Beside<F: Drop> {
    file: F,
    path: Text,
}

// The path of the file beside one of a name that has this number.
fn beside_in(alloc: Global, folder: &str, name: &str, number: u32) -> Result<Text, Memory>
    ensures { IfOk result (λ path. path ≡ path_join folder.now (beside name.now number)) }
{
    let beside = format!(in alloc; ".{name}.{number}")?;
    path_in(alloc, folder, beside.as_str())
}

// Makes a file beside the one of a name, under the first name that nothing has.
fn create_beside<Y: System>(
    system: &mut Y,
    alloc: Global,
    folder: &str,
    name: &str,
) -> Result<Beside<Y::File>, Refusal>
    ensures made { IfOk result (λ made. IsMadeBeside folder.now name.now made.path (Y.trace system.old) (Y.trace system.new)) }
    ensures spared { OnErr result (Spared folder.now name.now (Y.trace system.old) (Y.trace system.new)) }
{
    for tried in 0..MOST_BESIDE {
        let path = beside_in(alloc, folder, name, tried + 1)?;
        match system.create_new(path.as_str()) {
            Ok(file) => return Ok(Beside { file, path }),
            Err(Refusal::Taken) => {}
            Err(why) => return Err(why),
        }
    }
    Err(Refusal::Taken)
}

// Writes a file that was made beside another one whole, puts it on the disk, and renames it over that one.
fn complete<Y: System>(
    system: &mut Y,
    mut file: Y::File,
    from: &str,
    to: &str,
    bytes: &[u8],
) -> Result<(), Refusal>
    ensures done { OnOk result (Y.trace system.new ≡ Y.trace system.old
        ++ Write bytes.now None ∷ Sync None ∷ Rename from.now to.now None ∷ []) }
    ensures spared { OnErr result ((folder name : List ℕ) → Spared folder name (Y.trace system.old) (Y.trace system.new)) }
{
    system.write(&mut file, bytes)?;
    system.sync(file)?;
    system.rename(from, to)
}

// Replaces the file of a name by one that was written beside it.
fn replace<Y: System>(
    system: &mut Y,
    alloc: Global,
    folder: &str,
    name: &str,
    bytes: &[u8],
) -> Result<(), Refusal>
    ensures done { OnOk result (IsReplaced folder.now name.now bytes.now (Y.trace system.old) (Y.trace system.new)) }
    ensures spared { OnErr result (Spared folder.now name.now (Y.trace system.old) (Y.trace system.new)) }
{
    let path = path_in(alloc, folder, name)?;
    let made = create_beside(system, alloc, folder, name)?;
    match complete(system, made.file, made.path.as_str(), path.as_str(), bytes) {
        Ok(()) => Ok(()),
        Err(why) => {
            // Where it cannot be removed, it is in nobody's way.
            let _ = system.remove(made.path.as_str());
            Err(why)
        }
    }
}

// Writes what is no plain file, where it is.
fn write_in_place<Y: System>(system: &mut Y, path: &str, bytes: &[u8]) -> Result<(), Refusal>
    ensures done { OnOk result (Y.trace system.new ≡ Y.trace system.old ++ Create path.now None ∷ Write bytes.now None ∷ []) }
    ensures refused { OnErr result (((why : Refusal) × (Y.trace system.new ≡ Y.trace system.old ++ Create path.now (Some why) ∷ []))
        ⊎ ((why : Refusal) × (result ≡ Err Other)
        × (Y.trace system.new ≡ Y.trace system.old ++ Create path.now None ∷ Write bytes.now (Some why) ∷ []))) }
{
    let mut file = system.create(path)?;
    match system.write(&mut file, bytes) {
        Ok(()) => Ok(()),
        Err(_) => Err(Refusal::Other),
    }
}

/// Writes a file: one beside it that is renamed over it, or what is no plain file where it is. Lack of memory leaves it as it was.
pub(crate) fn write_file<Y: System>(
    system: &mut Y,
    alloc: Global,
    folder: &str,
    name: &str,
    bytes: &[u8],
) -> Result<(), Refusal>
    ensures { AsksToWrite folder.now name.now bytes.now result (Y.trace system.old) (Y.trace system.new) }
{
    let path = path_in(alloc, folder, name)?;
    match system.look(path.as_str()) {
        Ok(true) | Err(Refusal::NotThere) => replace(system, alloc, folder, name, bytes),
        Ok(false) => write_in_place(system, path.as_str(), bytes),
        Err(why) => Err(why),
    }
}
