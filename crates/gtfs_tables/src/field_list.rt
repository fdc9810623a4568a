ghost use Rattle.std.specs.Prelude.{◌≡◌, ◌++◌, [], All, IfOk, IfSome, IsUtf8, OnOk, length, map, slice_index_or};
ghost use Rattle.std.specs.Str.{IsAscii};
ghost use Rattle.csv.specs.Records.{fields_of};
ghost use Rattle.gtfs_tables.specs.Parts.{parts};
ghost use Rattle.gtfs_tables.specs.Records.{IsReader, ReadsQuoted};

use crate::parts::{count_parts, part, push_field, push_parts};
use csv::{ByteRecord, ErrorKind, Reader};
use desk_io::Memory;
use std::alloc::{AllocError, Global};
use std::marker::Model;

// Reads the next record of `csv`, and says whether there was one. A slice refuses no read, records of any lengths are taken,
// and no field has to be text: so what can fail is memory.
fn read_held(reader: &mut Reader<&[u8]>, held: &mut ByteRecord) -> Result<bool, Memory>
    requires { IsReader reader.old }
    ensures { IfOk result (λ found. ReadsQuoted reader.old found (fields_of held.new) reader.new) }
{
    match reader.read_byte_record(held) {
        Ok(found) => Ok(found),
        Err(error) => match error.kind() {
            ErrorKind::Io(_) | ErrorKind::OutOfMemory => Err(Memory),
            _ => unreachable!(),
        },
    }
}

/// The fields of a record: the parts of a line between its commas, or those that `csv` holds.
pub(crate) struct Fields {
    is_line: bool,
    line: Vec<u8>,
    held: ByteRecord,
}

impl Drop for Fields {
    fn drop(self) {
        let Self {
            is_line: _,
            line: _,
            held: _,
        } = self;
    }
}

impl Model for Fields {
    ghost use Rattle.std.specs.Prelude.{List, ℕ};
    ghost use Rattle.gtfs_tables.specs.Parts.{fields_in};

    ghost Value = { List (List ℕ) };

    ghost view = { λ f. fields_in f.is_line f.line.items f.held };
}

impl Fields {
    /// No fields.
    pub(crate) fn new(alloc: Global) -> Fields
        ensures { result ≡ [] }
    {
        Fields::of(alloc, ByteRecord::new(alloc))
    }

    /// Those that `csv` holds.
    pub(crate) fn of(alloc: Global, held: ByteRecord) -> Fields
        ensures { result ≡ fields_of held }
    {
        Fields {
            is_line: false,
            line: Vec::new(alloc),
            held,
        }
    }

    /// The same fields once more.
    pub(crate) fn copy(&self, alloc: Global) -> Result<Fields, AllocError>
        ensures { IfOk result (λ fields. fields ≡ self.now) }
    {
        let mut line = Vec::new(alloc);
        line.extend_from_slice(&self.line)?;
        Ok(Fields {
            is_line: self.is_line,
            line,
            held: self.held.clone()?,
        })
    }

    /// Becomes the parts of a line.
    pub(crate) fn part_line(&mut self, line: &[u8]) -> Result<(), Memory>
        ensures { OnOk result (self.new ≡ parts line.now) }
    {
        self.is_line = true;
        self.line.clear();
        self.line.extend_from_slice(line)?;
        Ok(())
    }

    /// Becomes the next record of `csv`, and says whether there was one.
    pub(crate) fn read_quoted(&mut self, reader: &mut Reader<&[u8]>) -> Result<bool, Memory>
        requires { IsReader reader.old }
        ensures { IfOk result (λ found. ReadsQuoted reader.old found self.new reader.new) }
    {
        self.is_line = false;
        read_held(reader, &mut self.held)
    }

    /// How many there are.
    pub(crate) fn len(&self) -> usize
        ensures { result ≡ length self.now }
    {
        if self.is_line {
            count_parts(&self.line)
        } else {
            self.held.len()
        }
    }

    /// The bytes of a field, none where there is no such field; the fields count from 0.
    pub(crate) fn get(&self, place: usize) -> &[u8]
        ensures { result.now ≡ slice_index_or self.now place [] }
    {
        if self.is_line {
            return part(&self.line, place);
        }
        match self.held.get(place) {
            Some(field) => field,
            None => &[],
        }
    }

    /// Appends the fields to others.
    pub(crate) fn push_onto<'a>(&'a self, fields: &mut Vec<&'a [u8]>) -> Result<(), Memory>
        ensures { OnOk result (map (λ field. field.now) fields.new.items ≡ map (λ field. field.now) fields.old.items ++ self.now) }
    {
        if self.is_line {
            return push_parts(fields, &self.line);
        }
        for place in 0..self.len() {
            push_field(fields, self.get(place))?;
        }
        Ok(())
    }

    /// All bytes of the fields.
    pub(crate) fn bytes(&self) -> &[u8]
        ensures { IsAscii result.now → All IsUtf8 self.now }
    {
        if self.is_line {
            &self.line
        } else {
            self.held.as_slice()
        }
    }

    /// The record of `csv`, where that holds them.
    pub(crate) fn held(&self) -> Option<&ByteRecord>
        ensures { IfSome result (λ held. fields_of held.now ≡ self.now) }
    {
        if self.is_line { None } else { Some(&self.held) }
    }
}
