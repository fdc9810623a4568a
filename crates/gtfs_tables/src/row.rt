ghost use Rattle.std.specs.Prelude.{◌≡◌, ◌<◌, ◌≤◌, [], ◌∷◌, ◌++◌, true, drop, map, All, IfOk, IfSome, IsUtf8, OnOk, length};
ghost use Rattle.std.specs.Prelude.{slice_index_or};
ghost use Rattle.csv.specs.Records.{fields_of};
ghost use Rattle.gtfs_tables.specs.Records.{IsReading, ReadsRow};
ghost use Rattle.gtfs_tables.specs.Rows.{padded};
ghost use Rattle.gtfs_tables.specs.Table.{column_of};

use crate::field_list::Fields;
use crate::parts::push_field;
use crate::records::{Records, next_record};
use crate::spaces::without_spaces;
use csv::ByteRecord;
use desk_io::Memory;
use std::alloc::{AllocError, Global};
use std::marker::Model;

/// One record of a file, seen as the list of its fields, each a list of bytes.
pub struct Row {
    fields: Fields,
    width: usize,
}

impl Drop for Row {
    fn drop(self) {
        let Self {
            fields: _,
            width: _,
        } = self;
    }
}

impl Model for Row {
    ghost use Rattle.std.specs.Prelude.{List, ℕ, ◌≤◌, length};
    ghost use Rattle.gtfs_tables.specs.Rows.{padded};

    ghost Value = { List (List ℕ) };

    ghost view = { λ r. padded r.width r.fields };

    ghost invariant = { λ r. length r.fields ≤ r.width };
}

impl Row {
    /// A record of no fields.
    pub(crate) fn new(alloc: Global) -> Row
        ensures { result ≡ [] }
    {
        Row {
            fields: Fields::new(alloc),
            width: 0,
        }
    }

    /// A copy of the record, with empty fields at its end up to so many.
    pub(crate) fn of(alloc: Global, fields: &Fields, width: usize) -> Result<Row, AllocError>
        requires { length fields.now ≤ width }
        ensures { IfOk result (λ row. row ≡ padded width fields.now) }
    {
        Ok(Row {
            fields: fields.copy(alloc)?,
            width,
        })
    }

    /// Becomes the next record, with empty fields at its end up to so many, and says whether there was one.
    pub(crate) fn read(&mut self, reader: &mut Records<'_>, width: usize) -> Result<bool, Memory>
        requires { IsReading reader.old }
        ensures { IfOk result (λ found. ReadsRow width reader.old found self.new reader.new) }
    {
        let found = next_record(reader, &mut self.fields);
        self.width = self.fields.len().max(width);
        found
    }

    /// The number of fields.
    pub fn len(&self) -> usize
        ensures { result ≡ length self.now }
    {
        self.width
    }

    /// The bytes of a field, none where the record has no such field; the fields count from 0.
    pub fn field(&self, n: usize) -> &[u8]
        ensures { result.now ≡ slice_index_or self.now n [] }
    {
        self.fields.get(n)
    }

    /// Whether all bytes of its fields are ASCII, so that each field is UTF-8. It looks at all of them at once.
    pub fn is_ascii(&self) -> bool
        ensures { result ≡ true → All IsUtf8 self.now }
    {
        self.fields.bytes().is_ascii()
    }

    /// Its fields.
    pub fn fields(&self, alloc: Global) -> Result<Vec<&[u8]>, Memory>
        ensures { IfOk result (λ fields. map (λ field. field.now) fields.items ≡ self.now) }
    {
        let mut fields = Vec::with_capacity(alloc, self.len())?;
        self.fields.push_onto(&mut fields)?;
        for place in self.fields.len()..self.len() {
            push_field(&mut fields, &[])?;
        }
        Ok(fields)
    }

    /// The record as `csv` holds it, where that has all of its fields.
    pub(crate) fn whole(&self) -> Option<&ByteRecord>
        ensures { IfSome result (λ whole. fields_of whole.now ≡ self.now) }
    {
        if self.fields.len() < self.width {
            return None;
        }
        self.fields.held()
    }

    /// The first field that, without spaces at both ends, equals the name; the fields count from 0.
    pub fn place(&self, name: &str) -> Option<usize>
        ensures first { result ≡ column_of name.now self.now }
        ensures within { IfSome result (λ place. place < length self.now) }
    {
        let wanted = name.as_bytes();
        for place in 0..self.len() {
            if without_spaces(self.field(place)) == wanted {
                return Some(place);
            }
        }
        None
    }

    /// The record without its first field.
    pub fn without_first(&self, alloc: Global) -> Result<Row, Memory>
        requires { 0 < length self.now }
        ensures { IfOk result (λ row. row ≡ drop 1 self.now) }
    {
        let own = self.fields(alloc)?;
        let fields = ByteRecord::from_fields(alloc, &own[1..])?;
        Ok(Row {
            fields: Fields::of(alloc, fields),
            width: self.width - 1,
        })
    }
}
