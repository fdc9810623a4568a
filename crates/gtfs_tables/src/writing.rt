ghost use Rattle.std.specs.Prelude.{◌≡◌, ◌≢◌, [], ◌++◌, IfOk, IsUtf8, OnOk, OnErr, map};
ghost use Rattle.csv.specs.Records.{fields_of};
ghost use Rattle.gtfs_tables.specs.Writing.{lost, record_text};

use crate::Row;
use csv::{ByteRecord, Writer, WriterBuilder};
use desk_io::{Bytes, Memory, Text};
use std::alloc::Global;
use std::marker::Model;

/// Comma-separated text to which records are appended, a line feed at the end of each; seen as the bytes so far. Want of
/// memory for a record loses them all: it is then seen as `lost`, takes no other record, and gives no bytes.
pub struct RecordWriter {
    writer: Writer<Vec<u8>>,
    failed: bool,
}

impl Drop for RecordWriter {
    fn drop(self) {
        let Self {
            writer: _,
            failed: _,
        } = self;
    }
}

impl Model for RecordWriter {
    ghost use Rattle.std.specs.Prelude.{◌≡◌, List, ℕ, [], Some, unwrap_or, false, if◌then◌else◌};
    ghost use Rattle.csv.specs.Writing.{fields_written, has_written, text_written, writer_setup};
    ghost use Rattle.gtfs_tables.specs.Writing.{lost, record_writer, AreWhole};

    ghost Value = { List ℕ };

    ghost view = { λ w. if w.failed then lost else unwrap_or (text_written (λ bytes. Some bytes.items) w.writer) [] };

    ghost invariant = { λ w. w.failed ≡ false
        → (writer_setup w.writer ≡ record_writer) × (fields_written w.writer ≡ 0) × (has_written w.writer ≡ false)
        × AreWhole (unwrap_or (text_written (λ bytes. Some bytes.items) w.writer) []) };
}

impl RecordWriter {
    /// No records.
    pub fn new(alloc: Global) -> RecordWriter
        ensures { result ≡ [] }
    {
        RecordWriter {
            writer: WriterBuilder::new()
                .flexible(true)
                .from_writer(Vec::new(alloc)),
            failed: false,
        }
    }

    /// Appends a record of these fields, in quotes where they need them.
    pub fn push(&mut self, fields: &[&[u8]]) -> Result<(), Memory>
        ensures pushed { OnOk result (self.new ≡ self.old ++ record_text (map (λ field. field.now) fields.now)) }
        ensures err { OnErr result (self.new ≡ lost) }
        ensures held { OnOk result (self.old ≢ lost) }
    {
        if self.failed {
            return Err(Memory);
        }
        self.failed = true;
        if self.writer.write_fields(fields).is_err() {
            return Err(Memory);
        }
        self.failed = false;
        Ok(())
    }

    // Appends a record that `csv` holds.
    fn push_whole(&mut self, whole: &ByteRecord) -> Result<(), Memory>
        ensures pushed { OnOk result (self.new ≡ self.old ++ record_text (fields_of whole.now)) }
        ensures err { OnErr result (self.new ≡ lost) }
        ensures held { OnOk result (self.old ≢ lost) }
    {
        if self.failed {
            return Err(Memory);
        }
        self.failed = true;
        if self.writer.write_byte_record(whole).is_err() {
            return Err(Memory);
        }
        self.failed = false;
        Ok(())
    }

    /// Appends a record that was read, in quotes where its fields need them. Its fields are not gathered, unless some are missing
    /// at its end.
    pub fn push_row(&mut self, alloc: Global, row: &Row) -> Result<(), Memory>
        ensures pushed { OnOk result (self.new ≡ self.old ++ record_text row.now) }
        ensures err { OnErr result (self.new ≡ lost) }
        ensures held { OnOk result (self.old ≢ lost) }
    {
        if let Some(whole) = row.whole() {
            return self.push_whole(whole);
        }
        match row.fields(alloc) {
            Ok(fields) => self.push(&fields),
            Err(_) => {
                self.failed = true;
                Err(Memory)
            }
        }
    }

    /// The bytes of the records.
    pub fn into_bytes(self) -> Result<Bytes, Memory>
        ensures bytes { IfOk result (λ bytes. bytes ≡ self) }
        ensures held { OnOk result (self ≢ lost) }
    {
        let RecordWriter { writer, failed } = self;
        if failed {
            return Err(Memory);
        }
        match writer.into_inner() {
            Ok(bytes) => Ok(Bytes::wrap(bytes)),
            Err(_) => Err(Memory),
        }
    }

    /// The text of the records, whose fields were all text.
    pub fn into_text(self) -> Result<Text, Memory>
        requires { IsUtf8 self }
        ensures text { IfOk result (λ text. text ≡ self) }
        ensures held { OnOk result (self ≢ lost) }
    {
        let RecordWriter { writer, failed } = self;
        if failed {
            return Err(Memory);
        }
        match writer.into_inner() {
            Ok(bytes) => match String::from_utf8(bytes) {
                Ok(text) => Ok(Text::wrap(text)),
                Err(_) => unreachable!(),
            },
            Err(_) => Err(Memory),
        }
    }
}
