ghost use Rattle.std.specs.Prelude.{◌≡◌, [], None};

use crate::Ending;
use desk_io::{Bytes, Memory, Text};
use desk_keeper::Lines;
use std::alloc::Global;
use std::borrow::Cow;
use std::marker::Model;

/// The bytes of a file: those that were made for it, or those of a paper that was read, which are lent and not copied.
pub struct Content<'a> {
    bytes: Cow<'a, Bytes>,
}

impl<'a> Drop for Content<'a> {
    fn drop(self) {
        let Self { bytes: _ } = self;
    }
}

impl<'a> Model for Content<'a> {
    ghost use Rattle.std.specs.Prelude.{List, ℕ};
    ghost use Rattle.std.specs.Cow.{cow_value};

    ghost Value = { List ℕ };

    ghost view = { λ c. cow_value c.bytes };
}

impl<'a> Content<'a> {
    ghost use Rattle.std.specs.Cow.{cow_value};

    /// These bytes.
    pub fn of(bytes: Cow<'a, Bytes>) -> Content<'a>
        ensures { result ≡ cow_value bytes.entry }
    {
        Content { bytes }
    }

    /// The bytes, wherever they are.
    pub fn as_slice(&self) -> &[u8]
        ensures { result.now ≡ self.now }
    {
        self.bytes.as_ref().as_slice()
    }
}

/// A file that a run writes.
#[derive(Drop)]
pub struct Writing<'a> {
    pub name: Text,
    pub bytes: Content<'a>,
}

impl<'a> Writing<'a> {
    ghost use Rattle.std.specs.Prelude.{IfOk};

    /// The file of that name with these bytes.
    pub fn holding(alloc: Global, name: &str, bytes: Content<'a>) -> Result<Writing<'a>, Memory>
        ensures { IfOk result (λ writing. writing ≡ record { name = name.now; bytes = bytes.entry }) }
    {
        let name = Text::of(alloc, name)?;
        Ok(Writing { name, bytes })
    }

    /// The file of that name with a text, which is taken over.
    pub fn of(alloc: Global, name: &str, text: Text) -> Result<Writing<'a>, Memory>
        ensures { IfOk result (λ writing. writing ≡ record { name = name.now; bytes = text }) }
    {
        Writing::holding(alloc, name, Content::of(Cow::Owned(text.into_bytes())))
    }
}

/// What a run that comes to its end does. It writes files in their order, appends lines to the journal if there are any, puts a
/// text, and ends with a status.
pub struct Outcome<'a> {
    pub(crate) writes: Vec<Writing<'a>>,
    pub(crate) lines: Option<Lines>,
    pub(crate) text: Text,
    pub(crate) ending: Ending,
}

impl<'a> Drop for Outcome<'a> {
    fn drop(self) {
        let Self {
            writes: _,
            lines: _,
            text: _,
            ending: _,
        } = self;
    }
}

impl<'a> Model for Outcome<'a> {
    ghost use Rattle.desk_run.specs.Outcome.{OutcomeView};

    ghost Value = { OutcomeView };

    ghost view = { λ o. record { writes = o.writes.items; lines = o.lines; text = o.text; ending = o.ending } };
}

impl<'a> Outcome<'a> {
    ghost use Rattle.desk_run.specs.Outcome.{putting};

    /// The outcome of these parts.
    pub fn of(
        writes: Vec<Writing<'a>>,
        lines: Option<Lines>,
        text: Text,
        ending: Ending,
    ) -> Outcome<'a>
        ensures { result ≡ record { writes = writes.entry.items; lines = lines; text = text; ending = ending } }
    {
        Outcome {
            writes,
            lines,
            text,
            ending,
        }
    }

    /// The same outcome, which lends nothing, since it writes no file.
    pub fn lending_nothing(self) -> Outcome<'static>
        requires { self.writes ≡ [] }
        ensures { result ≡ self.entry }
    {
        let alloc = *self.writes.allocator();
        let Self {
            writes: _,
            lines,
            text,
            ending,
        } = self;
        Outcome::of(Vec::new(alloc), lines, text, ending)
    }

    /// A text alone.
    pub fn putting(alloc: Global, text: Text, ending: Ending) -> Outcome<'a>
        ensures { result ≡ putting text ending }
    {
        Outcome::of(Vec::new(alloc), None, text, ending)
    }
}
