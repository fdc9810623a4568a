use crate::{Found, ShelfFault, Text};

/// What a load of the journal answered, as it is lent to the note of it.
#[derive(Clone, Copy)]
pub enum LoadAnswer<'a> {
    /// These lines, which are the whole journal.
    Lines(&'a [Text]),
    /// The journal has more lines than were asked for at most.
    TooLong,
    /// The load was refused.
    Refused,
}

/// What a shelf, a sink or a keeper is asked, and of a read or a load what it answered, as it is lent to the note of it.
#[derive(Clone, Copy)]
pub enum Request<'a> {
    /// To read the file of this name, which was answered so.
    Read(&'a str, &'a Result<Found, ShelfFault>),
    /// To write these bytes as the file of this name.
    Write(&'a str, &'a [u8]),
    /// To put this piece.
    Put(&'a [u8]),
    /// To load the journal, which was answered so.
    Load(LoadAnswer<'a>),
    /// To append these lines to the journal.
    Append(&'a [Text]),
}
