/// Why the system did not do what it was asked.
#[derive(Clone, Copy)]
pub enum Refusal {
    /// There is no such file.
    NotThere,
    /// There is a file of this name.
    Taken,
    /// No memory was found.
    Memory,
    /// Any other reason.
    Other,
}

/// What the system was asked of files and of standard output, and what it answered, as it is lent to the note of it. Each ends
/// with why it was refused, or None where it was done.
#[derive(Clone, Copy)]
pub enum SystemCall<'a> {
    /// To open the file at this path for reading.
    Open(&'a str, Option<Refusal>),
    /// To read the file that was opened last, at most so many bytes; these are what was read.
    Read(u64, &'a [u8], Option<Refusal>),
    /// Whether a plain file that may be written is at this path, and no link.
    Look(&'a str, bool, Option<Refusal>),
    /// To open the file at this path for writing: it is emptied, or made where there is none.
    Create(&'a str, Option<Refusal>),
    /// To make a file at this path, where nothing has that name, and to open it for writing.
    CreateNew(&'a str, Option<Refusal>),
    /// To write these bytes to the file that was opened last.
    Write(&'a [u8], Option<Refusal>),
    /// To put all that was written of that file on the disk.
    Sync(Option<Refusal>),
    /// To give the file at the first path the second one, in the place of the file that is there.
    Rename(&'a str, &'a str, Option<Refusal>),
    /// To remove the file at this path.
    Remove(&'a str, Option<Refusal>),
    /// To print the first of these bytes; so many were taken.
    Print(&'a [u8], usize, Option<Refusal>),
}
