ghost use Rattle.std.specs.Prelude.{◌≡◌, option_map};
ghost use Rattle.desk_program.specs.Status.{status_line_of};

use desk_run::{KEEPER_FAULT, NO_MEMORY, READ_FAULT, WRITE_FAULT};

/// The line on standard error for a status of 5 to 8, without its line end, and None for every other number.
pub fn status_line(status: u8) -> Option<&'static str>
    ensures { option_map (λ line. line.now) result ≡ status_line_of status }
{
    match status {
        READ_FAULT => Some("blockdesk: read fault"),
        WRITE_FAULT => Some("blockdesk: write fault"),
        KEEPER_FAULT => Some("blockdesk: keeper fault"),
        NO_MEMORY => Some("blockdesk: out of memory"),
        _ => None,
    }
}
