ghost use Rattle.std.specs.Prelude.{◌≡◌, ◌≤◌};
ghost use Rattle.pair_search.specs.Leads as spec;
ghost use Rattle.trip_model.specs.declared.limits.TheConstants.{LAST_MINUTE};

use trip_model::{LAST_MINUTE, Move};

/// Where the vehicle of a row stands, and from which minute on. Seen backward, minutes count back from the last one.
#[derive(Clone, Copy)]
pub(crate) struct Stand {
    pub post: u16,
    pub ready: u16,
}

/// A row from which all columns were looked at: from which minute on it stands at its post, and how far it was with its price.
#[derive(Clone, Copy)]
pub(crate) struct Lead {
    pub ready: u16,
    pub start: u64,
}

/// What stands for the lead of a post before a row there was looked from: no row stands so late.
pub(crate) const UNLED: Lead = Lead {
    ready: u16::MAX,
    start: 0,
};

/// Where the vehicle of a row stands that makes a move.
pub(crate) fn stand_of(turned: bool, made: Move) -> Stand
    requires { made.leaves ≤ LAST_MINUTE }
    ensures { result ≡ spec.stand_of turned made }
{
    if turned {
        Stand {
            post: made.from,
            ready: LAST_MINUTE - made.leaves,
        }
    } else {
        Stand {
            post: made.to,
            ready: made.arrives,
        }
    }
}
