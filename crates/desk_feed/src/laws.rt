//! Laws of the definitions that the contracts cite. Each is the contract of a function that does nothing.
ghost use Rattle.std.specs.Prelude.{◌≡◌, ◌↔◌, Err};
ghost use Rattle.desk_io.specs.declared.shelf.Found.{Found};
ghost use Rattle.gtfs_tables.specs.declared.fault.FeedFault.{FeedFault};
ghost use Rattle.gtfs_tables.specs.declared.paper.Paper.{Paper};
ghost use Rattle.desk_feed.specs.Feed.{said_by};
ghost use Rattle.desk_feed.specs.First.{IsFirst};

/// A feed is refused by a file exactly where that file is refused, and each file before it in the order of judging is accepted.
pub fn first_refusal_law()
    ensures { (found : Paper → Found) (refused : FeedFault) → (said_by found ≡ Err refused) ↔ IsFirst found refused }
{}
