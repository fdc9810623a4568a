//! Laws of the definitions that the contracts cite. Each is the contract of a function that does nothing.
ghost use Rattle.std.specs.Prelude.{◌≡◌, ℕ, List, Ok, Err};
ghost use Rattle.toml.specs.Data.{Members};
ghost use Rattle.desk_settings.specs.Desk.{Ascend, HasBad, NoBadBefore, document_in, desk_from};
ghost use Rattle.desk_settings.specs.declared.desk.DeskTable.{DeskTable};

use gtfs_tables::FeedFault;

/// The keys of `desk.toml` ascend in byte order.
pub fn key_order_law()
    ensures { (bytes : List ℕ) (members : Members) → document_in bytes ≡ Ok members → Ascend members }
{}

/// Where keys ascend, the one that is refused is a bad one, and no bad one comes before it in byte order.
pub fn first_bad_key_law()
    ensures { (desk : DeskTable) (members : Members) (key : List ℕ) → Ascend members
        → desk_from desk members ≡ Err (FeedFault.BadSettings key) → HasBad key members × NoBadBefore key members }
{}
