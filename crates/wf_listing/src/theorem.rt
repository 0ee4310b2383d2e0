//! A theorem about listings.
ghost use Rattle.std.specs.Prelude.{ℕ, List};
ghost use Rattle.wf_listing.specs.Listing.{HasOneListing};

use wf_journal::records_are_read_one_way;

/// Bytes have at most one listing. A theorem: the call does nothing.
pub fn bytes_have_one_listing()
    ensures { (bytes : List ℕ) → HasOneListing bytes }
{
    // Bytes are read as one list of records at most.
    records_are_read_one_way();
}
