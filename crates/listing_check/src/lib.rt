// The check of a listing (02, ticket 3): refusals 24, 25 and 26, or its inputs, gates and outputs.
// Believe: specs/Answers and Meaning.
// Main theorem: listing_means (proofs/Theorems/Listings), accepted exactly if the bytes list a sound circuit within the sizes whose
// every wire goes exactly once; each refusal exactly where 02 names it.
// check_uncleared is the core for every operation that reads a listing. Called by cabinet and by listcheck.
#![tactic(auto)]

mod entries;
mod wires;

ghost use Rattle.std.specs.Prelude.{◌≡◌, [], ◌∷◌};
ghost use Rattle.lent.specs.Lent.{first_bytes, last_bytes};
ghost use Rattle.listing_check.specs.Answers.{listing_check_answer, listing_check_bytes};
ghost use Rattle.listing_check.specs.Meaning.{ListingMeans};
ghost use Rattle.listing_check.specs.Wires.{refused_with};

use entries::{sizes_wrong, wrong_entry};
use listing::ENTRY_SLOTS;
use refusals::Refusal;
use rules::sizes::{MOST_GATES, MOST_LABELS};
use wires::check_wires;
use words::clear;

// The least length of the working memory: a byte for each wire that a listing may make.
pub const LEAST_WORK: usize = MOST_LABELS + ENTRY_SLOTS * MOST_GATES;

// What an accepted listing has: how many inputs, gates and outputs.
#[derive(Clone, Copy)]
pub struct ListingSizes {
    pub inputs: usize,
    pub gates: usize,
    pub outputs: usize,
}

// A refusal with its place.
fn refused(number: usize, place: usize) -> Result<ListingSizes, Refusal>
    ensures { result ≡ refused_with number place }
{
    Err(Refusal::Run { number, place })
}

// The check without clearing its working memory. Too short, that is refused and not touched.
pub fn check_uncleared(listing: &[u8], work: &mut [u8]) -> Result<ListingSizes, Refusal>
    ensures { let lent = work ∷ [] in result ≡ listing_check_answer listing.now (first_bytes lent) }
{
    if work.len() < LEAST_WORK {
        return refused(19, 0);
    }
    if sizes_wrong(listing) {
        return refused(24, 0);
    }
    if let Some(entry) = wrong_entry(listing) {
        return refused(25, entry);
    }
    clear(work);
    check_wires(listing, work)
}

// The check of a listing. The other buffer is working memory.
pub fn check_listing(listing: &[u8], work: &mut [u8]) -> Result<ListingSizes, Refusal>
    ensures answer { let lent = work ∷ [] in
        result ≡ listing_check_answer listing.now (first_bytes lent) }
    ensures bytes { let lent = work ∷ [] in
        last_bytes lent ≡ listing_check_bytes (first_bytes lent) }
    ensures meaning { ListingMeans listing.now }
{
    if work.len() < LEAST_WORK {
        return refused(19, 0);
    }
    let answer = check_uncleared(listing, work);
    clear(work);
    answer
}
