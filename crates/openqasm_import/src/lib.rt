// The import of an OpenQASM 2.0 text (02, ticket 4): a listing is read from the text loosely, checked and exported again; it is given
// where its export is the text, byte for byte.
// Believe: specs/Answers and Meaning.
// Main theorems: import_means, export_imported, one_export (proofs/Theorems/Imports).
// Called by cabinet and by qasmin.
#![tactic(auto)]

ghost use Rattle.std.specs.Prelude.{◌≡◌, [], ◌∷◌, Err};
ghost use Rattle.lent.specs.Lent.{first_bytes, last_bytes};
ghost use Rattle.openqasm_import.specs.Answers.{import_of, imported_as, out_after, import_answer, import_bytes};
ghost use Rattle.refusals.specs.declared.Refusal.TheVariants.{Run};
ghost use Rattle.openqasm_import.specs.Meaning.{ImportMeans};
ghost use Rattle.openqasm_import.specs.Buffers.{AllLong};

use listing::MOST_BYTES;
use listing_check::LEAST_WORK;
use openqasm_export::{MOST_TEXT, check_export, write_text};
use openqasm_parts::{SLOTS_BYTES, read_listing};
use refusals::Refusal;
use text::Writer;
use words::clear;

// A refusal.
fn refused(number: usize) -> Result<usize, Refusal>
    ensures { result ≡ Err (Run number 0) }
{
    Err(Refusal::Run { number, place: 0 })
}

// The import with buffers that are long enough, without clearing the working memory. The table has the kinds of the entries while the
// text is read, and then serves the check and the export.
fn import_uncleared(
    text: &[u8],
    out: &mut [u8],
    slots: &mut [u8],
    listing: &mut [u8],
    table: &mut [u8],
    exported: &mut [u8],
) -> Result<usize, Refusal>
    requires { AllLong out.old slots.old listing.old table.old exported.old }
    ensures value { result ≡ imported_as (import_of text.now) }
    ensures out_after { out.new ≡ out_after (import_of text.now) out.old }
{
    let length = read_listing(text, table, slots, listing);
    let read = &listing[..length];
    if check_export(read, table).is_err() {
        return refused(27);
    }
    let written = write_text(read, table, exported);
    let again = &exported[..written];
    if text != again {
        return refused(27);
    }
    Writer::new(out).put_bytes(read);
    Ok(length)
}

// The import of a text. The listing starts the output buffer; the other buffers are working memory.
pub fn import(
    text: &[u8],
    out: &mut [u8],
    slots: &mut [u8],
    listing: &mut [u8],
    table: &mut [u8],
    exported: &mut [u8],
) -> Result<usize, Refusal>
    ensures answer { let lent = out ∷ slots ∷ listing ∷ table ∷ exported ∷ [] in
        result ≡ import_answer text.now (first_bytes lent) }
    ensures bytes { let lent = out ∷ slots ∷ listing ∷ table ∷ exported ∷ [] in
        last_bytes lent ≡ import_bytes text.now (first_bytes lent) }
    ensures meaning { ImportMeans text.now }
{
    if out.len() < MOST_BYTES
        || slots.len() < SLOTS_BYTES
        || listing.len() < MOST_BYTES
        || table.len() < LEAST_WORK
        || exported.len() < MOST_TEXT
    {
        return refused(19);
    }
    let answer = import_uncleared(text, out, slots, listing, table, exported);
    clear(slots);
    clear(listing);
    clear(table);
    clear(exported);
    answer
}
