// What is exported to hosts: reading, check, run, the check of listings, and their export and import, each with its answer in one
// number. A static library has the exported functions of its own crate only, so all stand here.
// Believe: the six contracts, which speak in the definitions of the operations and of cabinet_answers.
// No theorem beyond them.
// Called by C hosts (include/gawipsol.h) and by the comparisons in tests/.
#![tactic(auto)]

ghost use Rattle.std.specs.Prelude.{◌≡◌, [], ◌∷◌};
ghost use Rattle.lent.specs.Lent.{first_bytes, last_bytes};
ghost use Rattle.program.specs.Reading.{read_of};
ghost use Rattle.check_program.specs.Answers.{check_answer, check_bytes};
ghost use Rattle.run_answers.specs.Answers.{run_answer, run_bytes};
ghost use Rattle.listing_check.specs.Answers.{listing_check_answer, listing_check_bytes};
ghost use Rattle.openqasm_export.specs.Answers.{export_answer, export_bytes};
ghost use Rattle.openqasm_import.specs.Answers.{import_answer, import_bytes};
ghost use Rattle.cabinet_answers.specs.Packed.{packed_read, packed_check, packed_run, packed_listing, packed_conversion};

use cabinet_answers::pack_answer;
use check_program::check;
use listing_check::check_listing;
use openqasm_export::export;
use openqasm_import::import;
use program::read;
use run::run;

// The reading for callers outside, with its answer in one number.
#[unsafe(no_mangle)]
pub extern "C" fn gawipsol_read(file: &[u8]) -> u64
    ensures { result ≡ packed_read (read_of file.now) }
{
    pack_answer(read(file))
}

// The check for callers outside, with its answer in one number.
#[unsafe(no_mangle)]
pub extern "C" fn gawipsol_check(file: &[u8], out: &mut [u8], work: &mut [u8]) -> u64
    ensures answer { let lent = out ∷ work ∷ [] in
        result ≡ packed_check (check_answer file.now (first_bytes lent)) }
    ensures bytes { let lent = out ∷ work ∷ [] in
        last_bytes lent ≡ check_bytes file.now (first_bytes lent) }
{
    pack_answer(check(file, out, work))
}

// The run for callers outside, with its answer in one number.
#[unsafe(no_mangle)]
pub extern "C" fn gawipsol_run(
    file: &[u8],
    limit: u32,
    out: &mut [u8],
    nodes: &mut [u8],
    stack: &mut [u8],
    types: &mut [u8],
    frames: &mut [u8],
    gates: &mut [u8],
    circuits: &mut [u8],
    results0: &mut [u8],
    results1: &mut [u8],
    results2: &mut [u8],
    results3: &mut [u8],
) -> u64
    ensures answer { let lent = out ∷ nodes ∷ stack ∷ types ∷ frames ∷ gates ∷ circuits ∷ results0 ∷ results1 ∷ results2 ∷ results3 ∷ [] in
        result ≡ packed_run (run_answer file.now limit (first_bytes lent)) }
    ensures bytes { let lent = out ∷ nodes ∷ stack ∷ types ∷ frames ∷ gates ∷ circuits ∷ results0 ∷ results1 ∷ results2 ∷ results3 ∷ [] in
        last_bytes lent ≡ run_bytes file.now limit (first_bytes lent) }
{
    pack_answer(run(
        file, limit, out, nodes, stack, types, frames, gates, circuits, results0, results1,
        results2, results3,
    ))
}

// The check of a listing for callers outside, with its answer in one number.
#[unsafe(no_mangle)]
pub extern "C" fn gawipsol_check_listing(listing: &[u8], work: &mut [u8]) -> u64
    ensures answer { let lent = work ∷ [] in
        result ≡ packed_listing (listing_check_answer listing.now (first_bytes lent)) }
    ensures bytes { let lent = work ∷ [] in
        last_bytes lent ≡ listing_check_bytes (first_bytes lent) }
{
    pack_answer(check_listing(listing, work))
}

// The export of a listing for callers outside, with its answer in one number.
#[unsafe(no_mangle)]
pub extern "C" fn gawipsol_export(listing: &[u8], out: &mut [u8], work: &mut [u8]) -> u64
    ensures answer { let lent = out ∷ work ∷ [] in
        result ≡ packed_conversion (export_answer listing.now (first_bytes lent)) }
    ensures bytes { let lent = out ∷ work ∷ [] in
        last_bytes lent ≡ export_bytes listing.now (first_bytes lent) }
{
    pack_answer(export(listing, out, work))
}

// The import of a text for callers outside, with its answer in one number.
#[unsafe(no_mangle)]
pub extern "C" fn gawipsol_import(
    text: &[u8],
    out: &mut [u8],
    slots: &mut [u8],
    listing: &mut [u8],
    table: &mut [u8],
    exported: &mut [u8],
) -> u64
    ensures answer { let lent = out ∷ slots ∷ listing ∷ table ∷ exported ∷ [] in
        result ≡ packed_conversion (import_answer text.now (first_bytes lent)) }
    ensures bytes { let lent = out ∷ slots ∷ listing ∷ table ∷ exported ∷ [] in
        last_bytes lent ≡ import_bytes text.now (first_bytes lent) }
{
    pack_answer(import(text, out, slots, listing, table, exported))
}
