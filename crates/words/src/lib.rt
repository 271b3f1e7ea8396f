// Bytes and 16-bit numbers in lent buffers, low byte first: the one view of memory that the layers above have.
// Believe: specs/Numbers, the number at a byte.
// Main laws: put_view (proofs/Laws/Words) and quadword_put (proofs/Laws/Quadwords), what is put, seen as words and as quadwords.
// Called by the reader, the check, the machine, and whatever reads or writes a listing.
// In every crate above, what is read past an end is 0 and no None: the definitions of what stands in memory, in a file and in a listing
// read `get_or l i 0`. A number read is a usize with a bound in the contract and no u16, since nearly all go on into places and sums.
#![tactic(auto)]

pub mod quadwords;

ghost use Rattle.std.specs.Prelude.{◌+◌, ◌<◌, ◌≡◌, [], ◌∷◌, ltb, length, get_or, replicate};
ghost use Rattle.words.specs.Numbers.{word_at};
ghost use Rattle.words.specs.Words.{words, put_words};

// Do so many places from one on run past an end?
pub fn runs_past(end: usize, from: usize, count: usize) -> bool
    ensures { result ≡ ltb end (from + count) }
{
    end < from || end - from < count
}

// The byte at i; 0 past the end.
pub fn byte_at(bytes: &[u8], i: usize) -> u8
    ensures { result ≡ get_or bytes.now i 0 }
{
    bytes.get(i).copied().unwrap_or(0)
}

// The 16-bit number at byte i; bytes past the end count as 0.
#[tactic(auto, unfolding(crate::specs::Numbers::word_at))]
pub fn word_at(bytes: &[u8], i: usize) -> usize
    ensures value { result ≡ word_at bytes.now i }
    ensures upper_bound { result < 65536 }
{
    if runs_past(bytes.len(), i, 2) {
        return byte_at(bytes, i) as usize;
    }
    usize::from(u16::from_le_bytes([bytes[i], bytes[i + 1]]))
}

// Word i; 0 past the end.
pub fn get(memory: &[u8], i: usize) -> usize
    ensures { result ≡ get_or (words memory.now) i 0 }
{
    let n = memory.len() / 2;
    if n <= i {
        return 0;
    }
    word_at(memory, 2 * i)
}

// Word i becomes the value, of which the low 16 bits count; past the end nothing changes. The words then: word_put of
// proofs/Laws/Words.antt.
pub fn put(memory: &mut [u8], i: usize, value: usize)
    ensures { memory.new ≡ put_words 1 memory.old i (value ∷ []) }
{
    let n = memory.len() / 2;
    if i < n {
        // Two writes and no slice: the edit byte_past_the_word names the second.
        memory[2 * i] = (value % 256) as u8;
        memory[2 * i + 1] = (value / 256 % 256) as u8;
    }
}

// Every byte becomes 0.
pub fn clear(memory: &mut [u8])
    ensures { memory.new ≡ replicate (length memory.old) 0 }
{
    memory.fill(0);
}
