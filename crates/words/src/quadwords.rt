// Quadwords in a lent buffer: four words each.
ghost use Rattle.std.specs.Prelude.{◌<◌, ◌≡◌, [], ◌∷◌};
ghost use Rattle.words.specs.Words.{put_words};
ghost use Rattle.words.specs.Quadwords.{word_in, quadwords_in, quadword_at};

// How many words a quadword has.
const WORDS: usize = 4;

// Word k of quadword i; 0 where there is none.
// No Option: `word_in` of specs/Quadwords is 0 in a quadword that is not there.
pub fn word_in(buffer: &[u8], i: usize, k: usize) -> usize
    ensures value { result ≡ word_in (quadword_at (quadwords_in buffer.now) i) k }
    ensures upper_bound { result < 65536 }
{
    let n = buffer.len() / 8;
    if n <= i {
        return 0;
    }
    if WORDS <= k {
        return 0;
    }
    crate::get(buffer, 4 * i + k)
}

// Four words and no array: callers have them by name, and the contract lists them so. Quadword i becomes these words, of each of which the low 16 bits count; past the end nothing changes. The quadwords
// then: quadword_put of proofs/Laws/Quadwords.antt.
pub fn put_quadword(buffer: &mut [u8], i: usize, a: usize, b: usize, c: usize, d: usize)
    ensures { buffer.new ≡ put_words 4 buffer.old i (a ∷ b ∷ c ∷ d ∷ []) }
{
    if buffer.len() / 8 <= i {
        return;
    }
    crate::put(buffer, 4 * i, a);
    crate::put(buffer, 4 * i + 1, b);
    crate::put(buffer, 4 * i + 2, c);
    crate::put(buffer, 4 * i + 3, d);
}
