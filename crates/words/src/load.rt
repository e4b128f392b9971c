// Words out of lent bytes; bytes past the end read as zeros.
ghost use Rattle.std.specs.Prelude.{◌≡◌, ◌≤◌, ◌<◌, length, take, drop, map};
ghost use Rattle.words.specs.Words.{le, lanes};

// Fewer than eight bytes, and zeros.
fn cut_word(tail: &[u8]) -> u64
    requires { length tail.now < 8 }
    ensures { result ≡ le tail.now }
{
    let mut word = [0u8; 8];
    word[..tail.len()].copy_from_slice(tail);
    u64::from_le_bytes(word)
}

// The word of the eight bytes from `at` on.
pub fn load_u64(m: &[u8], at: usize) -> u64
    ensures { result ≡ le (take 8 (drop at m.now)) }
{
    let Some(rest) = m.get(at..) else {
        return 0;
    };
    match rest.first_chunk() {
        Some(word) => u64::from_le_bytes(*word),
        None => cut_word(rest),
    }
}

// Words that are all there.
fn whole_words(out: &mut [u64], words: &[[u8; 8]])
    requires { length out.old ≤ length words.now }
    ensures { out.new ≡ map le (take (length out.old) words.now) }
{
    for (i, word) in out.iter_mut().enumerate() {
        *word = u64::from_le_bytes(words[i]);
    }
}

// All of `out` filled with the words of `m` from `at` on. The whole ones go by themselves, so that no load of them
// tests for the end.
pub fn load_words(out: &mut [u64], m: &[u8], at: usize)
    ensures { out.new ≡ lanes (length out.old) (drop at m.now) }
{
    let rest = &m[at.min(m.len())..];
    let (words, tail) = rest.as_chunks::<8>();
    let whole = words.len();
    if out.len() <= whole {
        whole_words(out, words);
    } else {
        whole_words(&mut out[..whole], words);
        out[whole] = cut_word(tail);
        out[whole + 1..].fill(0);
    }
}
