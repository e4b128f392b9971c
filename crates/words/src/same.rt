// Whether two runs of lent bytes are the same.
ghost use Rattle.std.specs.Prelude.{◌≡◌};
ghost use Rattle.words.specs.Sameness.{same};

// As `a == b`, but eight bytes at a time: for 32 bytes, the length of a hash, `==` takes more than half as long again.
pub fn same_bytes(a: &[u8], b: &[u8]) -> bool
    ensures { result ≡ same a.now b.now }
{
    if a.len() != b.len() {
        return false;
    }
    let (words, rest) = a.as_chunks::<8>();
    let (other_words, other_rest) = b.as_chunks::<8>();
    for (i, word) in words.iter().enumerate() {
        if *word != other_words[i] {
            return false;
        }
    }
    for (j, byte) in rest.iter().enumerate() {
        if *byte != other_rest[j] {
            return false;
        }
    }
    true
}
