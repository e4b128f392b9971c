// A file of vectors, and the messages that a rule makes.
ghost use Rattle.std.specs.Prelude.{◌≡◌, true, ◌+◌, ◌≤◌, length};
ghost use Rattle.blake2b.specs.Blake2b.{blake2b};
ghost use Rattle.samples.specs.Vectors.{head_of, hash_of, takes, made, message_at, vector_at, Inside, Sized, Takes};

use words::load::load_u64;

#[derive(Clone, Copy)]
pub enum Function {
    Sha3,
    Blake2b,
    ValueNonce,
}

impl Function {
    pub(crate) fn head(self) -> u64
        ensures { result ≡ head_of self }
    {
        match self {
            Function::Sha3 => 0x73726f7463657601,
            Function::Blake2b => 0x73726f7463657602,
            Function::ValueNonce => 0x73726f7463657603,
        }
    }

    // Whether the function takes a message of n bytes.
    fn takes(self, n: usize) -> bool
        ensures { result ≡ takes self n }
    {
        match self {
            Function::Sha3 | Function::Blake2b => true,
            Function::ValueNonce => n == 40,
        }
    }

    pub(crate) fn digest(self, m: &[u8]) -> [u8; 32]
        requires { takes self (length m.now) ≡ true }
        ensures { result ≡ hash_of self m.now }
    {
        match self {
            Function::Sha3 => sha3::sha3_256(m),
            Function::Blake2b => blake2b::blake2b_256(m),
            Function::ValueNonce => value_nonce(m),
        }
    }
}

// The digest by the entry that takes a value and a nonce.
fn value_nonce(m: &[u8]) -> [u8; 32]
    requires { length m.now ≡ 40 }
    ensures { result ≡ blake2b m.now }
{
    let (value, nonce) = m.split_last_chunk::<32>().unwrap();
    blake2b::blake2b_256_value_nonce(load_u64(value, 0), nonce)
}

// The message is given in the file, or is to be made; `next` is the place after the digest.
#[derive(Clone, Copy)]
pub enum Vector {
    Given {
        start: usize,
        length: usize,
        next: usize,
    },
    Made {
        length: usize,
        next: usize,
    },
}

// The vector at a place whose message has n bytes.
#[tactic(auto, unfolding(crate::specs::Vectors::message_at))]
fn message_of(s: &[u8], at: usize, n: usize) -> Option<Vector>
    requires { at + 41 ≤ length s.now }
    ensures vector { result ≡ message_at s.now at n }
    ensures inside { Inside (length s.now) result }
    ensures sized { Sized n result }
{
    match s[at] {
        0 if n <= s.len() - at - 41 => Some(Vector::Given {
            start: at + 9,
            length: n,
            next: at + 41 + n,
        }),
        1 if n <= 66000 => Some(Vector::Made {
            length: n,
            next: at + 41,
        }),
        _ => None,
    }
}

// The vector at a place.
#[tactic(auto, unfolding(crate::specs::Vectors::vector_at))]
pub(crate) fn find(f: Function, s: &[u8], at: usize) -> Option<Vector>
    requires { at ≤ length s.now }
    ensures vector { result ≡ vector_at f s.now at }
    ensures inside { Inside (length s.now) result }
    ensures taken { Takes f result }
{
    if s.len() - at < 41 {
        return None;
    }
    let n = load_u64(s, at + 1) as usize;
    if f.takes(n) {
        message_of(s, at, n)
    } else {
        None
    }
}

// The message of as many bytes as `out` has, made into it.
pub(crate) fn make(out: &mut [u8])
    requires { length out.old ≤ 1000000 }
    ensures { out.new ≡ made (length out.old) }
{
    let n = out.len();
    for (i, byte) in out.iter_mut().enumerate() {
        *byte = ((i * 131 + n * 29) % 251) as u8;
    }
}
