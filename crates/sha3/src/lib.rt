// SHA3-256 (FIPS 202) of a message of any length.
#![tactic(auto)]

mod keccak;

ghost use Rattle.std.specs.Prelude.{◌≡◌, ◌<◌, length, take};
ghost use Rattle.words.specs.Words.{lanes};
ghost use Rattle.sha3.specs.Keccak.{keccak_p};
ghost use Rattle.sha3.specs.Sha3.{bits_of, packed, pad101, mixed, padded, block, suffixed, sha3};

use crate::keccak::permute;
use words::load::load_u64;
use words::store::words_bytes;

// The state with the lanes of a block taken in, each as it is loaded.
fn mix(s: [u64; 25], p: &[u8; 136]) -> [u64; 25]
    ensures { result ≡ mixed s (lanes 17 p.now) }
{
    let mut t = s;
    for i in 0..17 {
        t[i] ^= load_u64(p, 8 * i);
    }
    t
}

// One block absorbed.
fn absorb_block(s: &mut [u64; 25], p: &[u8; 136])
    ensures { s.new ≡ block keccak_p 1088 s.old (bits_of 8 p.now) }
{
    *s = permute(mix(*s, p));
}

// The last block absorbed: what is left of the message, the bits 01 and the padding.
fn absorb_last(s: &mut [u64; 25], rest: &[u8])
    requires { length rest.now < 136 }
    ensures { s.new ≡ block keccak_p 1088 s.old (padded pad101 1088 (suffixed rest.now)) }
{
    let n = rest.len();
    let mut p = [0u8; 136];
    p[..n].copy_from_slice(rest);
    p[n] = 0x06;
    p[135] |= 0x80;
    absorb_block(s, &p);
}

// The first 256 bits of the state, as bytes.
fn squeeze(s: [u64; 25]) -> [u8; 32]
    ensures { result ≡ packed 8 32 (take 256 (bits_of 64 s)) }
{
    words_bytes(s[0], s[1], s[2], s[3])
}

// The whole blocks of the message, one after the other, and then its last block.
pub fn sha3_256(m: &[u8]) -> [u8; 32]
    ensures { result ≡ sha3 m.now }
{
    let mut s = [0u64; 25];
    let (blocks, rest) = m.as_chunks::<136>();
    for block in blocks {
        absorb_block(&mut s, block);
    }
    absorb_last(&mut s, rest);
    squeeze(s)
}
