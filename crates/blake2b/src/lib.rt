// BLAKE2b (RFC 7693), with no key and a result of 32 bytes.
#![tactic(auto)]

ghost use Rattle.std.specs.Prelude.{◌≡◌, ◌<◌, ◌≤◌, ◌++◌, drop, slice_index};
ghost use Rattle.words.specs.Words.{bytes, lanes};
ghost use Rattle.blake2b.specs.Blake2b.{iv, half, word, cols, diags, round, row, rounds, flagged, start, folded, F, first, digest, blake2b};
ghost use Rattle.blake2b.specs.Workers.{Row, column, joined, four, turned, back};

use std::array;
use words::load::load_words;
use words::store::words_bytes;

// 2.6
const IV: [u64; 8] = [
    0x6A09E667F3BCC908,
    0xBB67AE8584CAA73B,
    0x3C6EF372FE94F82B,
    0xA54FF53A5F1D36F1,
    0x510E527FADE682D1,
    0x9B05688C2B3E6C1F,
    0x1F83D9ABFB41BD6B,
    0x5BE0CD19137E2179,
];

// 2.7
const SIGMA: [[u8; 16]; 10] = [
    [0, 1, 2, 3, 4, 5, 6, 7, 8, 9, 10, 11, 12, 13, 14, 15],
    [14, 10, 4, 8, 9, 15, 13, 6, 1, 12, 0, 2, 11, 7, 5, 3],
    [11, 8, 12, 0, 5, 2, 15, 13, 10, 14, 3, 6, 7, 1, 9, 4],
    [7, 9, 3, 1, 13, 12, 11, 14, 2, 6, 5, 10, 4, 0, 15, 8],
    [9, 0, 5, 7, 2, 4, 10, 15, 14, 1, 11, 12, 6, 8, 3, 13],
    [2, 12, 6, 10, 0, 11, 8, 3, 4, 13, 7, 5, 15, 14, 1, 9],
    [12, 5, 1, 15, 14, 13, 4, 10, 0, 7, 6, 3, 9, 2, 8, 11],
    [13, 11, 7, 14, 12, 1, 3, 9, 5, 0, 15, 4, 8, 6, 2, 10],
    [6, 15, 14, 9, 11, 3, 0, 8, 12, 2, 13, 7, 1, 4, 10, 5],
    [10, 2, 8, 4, 7, 6, 1, 5, 15, 11, 9, 14, 3, 12, 13, 0],
];

// Four lines of G, on its four words v[a], v[b], v[c] and v[d], with the rotations R and S.
fn half<const R: u32, const S: u32>(w: [u64; 4], x: u64) -> [u64; 4]
    requires { ((0 < R) × (R < 64)) × ((0 < S) × (S < 64)) }
    ensures { result ≡ half R S (slice_index w 0) (slice_index w 1) (slice_index w 2) (slice_index w 3) x }
{
    let [a, b, c, d] = w;
    let a = a.wrapping_add(b).wrapping_add(x);
    let d = (d ^ a).rotate_right(R);
    let c = c.wrapping_add(d);
    let b = (b ^ c).rotate_right(S);
    [a, b, c, d]
}

// m[s[i]], where s is a row of the schedule.
fn pick(m: &[u64; 16], s: &[u8; 16], i: usize) -> u64
    requires { (i < 16) × (slice_index s.now i < 16) }
    ensures { result ≡ word m.now s.now i }
{
    m[s[i] as usize]
}

// A column of v, which stands row by row.
fn column_of(v: [u64; 16], i: usize) -> [u64; 4]
    requires { i < 4 }
    ensures { result ≡ column v i }
{
    [v[i], v[i + 4], v[i + 8], v[i + 12]]
}

// Four columns as one vector.
fn join(a: [u64; 4], b: [u64; 4], c: [u64; 4], d: [u64; 4]) -> [u64; 16]
    ensures { result ≡ joined a b c d }
{
    [
        a[0], b[0], c[0], d[0], a[1], b[1], c[1], d[1], a[2], b[2], c[2], d[2], a[3], b[3], c[3],
        d[3],
    ]
}

// G on each column of v, with the eight words that the row s names from `at` on. The first lines of all four come
// before the last lines of any, so that the processor works on the four at once.
fn mix(m: &[u64; 16], s: &[u8; 16], at: usize, v: [u64; 16]) -> [u64; 16]
    requires { (at ≤ 8) × Row s.now }
    ensures { result ≡ four m.now s.now at v }
{
    let p0 = half::<32, 24>(column_of(v, 0), pick(m, s, at));
    let p1 = half::<32, 24>(column_of(v, 1), pick(m, s, at + 2));
    let p2 = half::<32, 24>(column_of(v, 2), pick(m, s, at + 4));
    let p3 = half::<32, 24>(column_of(v, 3), pick(m, s, at + 6));
    let q0 = half::<16, 63>(p0, pick(m, s, at + 1));
    let q1 = half::<16, 63>(p1, pick(m, s, at + 3));
    let q2 = half::<16, 63>(p2, pick(m, s, at + 5));
    let q3 = half::<16, 63>(p3, pick(m, s, at + 7));
    join(q0, q1, q2, q3)
}

// The diagonals of v as columns.
fn turn(v: [u64; 16]) -> [u64; 16]
    ensures { result ≡ turned v }
{
    [
        v[0], v[1], v[2], v[3], v[5], v[6], v[7], v[4], v[10], v[11], v[8], v[9], v[15], v[12],
        v[13], v[14],
    ]
}

// The columns of v as diagonals.
fn turn_back(v: [u64; 16]) -> [u64; 16]
    ensures { result ≡ back v }
{
    [
        v[0], v[1], v[2], v[3], v[7], v[4], v[5], v[6], v[10], v[11], v[8], v[9], v[13], v[14],
        v[15], v[12],
    ]
}

// The first four lines of a round.
fn columns(m: &[u64; 16], s: &[u8; 16], v: [u64; 16]) -> [u64; 16]
    requires { Row s.now }
    ensures { result ≡ cols m.now s.now v }
{
    mix(m, s, 0, v)
}

// The last four lines of a round.
fn diagonals(m: &[u64; 16], s: &[u8; 16], v: [u64; 16]) -> [u64; 16]
    requires { Row s.now }
    ensures { result ≡ diags m.now s.now v }
{
    turn_back(mix(m, s, 8, turn(v)))
}

// v[14] before the rounds.
fn inverted(last: bool) -> u64
    ensures { result ≡ flagged last (slice_index iv 6) }
{
    if last { !IV[6] } else { IV[6] }
}

// v before the rounds; no message has so many bytes that the counter's high word is not 0.
fn begin(h: [u64; 8], t: u64, last: bool) -> [u64; 16]
    ensures { result ≡ start h t last }
{
    [
        h[0],
        h[1],
        h[2],
        h[3],
        h[4],
        h[5],
        h[6],
        h[7],
        IV[0],
        IV[1],
        IV[2],
        IV[3],
        t ^ IV[4],
        IV[5],
        inverted(last),
        IV[7],
    ]
}

// Round R. Its row of the schedule is known when the round is compiled, and so is each word that it reads.
fn round<const R: usize>(m: &[u64; 16], v: [u64; 16]) -> [u64; 16]
    ensures { result ≡ round m.now (row R) v }
{
    let s = SIGMA[R % 10];
    diagonals(m, &s, columns(m, &s, v))
}

// The twelve rounds, in a row and not in a loop, which would look the words up as it runs: it takes 1.6 times as long.
fn churn(m: &[u64; 16], v: [u64; 16]) -> [u64; 16]
    ensures { result ≡ rounds 12 m.now v }
{
    let v = round::<0>(m, v);
    let v = round::<1>(m, v);
    let v = round::<2>(m, v);
    let v = round::<3>(m, v);
    let v = round::<4>(m, v);
    let v = round::<5>(m, v);
    let v = round::<6>(m, v);
    let v = round::<7>(m, v);
    let v = round::<8>(m, v);
    let v = round::<9>(m, v);
    let v = round::<10>(m, v);
    round::<11>(m, v)
}

// The two halves of v folded into h.
fn fold(h: [u64; 8], v: [u64; 16]) -> [u64; 8]
    ensures { result ≡ folded h v }
{
    array::from_fn(|i| h[i] ^ v[i] ^ v[i + 8])
}

// F, in place: t is the counter, and `last` the flag of the last block.
fn compress(h: &mut [u64; 8], m: &[u64; 16], t: u64, last: bool)
    ensures { h.new ≡ F h.old m.now t last }
{
    *h = fold(*h, churn(m, begin(*h, t, last)));
}

// h before the first block.
fn initial() -> [u64; 8]
    ensures { result ≡ first }
{
    let mut h = IV;
    h[0] ^= 0x01010020;
    h
}

// F on the block from `at` on; bytes past the end of the message are zeros.
fn absorb(h: &mut [u64; 8], m: &[u8], at: usize, t: u64, last: bool)
    ensures { h.new ≡ F h.old (lanes 16 (drop at m.now)) t last }
{
    let mut block = [0u64; 16];
    load_words(&mut block, m, at);
    compress(h, &block, t, last);
}

// The first 32 bytes of h.
fn squeeze(h: [u64; 8]) -> [u8; 32]
    ensures { result ≡ digest h }
{
    words_bytes(h[0], h[1], h[2], h[3])
}

// The hash of m.
pub fn blake2b_256(m: &[u8]) -> [u8; 32]
    ensures { result ≡ blake2b m.now }
{
    let mut h = initial();
    // The blocks before the last; that one is the message's end even where it is whole.
    let before = m.len().saturating_sub(1) / 128;
    for i in 0..before {
        absorb(&mut h, m, 128 * i, (i as u64 + 1) * 128, false);
    }
    absorb(&mut h, m, 128 * before, m.len() as u64, true);
    squeeze(h)
}

// The hash of the eight bytes of a value and a nonce after them, which are one block: it is made with no copy of the
// bytes.
pub fn blake2b_256_value_nonce(value: u64, nonce: &[u8; 32]) -> [u8; 32]
    ensures { result ≡ blake2b (bytes 8 value ++ nonce.now) }
{
    let mut block = [0u64; 16];
    block[0] = value;
    load_words(&mut block[1..5], nonce, 0);
    let mut h = initial();
    compress(&mut h, &block, 40, true);
    squeeze(h)
}
