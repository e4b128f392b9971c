// The permutation KECCAK-p[1600, 24] (FIPS 202, section 3), on the state's 25 lanes by value.
ghost use Rattle.std.specs.Prelude.{◌≡◌, ◌++◌, ◌+◌, ◌%◌, ◌<◌, get_or};
ghost use Rattle.std.specs.Int.Bits.{bit_and, bit_xor};
ghost use Rattle.sha3.specs.Keccak.{rot, inv, lane, plane, parity, theta, rho, pi, chi, constant_added, keccak_p};

use std::array;

// The constants of Algorithm 6 for the rounds 0 to 23.
const RC: [u64; 24] = [
    0x0000000000000001,
    0x0000000000008082,
    0x800000000000808a,
    0x8000000080008000,
    0x000000000000808b,
    0x0000000080000001,
    0x8000000080008081,
    0x8000000000008009,
    0x000000000000008a,
    0x0000000000000088,
    0x0000000080008009,
    0x000000008000000a,
    0x000000008000808b,
    0x800000000000008b,
    0x8000000000008089,
    0x8000000000008003,
    0x8000000000008002,
    0x8000000000000080,
    0x000000000000800a,
    0x800000008000000a,
    0x8000000080008081,
    0x8000000000008080,
    0x0000000080000001,
    0x8000000080008008,
];

// Plane y of the state. No step of a round has a loop over the 25 lanes, so that they stay in registers: one takes six
// times as long.
fn plane_of(a: [u64; 25], y: usize) -> [u64; 5]
    requires { y < 5 }
    ensures { result ≡ plane (lane a) y }
{
    let at = 5 * y;
    [a[at], a[at + 1], a[at + 2], a[at + 3], a[at + 4]]
}

// Five planes as a state.
fn join(p0: [u64; 5], p1: [u64; 5], p2: [u64; 5], p3: [u64; 5], p4: [u64; 5]) -> [u64; 25]
    ensures { result ≡ p0 ++ p1 ++ p2 ++ p3 ++ p4 }
{
    [
        p0[0], p0[1], p0[2], p0[3], p0[4], p1[0], p1[1], p1[2], p1[3], p1[4], p2[0], p2[1], p2[2],
        p2[3], p2[4], p3[0], p3[1], p3[2], p3[3], p3[4], p4[0], p4[1], p4[2], p4[3], p4[4],
    ]
}

// 3.2.1: the parity C[x].
fn parity_of(a: [u64; 25], x: usize) -> u64
    requires { x < 5 }
    ensures { result ≡ parity a x }
{
    a[x] ^ a[x + 5] ^ a[x + 10] ^ a[x + 15] ^ a[x + 20]
}

// 3.2.1: C[0] to C[4].
fn parities(a: [u64; 25]) -> [u64; 5]
    ensures { result ≡ plane (λ x y. parity a x) 0 }
{
    [
        parity_of(a, 0),
        parity_of(a, 1),
        parity_of(a, 2),
        parity_of(a, 3),
        parity_of(a, 4),
    ]
}

// 3.2.1: D[0] to D[4], where c is C; theta adds D[x] to each lane at x.
fn added(c: [u64; 5]) -> [u64; 5]
    ensures { result ≡ plane (λ x y. bit_xor (get_or c ((x + 4) % 5) 0) (rot 1 (get_or c ((x + 1) % 5) 0))) 0 }
{
    array::from_fn(|x| c[(x + 4) % 5] ^ c[(x + 1) % 5].rotate_left(1))
}

// 3.2.1, on the plane p, where d is D.
fn theta_plane(p: [u64; 5], d: [u64; 5]) -> [u64; 5]
    ensures { result ≡ plane (λ x y. bit_xor (get_or p x 0) (get_or d x 0)) 0 }
{
    array::from_fn(|x| p[x] ^ d[x])
}

// 3.2.1, on all planes.
fn theta(a: [u64; 25]) -> [u64; 25]
    ensures { result ≡ theta a }
{
    let d = added(parities(a));
    join(
        theta_plane(plane_of(a, 0), d),
        theta_plane(plane_of(a, 1), d),
        theta_plane(plane_of(a, 2), d),
        theta_plane(plane_of(a, 3), d),
        theta_plane(plane_of(a, 4), d),
    )
}

// 3.2.2 and 3.2.3: each lane turned by its number of places, and moved to its place.
fn rho_pi(a: [u64; 25]) -> [u64; 25]
    ensures { result ≡ pi (rho a) }
{
    [
        a[0],
        a[6].rotate_left(44),
        a[12].rotate_left(43),
        a[18].rotate_left(21),
        a[24].rotate_left(14),
        a[3].rotate_left(28),
        a[9].rotate_left(20),
        a[10].rotate_left(3),
        a[16].rotate_left(45),
        a[22].rotate_left(61),
        a[1].rotate_left(1),
        a[7].rotate_left(6),
        a[13].rotate_left(25),
        a[19].rotate_left(8),
        a[20].rotate_left(18),
        a[4].rotate_left(27),
        a[5].rotate_left(36),
        a[11].rotate_left(10),
        a[17].rotate_left(15),
        a[23].rotate_left(56),
        a[2].rotate_left(62),
        a[8].rotate_left(55),
        a[14].rotate_left(39),
        a[15].rotate_left(41),
        a[21].rotate_left(2),
    ]
}

// 3.2.4, on the plane p. The first plane takes in the round's constant as k, and the others 0.
fn chi_plane(p: [u64; 5], k: u64) -> [u64; 5]
    ensures { result ≡ constant_added k (plane (λ x y. bit_xor (get_or p x 0) (bit_and (inv (get_or p ((x + 1) % 5) 0)) (get_or p ((x + 2) % 5) 0))) 0) }
{
    let [b0, b1, b2, b3, b4] = p;
    [
        b0 ^ (!b1 & b2) ^ k,
        b1 ^ (!b2 & b3),
        b2 ^ (!b3 & b4),
        b3 ^ (!b4 & b0),
        b4 ^ (!b0 & b1),
    ]
}

// 3.2.4 and 3.2.5, on all planes.
fn chi_iota(a: [u64; 25], rc: u64) -> [u64; 25]
    ensures { result ≡ constant_added rc (chi a) }
{
    join(
        chi_plane(plane_of(a, 0), rc),
        chi_plane(plane_of(a, 1), 0),
        chi_plane(plane_of(a, 2), 0),
        chi_plane(plane_of(a, 3), 0),
        chi_plane(plane_of(a, 4), 0),
    )
}

// 3.3: one round with its constant.
fn round(a: [u64; 25], rc: u64) -> [u64; 25]
    ensures { result ≡ constant_added rc (chi (pi (rho (theta a)))) }
{
    chi_iota(rho_pi(theta(a)), rc)
}

// All 24 rounds.
pub(crate) fn permute(a: [u64; 25]) -> [u64; 25]
    ensures { result ≡ keccak_p a }
{
    RC.iter().copied().fold(a, round)
}
