// A vector's digest against the one that the code makes.
ghost use Rattle.std.specs.Prelude.{◌≡◌, true, ◌≤◌, length, IfSome};
ghost use Rattle.samples.specs.Vectors.{takes, compared, vector_at, judged_of};

use crate::vectors::{Function, Vector, find, make};
use words::same::same_bytes;

// Whether a vector's digest is not ours, and the place after the vector.
#[derive(Clone, Copy)]
pub struct Judged {
    pub differs: bool,
    pub next: usize,
}

// The vector in `s` with the message m that ends at `next`.
#[tactic(auto, unfolding(crate::specs::Vectors::compared))]
fn compare(f: Function, s: &[u8], m: &[u8], next: usize) -> Judged
    requires { (takes f (length m.now) ≡ true) × (32 ≤ next) × (next ≤ length s.now) }
    ensures { result ≡ compared f s.now m.now next }
{
    let same = same_bytes(&f.digest(m), &s[next - 32..next]);
    Judged {
        differs: !same,
        next,
    }
}

// The vector at a place, where it is of the form; `room` is where a message is made.
#[tactic(auto, unfolding(crate::specs::Vectors::judged_of, crate::specs::Vectors::compared))]
pub(crate) fn judge(f: Function, s: &[u8], at: usize, room: &mut [u8; 66000]) -> Option<Judged>
    requires { at ≤ length s.now }
    ensures judged { result ≡ judged_of f s.now (vector_at f s.now at) }
    ensures within { IfSome result (λ v. v.next ≤ length s.now) }
{
    let judged = match find(f, s, at)? {
        Vector::Given {
            start,
            length,
            next,
        } => compare(f, s, &s[start..start + length], next),
        Vector::Made { length, next } => {
            make(&mut room[..length]);
            compare(f, s, &room[..length], next)
        }
    };
    Some(judged)
}
