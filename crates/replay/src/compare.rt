// A recorded answer against ours.
ghost use Rattle.std.specs.Prelude.{◌≡◌, true, ◌+◌, ◌≤◌, ◌<◌, length, IfSome};
ghost use Rattle.replay.specs.Answers.{entry_number, part, takes, compared_of, judged_of};

use crate::answers::is_ours;
use crate::records::{Record, find};

// Whether a record's answer is not ours, and the place after the record.
#[derive(Clone, Copy)]
pub struct Judged {
    pub differs: bool,
    pub next: usize,
}

// A record in `s`: its argument stands from `start` up to `end`, and its answer after the four bytes of its length up
// to `next`.
#[tactic(auto, unfolding(crate::specs::Answers::compared_of))]
fn compare(s: &[u8], found: Record) -> Judged
    requires { (found.start ≤ found.end) × (found.end + 4 ≤ found.next) × (found.next ≤ length s.now) × (takes (entry_number found.entry) (part s.now found.start found.end) ≡ true) }
    ensures { result ≡ compared_of s.now (entry_number found.entry) found.start found.end found.next }
{
    let argument = &s[found.start..found.end];
    let answer = &s[found.end + 4..found.next];
    Judged {
        differs: !is_ours(found.entry, argument, answer),
        next: found.next,
    }
}

// The record at a place, where it is of the form.
#[tactic(auto, unfolding(crate::specs::Answers::judged_of, crate::specs::Answers::compared_of))]
pub(crate) fn judge(s: &[u8], at: usize) -> Option<Judged>
    requires { at ≤ length s.now }
    ensures judged { result ≡ judged_of s.now at }
    ensures onward { IfSome result (λ r. (at < r.next) × (r.next ≤ length s.now)) }
{
    Some(compare(s, find(s, at)?))
}
