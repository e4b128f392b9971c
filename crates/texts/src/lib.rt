// Texts and numbers into lent memory, one after the other. Each is put whole, or not at all where it does not fit. The
// answer is where it ends, or one past the memory where it did not fit, so that nothing that is put from there on fits.
#![tactic(auto)]

ghost use Rattle.std.specs.Prelude.{◌≡◌, ◌++◌, ℕ, length};
ghost use Rattle.words.specs.Buffers.{laid};
ghost use Rattle.texts.specs.Text.{decimal, refused_line, end_of};

use itoa::Buffer;
use words::store::{has_room, put_bytes};

// A text from `at` on.
pub fn put_text(d: &mut [u8], at: usize, s: &[u8]) -> usize
    ensures value { result ≡ end_of at s.now (length d.old) }
    ensures d_after { d.new ≡ laid at s.now d.old }
{
    if put_bytes(d, at, s) {
        at + s.len()
    } else {
        d.len() + 1
    }
}

// Two texts, the second after the first: both, or neither.
fn put_both(d: &mut [u8], at: usize, a: &[u8], b: &[u8]) -> usize
    ensures value { result ≡ end_of at (a.now ++ b.now) (length d.old) }
    ensures d_after { d.new ≡ laid at (a.now ++ b.now) d.old }
{
    if has_room(d.len(), at, a.len() + b.len()) {
        let next = put_text(d, at, a);
        put_text(d, next, b)
    } else {
        d.len() + 1
    }
}

// A number from `at` on, in decimal.
pub fn put_number(d: &mut [u8], at: usize, n: u64) -> usize
    ensures value { result ≡ end_of at (decimal n) (length d.old) }
    ensures d_after { d.new ≡ laid at (decimal n) d.old }
{
    let mut digits = Buffer::new();
    put_text(d, at, digits.format(n).as_bytes())
}

// A label from `at` on, and a number after it.
pub fn put_field(d: &mut [u8], at: usize, label: &[u8], n: u64) -> usize
    ensures value { result ≡ end_of at (label.now ++ decimal n) (length d.old) }
    ensures d_after { d.new ≡ laid at (label.now ++ decimal n) d.old }
{
    let mut digits = Buffer::new();
    put_both(d, at, label, digits.format(n).as_bytes())
}

// The line of a refusal, from the start on.
pub fn put_refused(d: &mut [u8], number: u8) -> usize
    ensures value { result ≡ end_of 0 (refused_line number) (length d.old) }
    ensures d_after { d.new ≡ laid 0 (refused_line number) d.old }
{
    let mut line = [0u8; 29];
    let next = put_field(&mut line, 0, b"refused ", u64::from(number));
    let end = put_text(&mut line, next, b"\n");
    put_text(d, 0, &line[..end])
}
