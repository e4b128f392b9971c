// The line of the link report.
ghost use Rattle.std.specs.Prelude.{◌≡◌, [], ◌∷◌, ℕ, ◌≤◌, length};
ghost use Rattle.words.specs.Buffers.{laid};
ghost use Rattle.refusal.specs.Paper.{number_of, carried, put_paper};
ghost use Rattle.encoding.specs.Wire.{put_answer};
ghost use Rattle.sheets.specs.Sheet.{transaction_of};
ghost use Rattle.links.specs.Verify.{summary, verify_of};
ghost use Rattle.texts.specs.Text.{refused_line, end_of};
ghost use Rattle.reports.specs.Link.{index_text, stopped_line, said_line, answer_line, judged_line, link_line};

use encoding::put::put_bytes;
use links::{CovenantLinkSummary, verify_covenant_links};
use refusal::{Refusal, carried_by, number};
use sheets::judge_transaction;
use texts::{put_field, put_refused, put_text};

// The report takes so many bytes of each sheet.
const LONGEST: usize = 32_768;

// The longest line has three numbers of 20 digits.
type Line = [u8; 89];

// The line of a summary; returns where it ends.
fn put_summary(d: &mut Line, s: CovenantLinkSummary) -> usize
    ensures value { result ≡ end_of 0 (said_line (summary s.inputs_checked s.linked_outputs s.name_inputs)) (length d.old) }
    ensures d_after { d.new ≡ laid 0 (said_line (summary s.inputs_checked s.linked_outputs s.name_inputs)) d.old }
{
    let a = put_field(d, 0, b"links inputs=", s.inputs_checked as u64);
    let b = put_field(d, a, b" linked=", s.linked_outputs as u64);
    let c = put_field(d, b, b" names=", s.name_inputs as u64);
    put_text(d, c, b"\n")
}

// The index, where a refusal of this number has one; returns where it ends.
fn put_index(d: &mut [u8], at: usize, number: u8, index: usize) -> usize
    requires { at ≤ length d.old }
    ensures value { result ≡ end_of at (index_text number index) (length d.old) }
    ensures d_after { d.new ≡ laid at (index_text number index) d.old }
{
    match number {
        12..=26 => put_field(d, at, b" at ", index as u64),
        _ => at,
    }
}

// The line of a refusal of this number, with the index where it has one; returns where it ends.
fn put_numbered(d: &mut Line, number: u8, index: usize) -> usize
    ensures value { result ≡ end_of 0 (stopped_line number (index ∷ [])) (length d.old) }
    ensures d_after { d.new ≡ laid 0 (stopped_line number (index ∷ [])) d.old }
{
    let a = put_field(d, 0, b"refused ", number as u64);
    let b = put_index(d, a, number, index);
    put_text(d, b, b"\n")
}

// The line of a refusal; returns where it ends.
fn put_stopped(d: &mut Line, refusal: Refusal) -> usize
    ensures value { result ≡ end_of 0 (stopped_line (number_of refusal) (carried refusal)) (length d.old) }
    ensures d_after { d.new ≡ laid 0 (stopped_line (number_of refusal) (carried refusal)) d.old }
{
    put_numbered(d, number(refusal), carried_by(refusal).first)
}

// The line of the verifier's answer; returns where it ends.
fn put_answer(d: &mut Line, tx: &[u8], coins: &[u8]) -> usize
    ensures value { result ≡ end_of 0 (answer_line (verify_of tx.now coins.now)) (length d.old) }
    ensures d_after { d.new ≡ laid 0 (answer_line (verify_of tx.now coins.now)) d.old }
{
    match verify_covenant_links(tx, coins) {
        Ok(summary) => put_summary(d, summary),
        Err(refused) => put_stopped(d, refused.refusal),
    }
}

// The line where the coin sheet is too long: the transaction sheet is judged first; returns where it ends.
fn put_too_long(d: &mut Line, tx: &[u8]) -> usize
    ensures value { result ≡ end_of 0 (judged_line (transaction_of tx.now) (refused_line 28)) (length d.old) }
    ensures d_after { d.new ≡ laid 0 (judged_line (transaction_of tx.now) (refused_line 28)) d.old }
{
    match judge_transaction(tx) {
        Ok(_) => put_refused(d, 28),
        Err(first) => put_stopped(d, first.refusal),
    }
}

// The line of two sheets; returns where it ends.
fn put_line(d: &mut Line, tx: &[u8], coins: &[u8]) -> usize
    ensures value { result ≡ end_of 0 (link_line tx.now coins.now) (length d.old) }
    ensures d_after { d.new ≡ laid 0 (link_line tx.now coins.now) d.old }
{
    if LONGEST < tx.len() {
        return put_refused(d, 28);
    }
    if LONGEST < coins.len() {
        return put_too_long(d, tx);
    }
    put_answer(d, tx, coins)
}

// The line at the start of `out`, its newline with it: all of it, or nothing and the refusal.
pub fn link_line(tx: &[u8], coins: &[u8], out: &mut [u8]) -> Result<usize, Refusal>
    ensures result_value { put_paper result ≡ put_answer 0 (link_line tx.now coins.now) out.old }
    ensures out_after { out.new ≡ laid 0 (link_line tx.now coins.now) out.old }
{
    let mut line = [0u8; 89];
    let n = put_line(&mut line, tx, coins);
    put_bytes(out, 0, &line[..n])
}
