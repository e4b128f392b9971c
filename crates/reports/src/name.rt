// The line of the name report.
ghost use Rattle.std.specs.Prelude.{◌≡◌, ℕ, length};
ghost use Rattle.words.specs.Buffers.{laid};
ghost use Rattle.refusal.specs.Outcome.{ok};
ghost use Rattle.encoding.specs.Wire.{put_answer};
ghost use Rattle.refusal.specs.Paper.{put_paper};
ghost use Rattle.name_state.specs.Paper.{state_of};
ghost use Rattle.name_state_codec.specs.Read.{read_state};
ghost use Rattle.texts.specs.Text.{end_of};
ghost use Rattle.reports.specs.Name.{class_name, state_line, name_line};

use encoding::put::put_bytes;
use name_state::{Class, NameState};
use name_state_codec::decode::decode;
use primitives::NameHash;
use refusal::{Refusal, number};
use texts::{put_field, put_refused, put_text};

// The longest line has two numbers of 20 digits.
type Line = [u8; 64];

// The name of a class; returns where it ends.
fn put_class(d: &mut [u8], at: usize, class: Class) -> usize
    ensures value { result ≡ end_of at (class_name class) (length d.old) }
    ensures d_after { d.new ≡ laid at (class_name class) d.old }
{
    let name = match class {
        Class::Null => b"null",
        Class::Held => b"held",
        Class::Free => b"free",
    };
    put_text(d, at, name)
}

// The line of a state whose record has so many bytes; returns where it ends.
fn put_state(d: &mut Line, state: NameState, size: usize) -> usize
    ensures value { result ≡ end_of 0 (state_line size (ok (state_of state) 0)) (length d.old) }
    ensures d_after { d.new ≡ laid 0 (state_line size (ok (state_of state) 0)) d.old }
{
    let a = put_text(d, 0, b"state ");
    let b = put_class(d, a, state.class());
    let c = put_field(d, b, b" name=", state.name_length as u64);
    let e = put_field(d, c, b" bytes=", size as u64);
    put_text(d, e, b"\n")
}

// The line of a record under its key; returns where it ends.
fn put_record(d: &mut Line, key: NameHash, value: &[u8]) -> usize
    ensures value { result ≡ end_of 0 (state_line (length value.now) (read_state key.0 value.now)) (length d.old) }
    ensures d_after { d.new ≡ laid 0 (state_line (length value.now) (read_state key.0 value.now)) d.old }
{
    match decode(key, value) {
        Ok((state, _)) => put_state(d, state, value.len()),
        Err(stop) => put_refused(d, number(stop.refusal)),
    }
}

// The line of a file, "32 key bytes, then the record"; returns where it ends.
fn put_line(d: &mut Line, file: &[u8]) -> usize
    ensures value { result ≡ end_of 0 (name_line file.now) (length d.old) }
    ensures d_after { d.new ≡ laid 0 (name_line file.now) d.old }
{
    let Some((key, record)) = file.split_first_chunk::<32>() else {
        return put_refused(d, 1);
    };
    put_record(d, NameHash(*key), record)
}

// The line at the start of `out`, its newline with it: all of it, or nothing and the refusal.
pub fn name_line(file: &[u8], out: &mut [u8]) -> Result<usize, Refusal>
    ensures result_value { put_paper result ≡ put_answer 0 (name_line file.now) out.old }
    ensures out_after { out.new ≡ laid 0 (name_line file.now) out.old }
{
    let mut line = [0u8; 64];
    let n = put_line(&mut line, file);
    put_bytes(out, 0, &line[..n])
}
