// A reader that holds the lent bytes and a position in them, as the Rust's `Decoder<'input>` does: thin functions over
// the cursor of `encoding`.
#![tactic(auto)]

ghost use Rattle.std.specs.Prelude.{◌≡◌};
ghost use Rattle.encoding.specs.Wire.{compact_most, slice_at, finish_at};
ghost use Rattle.encoding.specs.Paper.{read_paper, span_paper, moved_paper};
ghost use Rattle.decoder.specs.Held.{stands, decoder_after, whole_varbytes};

use encoding::read::{Cursor, Read, Span};
use refusal::Stop;

#[derive(Clone, Copy)]
pub struct Decoder<'a> {
    pub input: &'a [u8],
    pub position: usize,
}

// Where the reader stands once something is read, or refused.
fn standing_after<T>(read: &Read<T>) -> usize
    ensures { result ≡ stands (read_paper read.now) }
{
    match read {
        Ok((_, next)) => next.position,
        Err(stop) => stop.position,
    }
}

impl<'a> Decoder<'a> {
    pub fn new(input: &'a [u8]) -> Decoder<'a>
        ensures { (result.input ≡ input.entry) × (result.position ≡ 0) }
    {
        Decoder { input, position: 0 }
    }

    pub fn read_compact_usize<'s>(&'s mut self, maximum: usize) -> Read<usize>
        ensures { (read_paper result ≡ compact_most maximum self.old.input.now self.old.position) × (self.new ≡ decoder_after self.old (read_paper result)) }
    {
        let cursor = Cursor {
            position: self.position,
        };
        let size = cursor.read_compact_usize(self.input, maximum);
        self.position = standing_after(&size);
        size
    }

    pub fn read_slice<'s>(&'s mut self, length: usize) -> Read<Span>
        ensures { (span_paper result ≡ slice_at length self.old.input.now self.old.position) × (self.new ≡ decoder_after self.old (span_paper result)) }
    {
        let cursor = Cursor {
            position: self.position,
        };
        let part = cursor.read_slice(self.input, length);
        self.position = standing_after(&part);
        part
    }

    pub fn finish(self) -> Result<Cursor, Stop>
        ensures { moved_paper result ≡ finish_at self.entry.input.now self.entry.position }
    {
        let cursor = Cursor {
            position: self.position,
        };
        cursor.finish(self.input)
    }
}

// The whole of `input` is a compact size of at most `maximum` and as many bytes: the Rust's `read_varbytes`, and
// `finish`.
pub fn whole_varbytes(input: &[u8], maximum: usize) -> Read<Span>
    ensures { span_paper result ≡ whole_varbytes maximum input.now }
{
    let mut decoder = Decoder::new(input);
    let (length, _) = decoder.read_compact_usize(maximum)?;
    let (part, _) = decoder.read_slice(length)?;
    let end = decoder.finish()?;
    Ok((part, end))
}
