// A covenant decoded with its directory.
ghost use Rattle.std.specs.Prelude.{◌≡◌, [], ◌≤◌};
ghost use Rattle.refusal.specs.Outcome.{Outcome, past, many_at, list_of};
ghost use Rattle.encoding.specs.Paper.{moved_paper};
ghost use Rattle.covenants.specs.Covenant.{max_items, max_encoded_size, Reading, item_at, covenant_at, whole_covenant, skimmed};
ghost use Rattle.covenants.specs.Paper.{covenant_paper, listed, directory_of, decoded_paper, decoded};
ghost use Rattle.covenants.specs.Workers.{starts_of, lens_of};

use crate::short::Reached;
use crate::{Accepted, Covenant, Reader, too_large};
use encoding::read::{Cursor, Read};
use refusal::Stop;

// A covenant that was read, and the bytes used up from the allowance.
#[derive(Clone, Copy)]
pub struct Decoded {
    pub covenant: Covenant,
    pub used: usize,
}

// Nothing but zeros.
fn clear(starts: &mut [usize; 1000], lens: &mut [usize; 1000])
    ensures { (starts.new ≡ listed []) × (lens.new ≡ listed []) }
{
    *starts = [0; 1000];
    *lens = [0; 1000];
}

impl Reader {
    // The items, each into its place of the directory.
    fn fill(
        self,
        from: Cursor,
        s: &[u8],
        count: usize,
        starts: &mut [usize; 1000],
        lens: &mut [usize; 1000],
    ) -> Result<Cursor, Stop>
        requires { (self.start ≤ from.position) × (count ≤ max_items) }
        ensures result_value { moved_paper result ≡ past (many_at (item_at self.allowance self.start s.now) count from.position) }
        ensures starts_after { starts.new ≡ listed (starts_of (list_of (many_at (item_at self.allowance self.start s.now) count from.position))) }
        ensures lens_after { lens.new ≡ listed (lens_of (list_of (many_at (item_at self.allowance self.start s.now) count from.position))) }
    {
        clear(starts, lens);
        let mut reached = Reached {
            passed: 0,
            next: from,
        };
        loop {
            let short = self.short_entries(s, count, reached, starts, lens);
            if short.passed == count {
                return Ok(short.next);
            }
            match self.item(short.next, s) {
                Ok((item, next)) => {
                    starts[short.passed] = item.start;
                    lens[short.passed] = item.len;
                    reached = Reached {
                        passed: short.passed + 1,
                        next,
                    };
                }
                Err(stop) => {
                    clear(starts, lens);
                    return Err(stop);
                }
            }
        }
    }
}

// A covenant that was read, beside this directory.
fn assembled(read: Read<Accepted>, starts: [usize; 1000], lens: [usize; 1000]) -> Read<Decoded>
    ensures { (o : Outcome Reading) → covenant_paper read ≡ skimmed o → starts ≡ (directory_of o).starts → lens ≡ (directory_of o).lens → decoded_paper result ≡ decoded o }
{
    let (accepted, next) = read?;
    let covenant = Covenant {
        kind: accepted.kind,
        count: accepted.count,
        starts,
        lens,
    };
    let used = accepted.used;
    Ok((Decoded { covenant, used }, next))
}

impl Covenant {
    // A covenant under an allowance, its directory in two lent arrays.
    pub fn decode_from_into(
        c: Cursor,
        s: &[u8],
        limit: usize,
        starts: &mut [usize; 1000],
        lens: &mut [usize; 1000],
    ) -> Read<Accepted>
        ensures result_value { covenant_paper result ≡ skimmed (covenant_at limit s.now c.position) }
        ensures starts_after { starts.new ≡ (directory_of (covenant_at limit s.now c.position)).starts }
        ensures lens_after { lens.new ≡ (directory_of (covenant_at limit s.now c.position)).lens }
    {
        let reader = Reader::new(c, limit);
        match reader.open(s) {
            Ok((head, first)) => {
                let end = reader.fill(first, s, head.count, starts, lens)?;
                Ok((reader.accepted(head, end), end))
            }
            Err(stop) => {
                clear(starts, lens);
                Err(stop)
            }
        }
    }

    // A covenant under an allowance.
    pub fn decode_from_with_limit(c: Cursor, s: &[u8], limit: usize) -> Read<Decoded>
        ensures { decoded_paper result ≡ decoded (covenant_at limit s.now c.position) }
    {
        let mut starts = [0usize; 1000];
        let mut lens = [0usize; 1000];
        let read = Covenant::decode_from_into(c, s, limit, &mut starts, &mut lens);
        assembled(read, starts, lens)
    }

    pub fn decode_from(c: Cursor, s: &[u8]) -> Read<Decoded>
        ensures { decoded_paper result ≡ decoded (covenant_at max_encoded_size s.now c.position) }
    {
        Covenant::decode_from_with_limit(c, s, Covenant::MAX_ENCODED_SIZE)
    }

    // A covenant that is the whole input, its directory in two lent arrays.
    pub fn decode_into(
        s: &[u8],
        starts: &mut [usize; 1000],
        lens: &mut [usize; 1000],
    ) -> Read<Accepted>
        ensures result_value { covenant_paper result ≡ skimmed (whole_covenant s.now) }
        ensures starts_after { starts.new ≡ (directory_of (whole_covenant s.now)).starts }
        ensures lens_after { lens.new ≡ (directory_of (whole_covenant s.now)).lens }
    {
        let most = Covenant::MAX_ENCODED_SIZE;
        if most < s.len() {
            clear(starts, lens);
            return Err(too_large(s.len(), most, 0));
        }
        let begin = Cursor { position: 0 };
        let read = Covenant::decode_from_into(begin, s, most, starts, lens);
        match read {
            Ok((accepted, end)) => match end.finish(s) {
                Ok(_) => Ok((accepted, end)),
                Err(stop) => {
                    clear(starts, lens);
                    Err(stop)
                }
            },
            // What was refused has left both arrays cleared.
            Err(stop) => Err(stop),
        }
    }

    // A covenant that is the whole input.
    pub fn decode(s: &[u8]) -> Read<Decoded>
        ensures { decoded_paper result ≡ decoded (whole_covenant s.now) }
    {
        let mut starts = [0usize; 1000];
        let mut lens = [0usize; 1000];
        let read = Covenant::decode_into(s, &mut starts, &mut lens);
        assembled(read, starts, lens)
    }
}
