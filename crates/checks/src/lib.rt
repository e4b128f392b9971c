// The checks of one input against its partner: what the rows of the link rules' table are made of. Each answers for any
// two places.
#![tactic(auto)]

ghost use Rattle.std.specs.Prelude.{◌≡◌, ◌+◌, ◌≤◌, ◌<◌, length, eqb};
ghost use Rattle.words.specs.Buffers.{pick};
ghost use Rattle.words.specs.Sameness.{same};
ghost use Rattle.refusal.specs.declared.Refusal.{Refusal};
ghost use Rattle.names.specs.Blind.{blind_of};
ghost use Rattle.covenants.specs.Covenant.{bytes_in};
ghost use Rattle.sheets.specs.Sheet.{address_at, output_of};
ghost use Rattle.checks.specs.Checks.{same_address, name_and_start, opened, destined};
ghost use Rattle.checks.specs.Paper.{step_paper};
ghost use Rattle.checks.specs.Items.{items_at, sized_pair, items_pair};
ghost use Rattle.checks.specs.Workers.{Sizes};

use covenants::items::{find, find_two};
use encoding::read::{Cursor, Span};
use names::blind_bid;
use refusal::Refusal;
use sheets::{Address, Place};
use words::same::same_bytes;

// Where items 0 and 1 of a covenant stand, the name hash and the start height: zeros where there is none.
#[derive(Clone, Copy, PartialEq, Eq)]
pub struct Items {
    pub name: Span,
    pub height: Span,
}

// Where an item of the spent and of the created covenant stand, and their width.
#[derive(Clone, Copy, PartialEq, Eq)]
pub struct Pair {
    pub spent: usize,
    pub created: usize,
    pub width: usize,
}

const NOWHERE: Span = Span { start: 0, len: 0 };

// The n bytes of s from `start` on, or as many of them as are there.
fn part(s: &[u8], start: usize, n: usize) -> &[u8]
    ensures { result.now ≡ bytes_in s.now (start, n) }
{
    let from = start.min(s.len());
    let size = n.min(s.len() - from);
    &s[from..from + size]
}

// Whether n bytes of s, from a on, are m bytes of t, from b on.
fn same_part(s: &[u8], a: usize, n: usize, t: &[u8], b: usize, m: usize) -> bool
    ensures { result ≡ same (bytes_in s.now (a, n)) (bytes_in t.now (b, m)) }
{
    same_bytes(part(s, a, n), part(t, b, m))
}

// Where item k of the covenant that stands there is, if it has the width.
fn sized_item(s: &[u8], covenant: usize, k: usize, width: usize) -> Option<usize>
    requires { 0 < width }
    ensures { Sizes s.now covenant k width result }
{
    let c = Cursor { position: covenant };
    let item = find(c, s, k)?;
    if item.len == width {
        Some(item.start)
    } else {
        None
    }
}

// 15, with the field.
fn malformed(input: usize, field: u8) -> Refusal
    ensures { result ≡ Refusal.MalformedCovenant input field }
{
    Refusal::MalformedCovenant { input, field }
}

// Items 0 and 1 of the covenant that stands there.
pub fn items_at(s: &[u8], covenant: usize) -> Items
    ensures { result ≡ items_at s.now covenant }
{
    let c = Cursor { position: covenant };
    let (name, height) = find_two(c, s);
    Items {
        name: name.unwrap_or(NOWHERE),
        height: height.unwrap_or(NOWHERE),
    }
}

// An item of both covenants, if both have the width; or the field of 15, for the one that has not: the next one is the
// created item's.
fn both_items(spent: Span, made: Span, width: usize, field: u8) -> Result<Pair, u8>
    requires { field < 255 }
    ensures { result ≡ sized_pair width field spent made }
{
    if spent.len != width {
        return Err(field);
    }
    if made.len != width {
        return Err(field + 1);
    }
    Ok(Pair {
        spent: spent.start,
        created: made.start,
        width,
    })
}

// Items 0 of both covenants, a name hash of 32 bytes, or items 1, a start height of 4; or the field of 15, for the one
// that is malformed.
pub fn pair_of(spent: Items, made: Items, k: usize) -> Result<Pair, u8>
    ensures { result ≡ items_pair spent made k }
{
    if k == 0 {
        both_items(spent.name, made.name, 32, 1)
    } else {
        both_items(spent.height, made.height, 4, 3)
    }
}

// Unequal items: 16 for items 0, 17 for items 1.
pub fn unequal(input: usize, k: usize) -> Refusal
    ensures { result ≡ pick (eqb k 0) (Refusal.NameHashMismatch input) (Refusal.StartHeightMismatch input) }
{
    if k == 0 {
        Refusal::NameHashMismatch { input }
    } else {
        Refusal::StartHeightMismatch { input }
    }
}

// Whether two addresses are the same: the version, and the hash.
pub fn same_address(s: &[u8], a: Address, t: &[u8], b: Address) -> bool
    ensures { result ≡ same_address (address_at s.now a) (address_at t.now b) }
{
    a.version == b.version && same_part(s, a.start, a.len, t, b.start, b.len)
}

// An input that spends an output of the coin sheet, with its partner, the output of the same index.
#[derive(Clone, Copy)]
pub struct Spending<'a> {
    pub tx: &'a [u8],
    pub coins: &'a [u8],
    pub input: usize,
    pub spent: Place,
    pub made: Place,
}

impl<'a> Spending<'a> {
    // Where item k of what is spent stands, if it has the width.
    fn spent_item(self, k: usize, width: usize) -> Option<usize>
        requires { 0 < width }
        ensures { Sizes self.entry.coins.now self.entry.spent.covenant k width result }
    {
        sized_item(self.coins, self.spent.covenant, k, width)
    }

    // The same of what its partner creates.
    fn made_item(self, k: usize, width: usize) -> Option<usize>
        requires { 0 < width }
        ensures { Sizes self.entry.tx.now self.entry.made.covenant k width result }
    {
        sized_item(self.tx, self.made.covenant, k, width)
    }

    // Whether both items of a pair are the same bytes.
    fn agrees(self, pair: Pair) -> bool
        ensures { result ≡ same (bytes_in self.entry.coins.now (pair.spent, pair.width)) (bytes_in self.entry.tx.now (pair.created, pair.width)) }
    {
        let width = pair.width;
        same_part(self.coins, pair.spent, width, self.tx, pair.created, width)
    }

    // Item 0, the name hash, and item 1, the start height: the Rust's `require_name_and_start_match`, for whoever
    // judges one input by itself. The walk of links has these loops in its own, which leaves all of them at once.
    pub fn name_and_start(self) -> Result<bool, Refusal>
        ensures { step_paper result ≡ name_and_start self.entry.input (output_of self.entry.coins.now self.entry.spent).items (output_of self.entry.tx.now self.entry.made).items }
    {
        let spent = items_at(self.coins, self.spent.covenant);
        let made = items_at(self.tx, self.made.covenant);
        for k in 0..2 {
            let pair = pair_of(spent, made, k).map_err(|field| malformed(self.input, field))?;
            if !self.agrees(pair) {
                return Err(unequal(self.input, k));
            }
        }
        Ok(true)
    }

    // Whether the value and the nonce give the commitment: both stand there, 32 bytes each.
    fn commits(self, nonce: usize, commitment: usize) -> bool
        requires { (nonce + 32 ≤ length self.tx.now) × (commitment + 32 ≤ length self.coins.now) }
        ensures { result ≡ same (blind_of self.entry.made.value.0 (bytes_in self.entry.tx.now (nonce, 32))) (bytes_in self.entry.coins.now (commitment, 32)) }
    {
        let c = Cursor { position: nonce };
        let (bytes, _) = c.read_array::<32>(self.tx).unwrap();
        let blinded = blind_bid(self.made.value, &bytes);
        same_part(&blinded, 0, 32, self.coins, commitment, 32)
    }

    // The reveal's nonce and value give the bid's commitment.
    pub fn opening(self) -> Result<bool, Refusal>
        ensures { step_paper result ≡ opened self.entry.input (output_of self.entry.coins.now self.entry.spent) (output_of self.entry.tx.now self.entry.made) }
    {
        let nonce = self.made_item(2, 32).ok_or(malformed(self.input, 5))?;
        let commitment = self.spent_item(3, 32).ok_or(malformed(self.input, 6))?;
        if self.commits(nonce, commitment) {
            Ok(true)
        } else {
            Err(Refusal::BlindCommitmentMismatch { input: self.input })
        }
    }

    // Transfer to Finalize, its end: the output's address is the one that the transfer names in its items 2 and 3.
    pub fn destination(self) -> Result<bool, Refusal>
        ensures { step_paper result ≡ destined self.entry.input (output_of self.entry.coins.now self.entry.spent) (output_of self.entry.tx.now self.entry.made) }
    {
        let version = self.spent_item(2, 1).ok_or(malformed(self.input, 7))?;
        let c = Cursor {
            position: self.spent.covenant,
        };
        let hash = find(c, self.coins, 3).ok_or(malformed(self.input, 8))?;
        let named = Address {
            version: self.coins[version],
            start: hash.start,
            len: hash.len,
        };
        if same_address(self.tx, self.made.address, self.coins, named) {
            Ok(true)
        } else {
            Err(Refusal::TransferDestinationMismatch { input: self.input })
        }
    }
}
