// Sheets: a head, then inputs and outputs, or coins, read over lent bytes with a cursor.
#![tactic(auto)]

pub mod viewer;

ghost use Rattle.std.specs.Prelude.{◌≡◌, true, eqb};
ghost use Rattle.words.specs.Buffers.{pick};
ghost use Rattle.refusal.specs.Outcome.{many_at, past};
ghost use Rattle.refusal.specs.Paper.{standing};
ghost use Rattle.refusal.specs.declared.Refusal.{Refusal};
ghost use Rattle.encoding.specs.Paper.{read_paper, moved_paper};
ghost use Rattle.sheets.specs.Sheet.{head_fields, input_at, place_body_at, place_at, gap, coin_at, ledger_at, transaction_counts, coin_counts, pair_counts};
ghost use Rattle.sheets.specs.Paper.{sheet_head_paper, counts_paper, sheet_paper, pair_paper};
ghost use Rattle.sheets.specs.Workers.{opened_at, coin_output, PassedEach};

use covenants::Covenant;
use encoding::read::{Cursor, Read};
use primitives::{Dollarydoos, Outpoint, TransactionHash};
use refusal::{Refusal, Stop};

// A sheet has at most so many bytes.
const LONGEST: usize = 16_777_216;

// The version of every sheet.
pub const VERSION: u8 = 1;

// An address: its version, and where its hash stands and how long it is.
#[derive(Clone, Copy)]
pub struct Address {
    pub version: u8,
    pub start: usize,
    pub len: usize,
}

// An output: its value, its address, and where its covenant stands and of what kind it is.
#[derive(Clone, Copy)]
pub struct Place {
    pub value: Dollarydoos,
    pub address: Address,
    pub covenant: usize,
    pub kind: u8,
}

// How many inputs and outputs a transaction sheet has; or how many coins a coin sheet has, and 0.
#[derive(Clone, Copy)]
pub struct Counts {
    pub inputs: usize,
    pub outputs: usize,
}

// How many inputs and outputs a transaction sheet has, and how many coins the coin sheet.
#[derive(Clone, Copy)]
pub struct PairCounts {
    pub inputs: usize,
    pub outputs: usize,
    pub coins: usize,
}

// The error of a sheet: the refusal, and which sheet is refused.
#[derive(Clone, Copy, PartialEq, Eq)]
pub struct SheetStop {
    pub refusal: Refusal,
    pub side: u8,
}

// A head: the sheet's version, and how many inputs (or coins) and outputs it has.
#[derive(Clone, Copy)]
struct Head {
    version: u8,
    first: usize,
    outputs: usize,
}

// A wrong fixed field, which begins at `offset`.
fn wrong_field(side: u8, offset: usize) -> Stop
    ensures { (result.refusal ≡ Refusal.SheetField side offset) × (standing result ≡ offset) }
{
    Stop {
        refusal: Refusal::SheetField { side, offset },
        position: offset,
    }
}

// Only a coin sheet must have no outputs.
fn outputs_allowed(side: u8, outputs: u32) -> bool
    ensures { result ≡ pick (eqb side 1) (eqb outputs 0) true }
{
    side != 1 || outputs == 0
}

// The head's fields, from its 32 bits.
#[tactic(auto, unfolding(crate::specs::Sheet::head_fields))]
fn head_fields(side: u8, n: u32, next: Cursor) -> Read<Head>
    ensures { sheet_head_paper result ≡ head_fields side n next.position }
{
    let version = n >> 28;
    let outputs = (n >> 6) % 1024;
    if version != 1 {
        return Err(wrong_field(side, 0));
    }
    if (n >> 26) % 4 != u32::from(side) {
        return Err(wrong_field(side, 0));
    }
    if !outputs_allowed(side, outputs) {
        return Err(wrong_field(side, 2));
    }
    if n % 64 != 0 {
        return Err(wrong_field(side, 3));
    }
    let head = Head {
        version: version as u8,
        first: ((n >> 16) % 1024) as usize,
        outputs: outputs as usize,
    };
    Ok((head, next))
}

// The length of a sheet, and then its head.
#[tactic(auto, unfolding(crate::specs::Workers::opened_at, crate::specs::Sheet::sheet_head_at))]
fn opened(s: &[u8], side: u8) -> Read<Head>
    ensures { sheet_head_paper result ≡ opened_at side s.now }
{
    if LONGEST < s.len() {
        let length = s.len();
        return Err(Stop {
            refusal: Refusal::SheetTooLong { side, length },
            position: 0,
        });
    }
    let start = Cursor { position: 0 };
    let (fields, next) = start.read_array::<4>(s)?;
    head_fields(side, u32::from_be_bytes(fields), next)
}

// The outpoint of an input or a coin: its 36 bytes are one fixed read.
#[tactic(auto, using(crate::proofs::Reading::part_fits), unfolding(crate::specs::Sheet::input_at))]
pub fn input_at(c: Cursor, s: &[u8]) -> Read<Outpoint>
    ensures { read_paper result ≡ input_at s.now c.position }
{
    let at = c.position;
    let (_, next) = c.read_slice(s, 36)?;
    let outpoint = Outpoint {
        transaction_hash: TransactionHash(s[at..at + 32].try_into().unwrap()),
        index: u32::from_be_bytes(s[at + 32..at + 36].try_into().unwrap()),
    };
    Ok((outpoint, next))
}

// The hash and the covenant of an output.
#[tactic(auto, unfolding(crate::specs::Sheet::place_body_at))]
fn place_body(c: Cursor, s: &[u8], value: u64, version: u8, size: usize) -> Read<Place>
    ensures { read_paper result ≡ place_body_at value version size s.now c.position }
{
    let (hash, covenant) = c.read_slice(s, size)?;
    let (accepted, end) = Covenant::read(covenant, s, Covenant::MAX_ENCODED_SIZE)?;
    let address = Address {
        version,
        start: hash.start,
        len: hash.len,
    };
    let place = Place {
        value: Dollarydoos(value),
        address,
        covenant: covenant.position,
        kind: accepted.kind,
    };
    Ok((place, end))
}

// An output: the 10 bytes before its hash are one fixed read.
#[tactic(auto, using(crate::proofs::Reading::part_fits), unfolding(crate::specs::Sheet::place_at))]
pub fn place_at(c: Cursor, s: &[u8], side: u8) -> Read<Place>
    ensures { read_paper result ≡ place_at side s.now c.position }
{
    let at = c.position;
    let (_, next) = c.read_slice(s, 10)?;
    let last = s[at + 9];
    if last >> 6 != 0 {
        return Err(wrong_field(side, at + 9));
    }
    let value = u64::from_be_bytes(s[at..at + 8].try_into().unwrap());
    place_body(next, s, value, s[at + 8], (last % 64) as usize)
}

// An outpoint is passed.
#[tactic(auto, unfolding(crate::specs::Sheet::input_at))]
fn pass_input(c: Cursor, s: &[u8]) -> Result<Cursor, Stop>
    ensures { moved_paper result ≡ past (input_at s.now c.position) }
{
    let (_, next) = c.read_slice(s, 36)?;
    Ok(next)
}

// An output is passed.
fn pass_output(c: Cursor, s: &[u8], side: u8) -> Result<Cursor, Stop>
    ensures { moved_paper result ≡ past (place_at side s.now c.position) }
{
    let (_, next) = place_at(c, s, side)?;
    Ok(next)
}

// How many bytes a sheet of the version has between a coin's outpoint and its output.
pub fn gap_of(version: u8) -> usize
    ensures { result ≡ gap version }
{
    0
}

// A coin's outpoint is passed, and what its version puts after it.
#[tactic(auto, unfolding(crate::specs::Workers::coin_output))]
pub(crate) fn pass_to_output(c: Cursor, s: &[u8], version: u8) -> Result<Cursor, Stop>
    ensures { moved_paper result ≡ coin_output version s.now c.position }
{
    let next = pass_input(c, s)?;
    let position = next.position + gap_of(version);
    Ok(Cursor { position })
}

// A coin is passed.
fn pass_coin(c: Cursor, s: &[u8], version: u8) -> Result<Cursor, Stop>
    ensures { moved_paper result ≡ past (coin_at version s.now c.position) }
{
    pass_output(pass_to_output(c, s, version)?, s, 1)
}

// So many things are passed, one after the other, each by `pass`.
fn pass_many<F: Fn(Cursor) -> Result<Cursor, Stop>>(
    from: Cursor,
    n: usize,
    pass: F,
) -> Result<Cursor, Stop>
    requires { F.IsAlwaysCallable pass }
    ensures { PassedEach (F.post pass) from n result }
{
    let mut c = from;
    for _ in 0..n {
        c = pass(c)?;
    }
    Ok(c)
}

pub(crate) fn pass_coins(from: Cursor, s: &[u8], version: u8, n: usize) -> Result<Cursor, Stop>
    ensures { moved_paper result ≡ past (many_at (coin_at version s.now) n from.position) }
{
    pass_many(from, n, |c| pass_coin(c, s, version))
}

// Inputs and outputs, which stand after the head of a transaction sheet, are passed.
pub(crate) fn ledger(from: Cursor, s: &[u8], inputs: usize, outputs: usize) -> Result<Cursor, Stop>
    ensures { moved_paper result ≡ past (ledger_at s.now (inputs, outputs) from.position) }
{
    let first_output = pass_many(from, inputs, |c| pass_input(c, s))?;
    pass_many(first_output, outputs, |c| pass_output(c, s, 0))
}

// A refused sheet: the side, and no position.
fn refused(stop: Stop, side: u8) -> SheetStop
    ensures { (result.refusal ≡ stop.refusal) × (result.side ≡ side) }
{
    SheetStop {
        refusal: stop.refusal,
        side,
    }
}

// A transaction sheet, read to its end.
fn count_transaction(s: &[u8]) -> Result<Counts, Stop>
    ensures { counts_paper 0 result ≡ transaction_counts s.now }
{
    let (head, next) = opened(s, 0)?;
    let end = ledger(next, s, head.first, head.outputs)?;
    end.finish(s)?;
    Ok(Counts {
        inputs: head.first,
        outputs: head.outputs,
    })
}

// A coin sheet, read to its end.
fn count_coins(s: &[u8]) -> Result<Counts, Stop>
    ensures { counts_paper 1 result ≡ coin_counts s.now }
{
    let (head, next) = opened(s, 1)?;
    let end = pass_coins(next, s, head.version, head.first)?;
    end.finish(s)?;
    Ok(Counts {
        inputs: head.first,
        outputs: 0,
    })
}

// A transaction sheet, judged whole.
pub fn judge_transaction(s: &[u8]) -> Result<Counts, SheetStop>
    ensures { sheet_paper result ≡ transaction_counts s.now }
{
    count_transaction(s).map_err(|stop| refused(stop, 0))
}

// A coin sheet, judged whole.
pub fn judge_coins(s: &[u8]) -> Result<Counts, SheetStop>
    ensures { sheet_paper result ≡ coin_counts s.now }
{
    count_coins(s).map_err(|stop| refused(stop, 1))
}

// The transaction sheet is judged whole, then the coin sheet.
pub fn judge_pair(tx: &[u8], coins: &[u8]) -> Result<PairCounts, SheetStop>
    ensures { pair_paper result ≡ pair_counts tx.now coins.now }
{
    let transaction = judge_transaction(tx)?;
    let coin_sheet = judge_coins(coins)?;
    Ok(PairCounts {
        inputs: transaction.inputs,
        outputs: transaction.outputs,
        coins: coin_sheet.inputs,
    })
}
