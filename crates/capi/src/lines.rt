// The report lines, into lent memory.
ghost use Rattle.std.specs.Prelude.{◌≡◌};
ghost use Rattle.words.specs.Buffers.{laid};
ghost use Rattle.encoding.specs.Wire.{put_answer};
ghost use Rattle.reports.specs.Link.{link_line};
ghost use Rattle.reports.specs.Name.{name_line};
ghost use Rattle.capi.specs.Flat.{write_flat};

use crate::WriteAnswer;
use reports::link::link_line;
use reports::name::name_line;

pub fn turgamysk_link_line(tx: &[u8], coins: &[u8], out: &mut [u8]) -> WriteAnswer
    ensures value { result ≡ write_flat (put_answer 0 (link_line tx.now coins.now) out.old) }
    ensures out_after { out.new ≡ laid 0 (link_line tx.now coins.now) out.old }
{
    WriteAnswer::from(link_line(tx, coins, out))
}

pub fn turgamysk_name_line(file: &[u8], out: &mut [u8]) -> WriteAnswer
    ensures value { result ≡ write_flat (put_answer 0 (name_line file.now) out.old) }
    ensures out_after { out.new ≡ laid 0 (name_line file.now) out.old }
{
    WriteAnswer::from(name_line(file, out))
}
