// The link verifier over two sheets.
ghost use Rattle.std.specs.Prelude.{◌≡◌};
ghost use Rattle.links.specs.Verify.{verify_of};
ghost use Rattle.capi.specs.Linkage.{links_flat};

use capi::linkage::LinksAnswer;

#[unsafe(no_mangle)]
pub extern "C" fn turgamysk_verify_covenant_links(tx: &[u8], coins: &[u8]) -> LinksAnswer
    ensures { result ≡ links_flat (verify_of tx.now coins.now) }
{
    capi::linkage::turgamysk_verify_covenant_links(tx, coins)
}
