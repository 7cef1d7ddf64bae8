ghost use Rattle.std.specs.Prelude.{◌≡◌, ◌≢◌, ◌<◌, ◌^◌, length, map, Err, IfOk, OnOk, ◌++◌, ◌∷◌, []};
ghost use Rattle.coin_history.specs.Bundles.{HasFirstItem, IsBundle, bundle_text};
ghost use Rattle.node_rules.specs.Kept.{kept_of, links_handed};
ghost use Rattle.node_rules.specs.KeptCoins.{IsShown};

use coin_history::{Bundle, HistoryRefusal, Openings, check_tagged};
use plasma_base::{Bytes, Hash32, NoMemory};
use plasma_tx::{Link, Links, RawOpening, RootLog};
use std::alloc::Global;

/// The links of the history of a coin whose bundle was handed in as bytes, for a chain with this tag. What is
/// kept of them is read back from its bytes. It refuses as `Bundle::read`, and then as `check_tagged`;
/// `NoMemory` may come in place of each where the bytes have a first item.
pub fn links_handed<H: Hash32>(
    alloc: Global,
    h: &H,
    tag: &[u8; 32],
    log: &RootLog,
    bytes: &[u8],
) -> Result<Links, HistoryRefusal>
    ensures value { result ≢ Err HistoryRefusal.NoMemory
        → result ≡ links_handed (H.digest_of h.now) tag.now log.now.log bytes.now }
    ensures memory { result ≡ Err HistoryRefusal.NoMemory → HasFirstItem bytes.now }
    ensures spelled { IfOk result (λ links. IsBundle (kept_of links)) }
    ensures shown { IfOk result (IsShown (H.digest_of h.now) tag.now) }
{
    let bundle = match Bundle::read(alloc, bytes) {
        Ok(bundle) => bundle,
        Err(why) => return Err(why),
    };
    match check_tagged(alloc, h, tag, log, &bundle) {
        Ok(links) => Ok(links),
        Err(why) => Err(why),
    }
}

// The openings of links, copied.
fn openings_of(alloc: Global, links: &[Link]) -> Result<Vec<RawOpening>, NoMemory>
    ensures { IfOk result (λ openings. openings.items ≡ map (λ link. link.opening) links.now) }
{
    let mut openings = Vec::with_capacity(alloc, links.len())?;
    for link in links {
        openings.push(link.opening.copy()?)?;
    }
    Ok(openings)
}

/// The record of a kept coin: this mark, and the bundle of the openings that show the links.
pub fn kept_text(alloc: Global, mark: u8, links: &Links) -> Result<Bytes, NoMemory>
    requires { IsBundle (kept_of links.now) }
    ensures { IfOk result (λ body. body ≡ mark ∷ bundle_text (kept_of links.now)) }
{
    let openings = openings_of(alloc, links.spends.as_slice())?;
    let bundle = Bundle {
        coin: links.coin,
        tip: links.tip(),
        openings: Openings::from_vec(openings),
    };
    let mut body = Vec::new(alloc);
    body.push(mark)?;
    bundle.write(&mut body)?;
    Ok(Bytes::from_vec(body))
}
