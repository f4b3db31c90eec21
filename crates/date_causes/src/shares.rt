ghost use Rattle.std.specs.Prelude.{◌≡◌, ◌<◌, ◌^◌, All, IfOk};
ghost use Rattle.date_causes.specs.Shares.{shares, total};

use crate::link::Link;
use std::alloc::{AllocError, Global};

/// What the links add at each station.
pub(crate) fn shares_of(
    alloc: Global,
    links: &[Link],
    stations: u32,
) -> Result<Vec<u64>, AllocError>
    requires stations { All (λ l. l.station < stations) links.now }
    requires small { total links.now < 2 ^ 64 }
    ensures { IfOk result (λ list. list.items ≡ shares links.now stations) }
{
    let mut shares = vec![in alloc; 0; stations as usize]?;
    for link in links {
        shares[link.station as usize] += link.added;
    }
    Ok(shares)
}
