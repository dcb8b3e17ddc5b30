// A new cabinet: a portal over a local bus, and a stop list over a pair table, all empty.
ghost use Rattle.std.specs.Prelude.{◌≡◌, IfOk};
ghost use Rattle.bus.specs.LocalBuses.{local_tables};
ghost use Rattle.bus.specs.Portals.{portal_tables};
ghost use Rattle.access.specs.Pairs.{pair_tables};
ghost use Rattle.access.specs.Stops.{stop_tables};
ghost use Rattle.replay.specs.Cabinets.{new_cabinet, answers};

use crate::calls::CabinetCall;
use access::pairs::PairTable;
use access::stops::StopList;
use agent::play::play;
use bus::local::LocalBus;
use bus::portal::Portal;
use reader::ids::Eui64;
use rules::calls::Answer;
use std::alloc::{AllocError, Global};

const OWN_EUI: Eui64 = Eui64(1);

pub(crate) fn new_bus() -> Portal<LocalBus>
    ensures local { local_tables result.below ≡ new_cabinet.local }
    ensures portal { portal_tables result ≡ new_cabinet.portal }
{
    Portal::new(LocalBus::new(OWN_EUI))
}

pub(crate) fn new_list() -> StopList<PairTable>
    ensures pairs { pair_tables result.below ≡ new_cabinet.pairs }
    ensures stops { stop_tables result ≡ new_cabinet.stops }
{
    StopList::new(PairTable::new())
}

/// What a new cabinet answers to calls, one after another.
pub fn answers(heap: Global, calls: &[CabinetCall]) -> Result<Vec<Answer>, AllocError>
    ensures { IfOk result (λ v. v.items ≡ answers new_cabinet calls.now) }
{
    let bus = new_bus();
    let list = new_list();
    let played = play(heap, bus, list, calls)?;
    Ok(played.answers)
}
