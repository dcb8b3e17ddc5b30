// What follows from the rules. A function here has nothing to run: its contract is the law.
ghost use Rattle.std.specs.Prelude.{◌+◌, true, false};
ghost use Rattle.reader.specs.declared.refusal.Refusal.{Refusal};
ghost use Rattle.rules.specs.Law.{Law, LawAfterRuns};
ghost use Rattle.rules.specs.Holds.{restart, gap};
ghost use Rattle.rules.specs.Laws.{ChangesNothing, ReservesOnly, LeavesReserved};
ghost use Rattle.rules.specs.Runs.{New};

use access::Access;
use bus::Bus;

/// A refused request leaves the tables and the response area as they were.
pub fn refusal_changes_nothing()
    ensures { (r : Refusal) → ChangesNothing (Err r) }
{}

/// No call but a reset or a net update makes a login reserved.
pub fn only_restarts_reserve<B: Bus, A: Access>()
    ensures { ReservesOnly B.Bus.model A.Access.model restart }
{}

/// No request but a granted reconnect of it touches a reserved login.
pub fn only_its_reconnect_touches_a_reserved_login<B: Bus, A: Access>()
    ensures { LeavesReserved B.Bus.model A.Access.model false }
{}

/// In every run of calls from a new target, over every bus and every access list. Claims: an exclusive holder is its unit's
/// only holder, no initiator holds a unit twice, and the list admits every holder. Handles: each handle in use belongs to an
/// aware holder, each aware holder has exactly one own handle, with its owner's EUI-64, and wherever a holder has an owner ID
/// or a handle a node ID, the bus shows its EUI-64 there. Holds: a login that a reset or a net update left reserved stays so,
/// with its record, until it is reconnected, an access change no longer admits it, or hold + 2 ticks have come after the first
/// gap, and no longer; hold is that of its last granted login or update.
pub fn law_holds_over_every_run<B: Bus, A: Access>()
    ensures law { Law New (λ hold. hold + 2) B.Bus.model A.Access.model }
    ensures after { LawAfterRuns (λ hold. hold + 2) B.Bus.model A.Access.model New }
{}
