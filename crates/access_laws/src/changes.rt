// Notes come true: on any access list by its model, on a known one by value, and as a law of each.
ghost use Rattle.std.specs.Prelude.{◌≡◌};
ghost use Rattle.access_laws.specs.Changes.{AdmittedAfterChange, first_admitted};
ghost use Rattle.access_laws.specs.Following.{Follows, pair_next, PairNotes, maker_next, MakerNotes, StopsFollow};
ghost use Rattle.access.specs.Makers.{maker_model};
ghost use Rattle.access.specs.Pairs.{pair_model};

use access::Access;
use access::pairs::{PairNote, PairTable};
use access::stops::{StopList, StopNote};
use reader::ids::Eui64;

/// Notes something, and says whether an EUI-64 may log in to a unit after the next access change.
pub fn admitted_after_change<A: Access>(list: &mut A, note: A::Note, eui: Eui64, unit: u16) -> bool
    ensures { AdmittedAfterChange A.Access.model list.old note eui unit result list.new }
{
    let _ = list.note(note);
    list.change();
    list.admits(eui, unit)
}

/// The same at a new stop list with one stop, on a new pair table.
pub fn admitted_on_a_new_list(pair: PairNote, stopped: Eui64, eui: Eui64, unit: u16) -> bool
    ensures { result ≡ first_admitted pair stopped eui unit }
{
    let mut list = StopList::new(PairTable::new());
    let stop = StopNote::Stop {
        eui_64: stopped,
        stopped: true,
    };
    let _ = list.note(stop);
    admitted_after_change(&mut list, StopNote::Below(pair), eui, unit)
}

/// What is noted on a pair table comes true. The contract is the law, and there is nothing to run.
pub fn pair_table_follows_notes()
    ensures follows { Follows pair_model pair_next }
    ensures notes { PairNotes }
{}

/// The same of a maker list.
pub fn maker_list_follows_notes()
    ensures follows { Follows maker_model maker_next }
    ensures notes { MakerNotes }
{}

/// The same of a stop list, wherever it is so of the list below.
pub fn stop_list_follows_notes<A: Access>()
    ensures { StopsFollow A.Access.model }
{}
