// The records of a journal, which come to a cabinet one after another, and what is told of each.
ghost use Rattle.std.specs.Prelude.{◌≡◌, ℕ, List, IfOk, string_bytes};
ghost use Rattle.tables.specs.Books.{Book, book_of};
ghost use Rattle.journal.specs.Entries.{Entry, entry, entries};
ghost use Rattle.replay.specs.Driving.{data_of};
ghost use Rattle.replay.specs.declared.driving.Effect.{Effect as Did};
ghost use Rattle.accounts.specs.Journeys.{after_all, told_all};
ghost use Rattle.accounts.specs.Traces.{after_entry, record_text};

use journal::record::Record;
use replay::driving::{Cabinet, Effect};
use std::alloc::{AllocError, Global};
use tables::tables::Tables;

// How a record is told: by its count, what it was, what came of it, and the tables after it.
pub(crate) trait Telling {
    ghost text: { Self → ℕ → Entry → Did → Book → List ℕ };

    fn tell(
        &self,
        heap: Global,
        count: usize,
        record: Record<'_>,
        effect: Effect,
        tables: &Tables,
    ) -> Result<String, AllocError>
        ensures { IfOk result (λ s. string_bytes s ≡ text self.now count (entry «record».entry) effect (book_of tables.now)) };
}

fn told_record<T: Telling>(
    telling: &T,
    heap: Global,
    count: usize,
    cabinet: &mut Cabinet,
    record: Record<'_>,
) -> Result<String, AllocError>
    ensures text { IfOk result (λ s. string_bytes s ≡ record_text (T.text telling.now) count (data_of cabinet.old) (entry «record».entry)) }
    ensures after { data_of cabinet.new ≡ after_entry (data_of cabinet.old) (entry «record».entry) }
{
    let effect = cabinet.perform(record);
    telling.tell(heap, count, record, effect, cabinet.tables())
}

pub(crate) fn told_records<T: Telling>(
    telling: &T,
    heap: Global,
    cabinet: &mut Cabinet,
    records: &[Record<'_>],
) -> Result<String, AllocError>
    ensures { IfOk result (λ s. (string_bytes s ≡ told_all after_entry (record_text (T.text telling.now)) 1 (data_of cabinet.old) (entries records.now)) × (data_of cabinet.new ≡ after_all after_entry (data_of cabinet.old) (entries records.now))) }
{
    let mut text = String::new(heap);
    for (k, record) in records.iter().enumerate() {
        let row = told_record(telling, heap, k + 1, cabinet, *record)?;
        text.push_str(row.as_str())?;
    }
    Ok(text)
}
