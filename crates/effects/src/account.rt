// What a record was, what it drew and the tables after it, in words.
ghost use Rattle.std.specs.Prelude.{◌≡◌, IfOk, string_bytes};
ghost use Rattle.tables.specs.Books.{book_of};
ghost use Rattle.journal.specs.Entries.{entry};
ghost use Rattle.effects.specs.Account.{shown_tables, account_text};

use crate::drawn::drawn_words;
use crate::holders::tables_words;
use journal::record::Record;
use reader::refusal::Refusal;
use std::alloc::{AllocError, Global};
use tables::tables::Tables;
use words::lines::record_line;

// The tables if they are asked for.
fn shown_tables(heap: Global, shown: bool, tables: &Tables) -> Result<String, AllocError>
    ensures { IfOk result (λ s. string_bytes s ≡ shown_tables shown (book_of tables.now)) }
{
    if shown {
        tables_words(heap, tables)
    } else {
        Ok(String::new(heap))
    }
}

// What came of the record is given in parts: a type here would hold the same again as the effect of the crate above.
/// A record, what it drew, and if they are asked for the tables after it.
pub fn account_lines(
    heap: Global,
    shown: bool,
    count: usize,
    record: Record<'_>,
    refusal: Option<Refusal>,
    response: &[u8],
    tables: &Tables,
) -> Result<String, AllocError>
    ensures { IfOk result (λ s. string_bytes s ≡ account_text shown count (entry «record».entry) refusal response.now (book_of tables.now)) }
{
    let line = record_line(heap, count, record)?;
    let drawn = drawn_words(heap, record, refusal, response)?;
    let book = shown_tables(heap, shown, tables)?;
    format!(in heap; "{line}       -> {drawn}\n{book}")
}
