// The account of a journal that is run through a new cabinet.
ghost use Rattle.std.specs.Prelude.{◌≡◌, IfOk, string_bytes};
ghost use Rattle.accounts.specs.Accounts.{effect_account, Accounted};

use crate::records::{Telling, told_records};
use effects::account::account_lines;
use journal::reading::read_journal;
use journal::record::Record;
use replay::driving::{Cabinet, Effect};
use std::alloc::{AllocError, Global};
use tables::tables::Tables;
use words::lines::end_words;

// In words, with the tables after each record if they are asked for.
#[derive(Clone, Copy)]
struct InWords {
    shown: bool,
}

impl Telling for InWords {
    ghost text = { λ t. effect_account t.shown };

    fn tell(
        &self,
        heap: Global,
        count: usize,
        record: Record<'_>,
        effect: Effect,
        tables: &Tables,
    ) -> Result<String, AllocError> {
        let refusal = effect.answer.err();
        let response = effect.response();
        account_lines(heap, self.shown, count, record, refusal, response, tables)
    }
}

/// Each record of a journal, what it drew from a new cabinet, and if they are asked for the tables after it; then why
/// reading stopped, if it did.
pub fn account(heap: Global, bytes: &[u8], shown: bool) -> Result<String, AllocError>
    ensures { IfOk result (λ s. Accounted shown bytes.now (string_bytes s)) }
{
    let journal = read_journal(heap, bytes)?;
    let mut cabinet = Cabinet::new();
    let records = journal.records.as_slice();
    let mut text = told_records(&InWords { shown }, heap, &mut cabinet, records)?;
    let end = end_words(heap, &journal)?;
    text.push_str(end.as_str())?;
    Ok(text)
}
