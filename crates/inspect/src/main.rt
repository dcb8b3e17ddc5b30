// Shows the journal on standard input in words, one line for each record.
#![tactic(auto)]

use std::io::Read;
use words::lines::journal_words;

fn main(rt: HostRuntime) -> anyhow::Result<()> {
    let mut bytes = Vec::new(rt.alloc());
    rt.stdin().read_to_end(&mut bytes)?;
    let text = journal_words(rt.alloc(), bytes.as_slice())?;
    print!(rt; "{text}")?;
    Ok(())
}
