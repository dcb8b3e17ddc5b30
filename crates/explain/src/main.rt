// Runs the journal on standard input through a new cabinet, and shows in words what each record was and what it drew.
// The argument `tables` asks for the holders and the node handles after each record.
#![tactic(auto)]

use accounts::accounting::account;
use std::env;
use std::io::Read;

fn asks_for_tables(rt: &HostRuntime) -> anyhow::Result<bool> {
    let mut words = env::args(rt)?;
    Ok(words.nth(1).is_some_and(|word| word.as_str() == "tables"))
}

fn main(rt: HostRuntime) -> anyhow::Result<()> {
    let mut bytes = Vec::new(rt.alloc());
    rt.stdin().read_to_end(&mut bytes)?;
    let shown = asks_for_tables(&rt)?;
    let text = account(rt.alloc(), bytes.as_slice(), shown)?;
    print!(rt; "{text}")?;
    Ok(())
}
