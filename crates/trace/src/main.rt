// Runs the journal on standard input through a new cabinet, and shows all that each record did, for other programs.
#![tactic(auto)]

use accounts::tracing::trace_journal;
use std::io::Read;

fn main(rt: HostRuntime) -> anyhow::Result<()> {
    let mut bytes = Vec::new(rt.alloc());
    rt.stdin().read_to_end(&mut bytes)?;
    let text = trace_journal(rt.alloc(), bytes.as_slice())?;
    print!(rt; "{text}")?;
    Ok(())
}
