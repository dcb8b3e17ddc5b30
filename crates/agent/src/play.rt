// Any call, and any calls one after another from a new target on, under the law.
ghost use Rattle.std.specs.Prelude.{IfOk};
ghost use Rattle.rules.specs.Runs.{Step};
ghost use Rattle.agent.specs.Plays.{LawAbiding};
ghost use Rattle.agent.specs.Targets.{snapshot_of, new_snapshot};

use crate::target::Target;
use access::Access;
use bus::Bus;
use responses::writing::SMALLEST_AREA;
use rules::calls::{Answer, Call};
use rules::laws::law_holds_over_every_run;
use std::alloc::{AllocError, Global};

/// A target after some calls, and what each of them was answered.
#[derive(Drop)]
pub struct Played<B: Bus, A: Access> {
    pub target: Target<B, A>,
    pub answers: Vec<Answer>,
}

impl<B: Bus, A: Access> Target<B, A> {
    /// Makes a call; the response of a request is let go.
    pub fn make(&mut self, call: Call<A::Note>) -> Answer
        ensures { Step B.Bus.model A.Access.model (snapshot_of self.old) call result (snapshot_of self.new) }
    {
        match call {
            Call::Request(source, request) => {
                let mut response = [0; SMALLEST_AREA];
                self.serve(source, &request, &mut response)?;
            }
            Call::BusNote(node, eui) => self.bus_note(node, eui)?,
            Call::AccessNote(note) => self.access_note(note)?,
            Call::BusReset => self.bus_reset(),
            Call::NetUpdate => self.net_update(),
            Call::Gap => self.gap(),
            Call::Tick => self.tick(),
            Call::AccessChange => self.access_change(),
        }
        Ok(())
    }
}

/// Makes the calls one after another on a new target. The law holds after every one of them, over whatever bus and access
/// list, in whatever state they are.
pub fn play<B: Bus + Drop, A: Access + Drop>(
    heap: Global,
    bus: B,
    list: A,
    calls: &[Call<A::Note>],
) -> Result<Played<B, A>, AllocError>
where
    A::Note: Copy,
    ensures { IfOk result (λ p. LawAbiding B.Bus.model A.Access.model (new_snapshot bus list) calls.now p.answers.items (snapshot_of p.target)) }
{
    law_holds_over_every_run::<B, A>();
    let mut target = Target::new(bus, list);
    let mut answers = Vec::new(heap);
    for call in calls {
        let answer = target.make(*call);
        answers.push(answer)?;
    }
    Ok(Played { target, answers })
}
