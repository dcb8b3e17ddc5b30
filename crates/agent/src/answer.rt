// Answering an exchange, with the link byte at 1 for as long as it takes.
ghost use Rattle.std.specs.Prelude.{◌≡◌, ◌≤◌, length, IsOk};
ghost use Rattle.responses.specs.Writing.{smallest_area};
ghost use Rattle.rules.specs.Runs.{Step, scene};
ghost use Rattle.rules.specs.Scenes.{stored};
ghost use Rattle.rules.specs.Serving.{outcome};
ghost use Rattle.rules.specs.declared.calls.Call.TheVariants.{Request as Asked};
ghost use Rattle.agent.specs.Answers.{checked, Answers};
ghost use Rattle.management.specs.Serving.{Serves, answer_told};
ghost use Rattle.agent.specs.Targets.{snapshot_of};

use crate::exchange::{Answered, Signalled};
use crate::steps::status;
use crate::target::Target;
use access::Access;
use bus::Bus;
use reader::ids::NodeId;
use reader::refusal::Refusal;
use reader::request::Request;
use responses::writing::SMALLEST_AREA;

// The lent link byte, which is 1 while the guard lives; its end gives back what the byte was.
struct LinkGuard<'a> {
    byte: &'a mut u8,
    before: u8,
}

impl Drop for LinkGuard<'_> {
    fn drop(self)
        ensures { self.exit.0.now ≡ self.entry.before }
    {
        *self.byte = self.before;
        let LinkGuard { byte: _, before: _ } = self;
    }
}

impl<'a> LinkGuard<'a> {
    fn hold(byte: &'a mut u8) -> LinkGuard<'a>
        ensures held { result.byte.now ≡ 1 }
        ensures former { result.before ≡ byte.old }
        ensures tied { result.byte.ghost_name ≡ byte.entry.ghost_name }
    {
        let before = *byte;
        *byte = 1;
        LinkGuard { byte, before }
    }

    // Serves a request; the link byte is 1 meanwhile.
    fn serve<B: Bus, A: Access>(
        &self,
        target: &mut Target<B, A>,
        source: NodeId,
        request: &Request,
        response: &mut [u8],
    ) -> Result<usize, Refusal>
        requires byte_value { self.now.byte.now ≡ 1 }
        requires smallest_area_in_bounds { smallest_area ≤ length response.old }
        ensures served { Serves (snapshot_of target.old) (outcome (scene B.Bus.model A.Access.model (snapshot_of target.old)) source request.now) result (snapshot_of target.new) }
        ensures area { response.new ≡ stored response.old (outcome (scene B.Bus.model A.Access.model (snapshot_of target.old)) source request.now) }
        ensures step { Step B.Bus.model A.Access.model (snapshot_of target.old) (Asked source request.now) (answer_told result) (snapshot_of target.new) }
    {
        target.serve(source, request, response)
    }
}

// The request to be served: its length is tested first, and then that of the response area.
fn checked(request: &[u8], response: &[u8]) -> Result<Request, Refusal>
    ensures value { result ≡ checked request.now response.now }
    ensures fits { IsOk result → smallest_area ≤ length response.now }
{
    let fields = Request::read(request)?;
    if response.len() < SMALLEST_AREA {
        return Err(Refusal::ResponseArea(response.len()));
    }
    Ok(fields)
}

impl Signalled {
    /// Serves the request that the station has, and tells beside the exchange how: the number of bytes stored, or the
    /// refusal whose number its status will be. Too long or short a request, and then too small a response area, is
    /// refused before all else.
    pub fn answer<B: Bus, A: Access>(
        self,
        target: &mut Target<B, A>,
        request: &[u8],
        response: &mut [u8],
        link: &mut u8,
    ) -> Result<(Answered, Result<usize, Refusal>), (Refusal, Signalled)>
        ensures answers { Answers B.Bus.model A.Access.model self request.now response.old (snapshot_of target.old) result (snapshot_of target.new) response.new }
        ensures link { link.new ≡ link.old }
    {
        let guard = LinkGuard::hold(link);
        // A closure for map_err would keep the exchange, which is taken apart below.
        let fields = match checked(request, response) {
            Ok(fields) => fields,
            Err(refusal) => return Err((refusal, self)),
        };
        let Signalled {
            closed,
            source,
            orb_address,
        } = self;
        let served = guard.serve(target, source, &fields, response);
        let answered = Answered {
            closed,
            orb_address,
            status: status(served),
            notify: fields.notify,
        };
        Ok((answered, served))
    }
}
