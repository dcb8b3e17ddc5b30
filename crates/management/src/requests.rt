// Every request, from the test of the response area on.
ghost use Rattle.std.specs.Prelude.{◌≡◌, ◌≤◌, length};
ghost use Rattle.responses.specs.Writing.{smallest_area};
ghost use Rattle.rules.specs.Runs.{Step, scene};
ghost use Rattle.rules.specs.Scenes.{stored};
ghost use Rattle.rules.specs.Serving.{unknown, by_function, outcome};
ghost use Rattle.rules.specs.declared.calls.Call.TheVariants.{Request as Asked};
ghost use Rattle.management.specs.Serving.{Serves, in_area, answer_told};
ghost use Rattle.management.specs.Parts.{snapshot_of};

use crate::asking::Initiator;
use crate::parts::ManagementAgent;
use access::Access;
use bus::Bus;
use reader::ids::NodeId;
use reader::refusal::Refusal;
use reader::request::{Function, Request};
use responses::writing::SMALLEST_AREA;

impl<B: Bus, A: Access> ManagementAgent<B, A> {
    /// Serves a request from a node: the number of bytes stored at the front of the response area, whose other bytes
    /// keep their values, or a refusal, which changes nothing.
    pub fn serve(
        &mut self,
        source: NodeId,
        request: &Request,
        response: &mut [u8],
    ) -> Result<usize, Refusal>
        ensures served { Serves (snapshot_of self.old) (in_area response.old (outcome (scene B.Bus.model A.Access.model (snapshot_of self.old)) source request.now)) result (snapshot_of self.new) }
        ensures area { response.new ≡ stored response.old (in_area response.old (outcome (scene B.Bus.model A.Access.model (snapshot_of self.old)) source request.now)) }
        ensures step { smallest_area ≤ length response.old → Step B.Bus.model A.Access.model (snapshot_of self.old) (Asked source request.now) (answer_told result) (snapshot_of self.new) }
    {
        let length = response.len();
        let Some(front) = response.first_chunk_mut::<SMALLEST_AREA>() else {
            return Err(Refusal::ResponseArea(length));
        };
        self.serve_in(source, request, front)
    }

    // With room for every response.
    fn serve_in(
        &mut self,
        source: NodeId,
        request: &Request,
        response: &mut [u8; SMALLEST_AREA],
    ) -> Result<usize, Refusal>
        ensures served { Serves (snapshot_of self.old) (outcome (scene B.Bus.model A.Access.model (snapshot_of self.old)) source request.now) result (snapshot_of self.new) }
        ensures area { response.new ≡ stored response.old (outcome (scene B.Bus.model A.Access.model (snapshot_of self.old)) source request.now) }
        ensures whole { length response.new ≡ smallest_area }
    {
        if request.rq_fmt != 0 || is_unknown(request.function) {
            return Err(Refusal::RequestTypeNotSupported);
        }
        let Some(eui_64) = self.bus.who(source) else {
            return Err(Refusal::Unspecified(source));
        };
        let from = Initiator {
            node: source,
            eui_64,
        };
        self.serve_function(from, request, response)
    }

    fn serve_function(
        &mut self,
        from: Initiator,
        request: &Request,
        response: &mut [u8; SMALLEST_AREA],
    ) -> Result<usize, Refusal>
        ensures served { Serves (snapshot_of self.old) (by_function request.now.function (scene B.Bus.model A.Access.model (snapshot_of self.old)) from.node from.eui_64 request.now) result (snapshot_of self.new) }
        ensures area { response.new ≡ stored response.old (by_function request.now.function (scene B.Bus.model A.Access.model (snapshot_of self.old)) from.node from.eui_64 request.now) }
    {
        match request.function {
            Function::Login if request.update => self.update(from.node, request, response),
            Function::Login => self.login(from, request, response),
            Function::QueryLogins => self.query(request, response),
            Function::Reconnect => self.reconnect(from, request),
            Function::NodeHandle => self.node_handle(from.node, request, response),
            Function::Logout => self.logout(from.node, request),
            Function::Unknown(_) => Err(Refusal::RequestTypeNotSupported),
        }
    }
}

fn is_unknown(function: Function) -> bool
    ensures { result ≡ unknown function }
{
    matches!(function, Function::Unknown(_))
}
