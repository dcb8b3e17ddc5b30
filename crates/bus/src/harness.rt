// A bus for tests of what stands above: it always shows the same nodes.
ghost use Rattle.std.specs.Prelude.{◌≡◌, ◌+◌, ◌^◌, ◌≤◌, Some, None, MatchResult};
ghost use Rattle.bus.specs.Harnesses.{harness_shows, no_harness, fixed_model};
ghost use Rattle.std.proofs.Common.{rules, arith};

use crate::Bus;
use notes::in_range;
use reader::ids::{Eui64, NodeId};
use reader::refusal::Refusal;

/// The EUI-64s from `base` on at the `count` node IDs from FFC0h on.
#[derive(Clone, Copy)]
pub struct Harness {
    base: u64,
    count: u16,
    ghost count_fits: { (1 ≤ count) × (count ≤ 63) },
    ghost base_fits: { base + 65 ≤ 2 ^ 64 },
}

impl Harness {
    pub fn new(base: u64, count: u16) -> Result<Harness, Refusal>
        ensures { MatchResult result (λ h. (no_harness base count ≡ None) × (h.base ≡ base) × (h.count ≡ count)) (λ e. no_harness base count ≡ Some e) }
    {
        in_range((1..=63).contains(&count), u64::from(count))?;
        // the highest base is 2^64 - 65
        in_range(base <= u64::MAX - 64, base)?;
        Ok(Harness { base, count })
    }
}

impl Bus for Harness {
    ghost model = { fixed_model (λ h. harness_shows h.base h.count) };

    ghost lawful = { first_of (Prim.search rules, Prim.grind (arith, Self.row.coded.inj)) };

    fn own_id(&self) -> NodeId {
        NodeId(0xFFC0)
    }

    fn who(&self, node: NodeId) -> Option<Eui64> {
        if node.0 >= 0xFFC0 && node.0 < 0xFFC0 + self.count {
            Some(Eui64(self.base + u64::from(node.0 - 0xFFC0)))
        } else {
            None
        }
    }

    fn find(&self, eui: Eui64) -> Option<NodeId> {
        if eui.0 >= self.base && eui.0 - self.base < u64::from(self.count) {
            Some(NodeId(0xFFC0 + (eui.0 - self.base) as u16))
        } else {
            None
        }
    }

    fn reset(&mut self) {}

    fn net_update(&mut self) {}

    fn note(&mut self, node: NodeId, _eui: Option<Eui64>) -> Result<(), Refusal> {
        Err(Refusal::OutOfRange(u64::from(node.0)))
    }
}
