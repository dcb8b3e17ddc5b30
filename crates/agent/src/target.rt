// A target. What it does stands apart, with the definitions that name this type.
use access::Access;
use bus::Bus;
use management::parts::ManagementAgent;

/// A target over its bus and its access list, which nothing but its own calls touches.
#[derive(Drop)]
pub struct Target<B: Bus, A: Access> {
    pub(crate) agent: ManagementAgent<B, A>,
}
