// What a request meets. A request and its response area are passed side by side: a struct of both would hold a loan, which
// each function would take apart again. How it is served stands apart, with the definitions that name this type.
use access::Access;
use bus::Bus;
use tables::tables::Tables;

/// The bus, the access list and the tables of a target. Whoever holds it may change each of them; a target lets nobody.
#[derive(Drop)]
pub struct ManagementAgent<B: Bus, A: Access> {
    pub bus: B,
    pub list: A,
    pub tables: Tables,
}
