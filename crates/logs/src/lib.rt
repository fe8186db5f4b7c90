// What a link log says, and what its replay finds: an entry, and a log beside its network, as structs; definitions and their theory. No function.
#![tactic(auto)]

ghost use Rattle.flows.specs.Network.{WellFormed};
ghost use Rattle.network.specs.Held.{model_of};
ghost use Rattle.logs.specs.Columns.{Given};

use network::Network;

// Hops log what they took: so many blocks entered the link in the slot.
#[derive(Clone, Copy, Debug, PartialEq, Eq)]
pub struct Entry {
    pub link: u32,
    pub slot: u32,
    pub blocks: u32,
}

// An entry with the stamp that its slot was told by.
#[derive(Clone, Copy, Debug, PartialEq, Eq)]
pub struct Stamped {
    pub stamp: u32,
    pub entry: Entry,
}

// A network within the limits and the entries of a log of it, both lent: what the tests of a log look at.
#[derive(Clone, Copy)]
pub struct NetworkLog<'a> {
    pub network: &'a Network,
    pub entries: &'a [Entry],
    pub ghost formed: { WellFormed (model_of network.now) },
    pub ghost given: { Given network.now.count entries.now },
}
