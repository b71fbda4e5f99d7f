// A table store lent to be read, whose header fits it: what a reading of a node has to know of the store. The cache's slots have
// a view of their own, since other facts hold of their header and other words are read. A node in use is a number with a fact
// beside it: a type for it would have to hold the store again.
ghost use Rattle.std.specs.Prelude.{◌≡◌, ◌≤◌, ◌/◌, IfOk, OnErr, take};
ghost use Rattle.prefix.specs.Bits.{bits};
ghost use Rattle.prefix.specs.Addresses.{address_bits};
ghost use Rattle.sizes.specs.BothStores.{slot_word, word};
ghost use Rattle.nodes.specs.Layout.{nodes_of, route_count, cell_word, Shaped};

use prefix::Address;
use sizes::refusal::Unsound;
use sizes::slot;

#[derive(Clone, Copy)]
pub struct Nodes<'a> {
    pub store: &'a [u32],
    // the nodes in use
    pub count: u32,
    pub ghost shaped: { Shaped store.now },
    pub ghost counted: { count ≡ nodes_of store.now },
}

impl<'a> Nodes<'a> {
    ghost use Rattle.nodes.specs.Stores.{node_in};

    pub fn open(store: &'a [u32]) -> Result<Nodes<'a>, Unsound>
        ensures same { IfOk result (λ nodes. nodes.store.now ≡ store.now) }
        ensures refused { OnErr result (¬ (Shaped store.now)) }
    {
        let header = crate::read_header(store)?;
        Ok(Nodes {
            store,
            count: header.nodes,
        })
    }

    pub fn routes(self) -> u32
        ensures { result ≡ route_count self.entry.store.now }
    {
        self.store[crate::ROUTES]
    }

    // The readings below are the crate's own, of a node in use. An update has no view, since it changes the store between them.

    pub fn address_of(self, p: u32) -> Address
        requires { p ≤ self.count }
        ensures { take 32 (address_bits result) ≡ bits 32 (word self.entry.store.now (slot_word p 0)) }
    {
        slot::address_of(self.store, p)
    }

    pub fn length_of(self, p: u32) -> u32
        requires { p ≤ self.count }
        ensures { result ≡ word self.entry.store.now (slot_word p 1) }
    {
        crate::length_of(self.store, p)
    }

    pub fn mark_of(self, p: u32) -> u32
        requires { p ≤ self.count }
        ensures { result ≡ word self.entry.store.now (slot_word p 2) }
    {
        crate::mark_of(self.store, p)
    }

    pub fn up_of(self, p: u32) -> u32
        requires { p ≤ self.count }
        ensures { result ≡ word self.entry.store.now (slot_word p 5) }
    {
        crate::up_of(self.store, p)
    }

    pub fn child_of(self, cell: u32) -> u32
        requires { cell / 2 ≤ self.count }
        ensures { result ≡ word self.entry.store.now (cell_word cell) }
    {
        crate::child_of(self.store, cell)
    }

    pub fn node_at(self, p: u32) -> crate::Node
        requires { p ≤ self.count }
        ensures { result ≡ node_in self.entry.store.now p }
    {
        crate::node_at(self.store, p)
    }
}
