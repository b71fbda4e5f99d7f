// A cache store lent to be read, whose header fits it: what a reading of a slot has to know of the store. The table's nodes have
// a view of their own, since other facts hold of their header and other words are read.
ghost use Rattle.std.specs.Prelude.{◌≡◌, ◌≤◌, ◌/◌, ◌%◌, IfOk, OnErr, take};
ghost use Rattle.prefix.specs.Bits.{bits};
ghost use Rattle.prefix.specs.Addresses.{address_bits};
ghost use Rattle.sizes.specs.BothStores.{slot_word, word};
ghost use Rattle.slots.specs.Layout.{entries_held, cell_word, up_in, Shaped};

use prefix::Address;
use sizes::refusal::Unsound;
use sizes::slot;

#[derive(Clone, Copy)]
pub struct Slots<'a> {
    pub store: &'a [u32],
    // the entries held
    pub count: u32,
    pub ghost shaped: { Shaped store.now },
    pub ghost counted: { count ≡ entries_held store.now },
}

impl<'a> Slots<'a> {
    pub fn open(store: &'a [u32]) -> Result<Slots<'a>, Unsound>
        ensures same { IfOk result (λ slots. slots.store.now ≡ store.now) }
        ensures refused { OnErr result (¬ (Shaped store.now)) }
    {
        let header = crate::read_header(store)?;
        Ok(Slots {
            store,
            count: header.entries,
        })
    }

    pub fn address_of(self, i: u32) -> Address
        requires { i ≤ self.count }
        ensures { take 32 (address_bits result) ≡ bits 32 (word self.entry.store.now (slot_word i 0)) }
    {
        slot::address_of(self.store, i)
    }

    pub fn length_of(self, i: u32) -> u32
        requires { i ≤ self.count }
        ensures { result ≡ word self.entry.store.now (slot_word i 1) % 64 }
    {
        crate::length_of(self.store, i)
    }

    pub fn hop_of(self, i: u32) -> u32
        requires { i ≤ self.count }
        ensures { result ≡ word self.entry.store.now (slot_word i 1) / 64 }
    {
        crate::hop_of(self.store, i)
    }

    pub fn prev_of(self, i: u32) -> u32
        requires { i ≤ self.count }
        ensures { result ≡ word self.entry.store.now (slot_word i 2) }
    {
        crate::prev_of(self.store, i)
    }

    pub fn next_of(self, i: u32) -> u32
        requires { i ≤ self.count }
        ensures { result ≡ word self.entry.store.now (slot_word i 3) }
    {
        crate::next_of(self.store, i)
    }

    pub fn child_of(self, cell: u32) -> u32
        requires { cell / 2 ≤ self.count }
        ensures { result ≡ word self.entry.store.now (cell_word cell) }
    {
        crate::child_of(self.store, cell)
    }

    pub fn branch_length(self, i: u32) -> u32
        requires { i ≤ self.count }
        ensures { result ≡ word self.entry.store.now (slot_word i 7) % 64 }
    {
        crate::branch_length(self.store, i)
    }

    pub fn up_of(self, x: u32) -> u32
        requires { x / 2 ≤ self.count }
        ensures { result ≡ up_in self.entry.store.now x }
    {
        crate::up_of(self.store, x)
    }
}
