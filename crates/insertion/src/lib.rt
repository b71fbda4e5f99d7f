// A new entry comes into a cache store, as the most recently used, in the slot after those in use.
//
// The words and their count stand side by side where they are written: a struct that holds the words as `&mut` was tried, and
// once it is gone nothing says what became of the words that were lent to it.
#![tactic(auto)]

ghost use Rattle.std.specs.Prelude.{◌≡◌, ◌∷◌, suc, ◌/◌, ◌≤◌, ◌<◌};
ghost use Rattle.prefix.specs.Addresses.{ipv4_bits, prefix_bits};
ghost use Rattle.sizes.specs.BothStores.{limit_of};
ghost use Rattle.slots.specs.Layout.{entries_held, Shaped};
ghost use Rattle.entries.specs.Caches.{entries as heldEntries, Free, SoundEntries, Kept, Holds};
ghost use Rattle.entries.specs.Changed.{InStore};
ghost use Rattle.insertion.specs.Hangs.{forked, Beside, Hung};

use entries::entry::Entry;
use entries::{find, order};
use slots::view::Slots;

// An entry that overlaps no other, in the slot after those in use. There is room for it.
pub fn insert_entry(store: &mut [u32], entries: u32, new: Entry)
    requires shaped { Shaped store.old }
    requires held { entries ≡ entries_held store.old }
    requires room_left { entries < limit_of store.old }
    ensures kept { Kept store.old store.new (suc entries) }
    ensures holds { SoundEntries store.old → Free store.old (prefix_bits new.prefix) → Holds store.new (record { prefix = prefix_bits new.prefix; hop = new.hop } ∷ heldEntries store.old) }
{
    hang_entry(store, entries, new);
    order::push_front(store, entries + 1, entries + 1);
    slots::set_count(store, entries + 1);
}

// The entry in its slot and in the search trie. A number that no sound store has stops it.
fn hang_entry(store: &mut [u32], entries: u32, new: Entry)
    requires shaped { Shaped store.old }
    requires held { entries ≡ entries_held store.old }
    requires room_left { entries < limit_of store.old }
    ensures { Hung store.old store.new (prefix_bits new.prefix) new.hop }
{
    if entries == 0 {
        hang_first(store, new);
        return;
    }
    let held = Slots {
        store,
        count: entries,
    };
    let x = find::walk(held, new.prefix.address);
    if entries < x / 2 {
        return;
    }
    let cell = held.up_of(x);
    if entries < cell / 2 {
        return;
    }
    hang_beside(store, entries + 1, x, cell, new);
}

// The first entry has no branch: it hangs in the root cell.
fn hang_first(store: &mut [u32], new: Entry)
    requires slots { InStore store.old 1 }
    requires none_held { entries_held store.old ≡ 0 }
    ensures { Hung store.old store.new (prefix_bits new.prefix) new.hop }
{
    let p = new.prefix;
    slots::set_entry(store, 1, p.address.to_ipv4(), p.length, new.hop);
    slots::set_up(store, 2, 0);
    slots::set_child(store, 0, 2);
}

// The entry of slot s, in the cell of the node x, where the walk by its address stopped.
fn hang_beside(store: &mut [u32], s: u32, x: u32, cell: u32, new: Entry)
    requires beside { Beside store.old (ipv4_bits new.prefix.address) s x cell }
    ensures { Hung store.old store.new (prefix_bits new.prefix) new.hop }
{
    let p = new.prefix;
    let m = find::common_with(store, x / 2, p.address);
    slots::set_entry(store, s, p.address.to_ipv4(), p.length, new.hop);
    fork(store, s, find::side_of(p.address, s, m), cell, x, m);
}

// A branch of m bits, of slot s, in the cell: below it the slot's entry in its own cell, and the node x in the other.
fn fork(store: &mut [u32], s: u32, own: u32, cell: u32, x: u32, m: u32)
    requires slots { InStore store.old s }
    requires own_cell { own / 2 ≡ s }
    requires cell_in_use { cell / 2 ≤ s }
    requires node_in_use { x / 2 ≤ s }
    requires length_bound { m < 64 }
    ensures { store.new ≡ forked store.old s own cell x m }
{
    let other = 4 * s + 1 - own;
    slots::set_up(store, x, other);
    slots::set_up(store, 2 * s, own);
    slots::set_branch(store, s, cell, m);
    slots::set_child(store, other, x);
    slots::set_child(store, own, 2 * s);
    slots::set_child(store, cell, 2 * s + 1);
}
