// An entry leaves a cache store. Entries fill the slots 1 to n without gaps: when one goes, the entry whose branch has no more
// use moves into its slot, and the last slot into that one's. A number that no sound store has is left alone.
//
// The words and their count stand side by side where they are written: a struct that holds the words as `&mut` was tried, and
// once it is gone nothing says what became of the words that were lent to it.
#![tactic(auto)]

ghost use Rattle.std.specs.Prelude.{◌≡◌, ◌-◌, ◌/◌, ◌%◌, ◌<◌, ◌≤◌};
ghost use Rattle.prefix.specs.Bits.{one?};
ghost use Rattle.lru_cache.specs.Slots.{set_entry};
ghost use Rattle.lru_cache.specs.Changes.{prune as pruned, move_entry, move_branch, fill_entry, fill_slot, remove_at};
ghost use Rattle.slots.specs.Layout.{entries_held, cache_of, Shaped, Plain};
ghost use Rattle.entries.specs.Caches.{Slot, SoundEntries, Kept, Removes};
ghost use Rattle.entries.specs.Changed.{InStore, Changed};
ghost use Rattle.removal.specs.Removal.{Tidy, hung, branched, Gone};

use entries::order;
use sizes::slot;

// A node hangs in a cell.
fn hang(store: &mut [u32], entries: u32, cell: u32, x: u32)
    requires slots { InStore store.old entries }
    ensures { Changed entries store.old store.new ((cell / 2 ≤ entries) × (x / 2 ≤ entries)) (hung (cache_of store.old) cell x) }
{
    if entries < cell / 2 {
        return;
    }
    if entries < x / 2 {
        return;
    }
    slots::set_child(store, cell, x);
    slots::set_up(store, x, cell);
}

// The branch of the cell is cut out with the cell's node: its other node takes its place.
fn prune(store: &mut [u32], entries: u32, cell: u32)
    requires slots { InStore store.old entries }
    requires branch_cell { 1 < cell / 2 }
    requires cell_in_use { cell / 2 ≤ entries }
    ensures { Changed entries store.old store.new (Tidy entries store.old) (pruned (cache_of store.old) (cell / 2) (one? (cell % 2))) }
{
    let j = cell / 2;
    let other = slots::child_of(store, 2 * j + (1 - cell % 2));
    let above = slots::up_of(store, 2 * j + 1);
    hang(store, entries, above, other);
}

// Slot t gets the prefix and the hop of slot s.
fn copy_entry(store: &mut [u32], entries: u32, s: u32, t: u32)
    requires slots { InStore store.old entries }
    requires of_entry { 0 < s }
    requires in_use { s ≤ entries }
    requires place_in_use { t ≤ entries }
    ensures { Changed entries store.old store.new (Plain store.old entries) (set_entry (cache_of store.old) t ((cache_of store.old).entry s) ((cache_of store.old).hop s)) }
{
    let n = slots::length_of(store, s);
    if 32 < n {
        return;
    }
    let a = slot::address_of(store, s).to_ipv4();
    let hop = slots::hop_of(store, s);
    slots::set_entry(store, t, a, n, hop);
}

// The entry of slot s goes to slot t.
fn move_entry(store: &mut [u32], entries: u32, s: u32, t: u32)
    requires slots { InStore store.old entries }
    requires of_entry { 0 < s }
    requires in_use { s ≤ entries }
    requires place_in_use { t ≤ entries }
    ensures { Changed entries store.old store.new (Tidy entries store.old) (move_entry (cache_of store.old) s t) }
{
    let cell = slots::up_of(store, 2 * s);
    copy_entry(store, entries, s, t);
    hang(store, entries, cell, 2 * t);
    order::take_place(store, entries, s, t);
}

// Slot t has a branch of m bits in the cell, and two nodes below it.
fn put_branch(store: &mut [u32], entries: u32, t: u32, left: u32, right: u32, cell: u32, m: u32)
    requires slots { InStore store.old entries }
    requires place_in_use { t ≤ entries }
    requires length_bound { m < 64 }
    requires left_in_use { left / 2 ≤ entries }
    requires right_in_use { right / 2 ≤ entries }
    requires cell_in_use { cell / 2 ≤ entries }
    ensures { store.new ≡ branched store.old t left right cell m }
{
    slots::set_child(store, 2 * t, left);
    slots::set_child(store, 2 * t + 1, right);
    slots::set_child(store, cell, 2 * t + 1);
    slots::set_up(store, left, 2 * t);
    slots::set_up(store, right, 2 * t + 1);
    slots::set_branch(store, t, cell, m);
}

// The branch of slot s goes to slot t.
fn move_branch(store: &mut [u32], entries: u32, s: u32, t: u32)
    requires slots { InStore store.old entries }
    requires has_branch { 1 < s }
    requires in_use { s ≤ entries }
    requires place_in_use { t ≤ entries }
    ensures { Changed entries store.old store.new (Tidy entries store.old) (move_branch (cache_of store.old) s t) }
{
    let left = slots::child_of(store, 2 * s);
    if entries < left / 2 {
        return;
    }
    let right = slots::child_of(store, 2 * s + 1);
    if entries < right / 2 {
        return;
    }
    let cell = slots::up_of(store, 2 * s + 1);
    if entries < cell / 2 {
        return;
    }
    let m = slots::branch_length(store, s);
    put_branch(store, entries, t, left, right, cell, m);
}

// The free slot t gets the entry of slot s, unless that is the free one.
fn fill_entry(store: &mut [u32], entries: u32, s: u32, t: u32)
    requires slots { InStore store.old entries }
    requires of_entry { 0 < s }
    requires in_use { s ≤ entries }
    requires place_in_use { t ≤ entries }
    ensures { Changed entries store.old store.new (Tidy entries store.old) (fill_entry (cache_of store.old) s t) }
{
    if s == t {
        return;
    }
    move_entry(store, entries, s, t);
}

// The free slot t gets the last slot's entry and branch, unless that is the free one.
fn fill_slot(store: &mut [u32], entries: u32, t: u32)
    requires slots { InStore store.old entries }
    requires several { 1 < entries }
    requires place_in_use { t ≤ entries }
    ensures { Changed entries store.old store.new (Tidy entries store.old) (fill_slot (cache_of store.old) entries t) }
{
    if entries == t {
        return;
    }
    move_entry(store, entries, entries, t);
    move_branch(store, entries, entries, t);
}

// The entry of slot k, which hangs in the cell of a branch: the branch's own entry moves into its slot, and the last slot
// into the branch's.
fn remove_beside(store: &mut [u32], entries: u32, k: u32, cell: u32)
    requires slots { InStore store.old entries }
    requires in_use { k ≤ entries }
    requires branch_cell { 1 < cell / 2 }
    requires cell_in_use { cell / 2 ≤ entries }
    ensures { Changed entries store.old store.new (Tidy entries store.old) (remove_at (cache_of store.old) entries k (cell / 2) (one? (cell % 2))) }
{
    prune(store, entries, cell);
    order::unlink(store, entries, k);
    fill_entry(store, entries, cell / 2, k);
    fill_slot(store, entries, cell / 2);
}

// The entry of slot k leaves the slots, but not their count.
fn take_out(store: &mut [u32], entries: u32, k: u32)
    requires slots { InStore store.old entries }
    requires of_entry { 0 < k }
    requires in_use { k ≤ entries }
    ensures { Gone entries store.old store.new k }
{
    if entries == 1 {
        order::unlink(store, entries, k);
        slots::set_child(store, 0, 0);
        return;
    }
    let cell = slots::up_of(store, 2 * k);
    if cell / 2 < 2 {
        return;
    }
    if entries < cell / 2 {
        return;
    }
    remove_beside(store, entries, k, cell);
}

// The entry of slot k.
pub fn remove_entry(store: &mut [u32], entries: u32, k: u32)
    requires shaped { Shaped store.old }
    requires held { entries ≡ entries_held store.old }
    requires slot { Slot store.old k }
    ensures kept { Kept store.old store.new (entries - 1) }
    ensures removes { SoundEntries store.old → Removes store.old store.new k }
{
    take_out(store, entries, k);
    slots::set_count(store, entries - 1);
}
