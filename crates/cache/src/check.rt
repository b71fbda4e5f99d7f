// Whether a cache store is sound in itself: one look at each slot, and one round of the ring of use.
ghost use Rattle.std.specs.Prelude.{◌≡◌, ◌%◌, ◌/◌, ◌≤◌, ◌<◌};
ghost use Rattle.prefix.specs.Bits.{one?};
ghost use Rattle.lru_cache.specs.Sound.{Live, InUse, Ring};
ghost use Rattle.lru_cache.specs.Checks.{Hangs, RootOk};
ghost use Rattle.sizes.specs.BothStores.{slot_word, word};
ghost use Rattle.slots.specs.Layout.{cache_of};
ghost use Rattle.cache.specs.Calls.{EntriesChecked};
ghost use Rattle.cache.specs.Checks.{Decides, Longer, GoesOn, CellFine, BranchFine, SlotFine};

use prefix::HALF;
use slots::view::Slots;

pub fn check_entries(store: &[u32]) -> bool
    ensures { EntriesChecked store.now result }
{
    let Ok(slots) = Slots::open(store) else {
        return false;
    };
    if !root_ok(slots) {
        return false;
    }
    for i in 1..=slots.count {
        if !slot_ok(slots, i) {
            return false;
        }
    }
    ring_ok(slots)
}

// Whether the ring leads from slot 0 through every slot in use once and back, and prev undoes each step.
fn ring_ok(slots: Slots) -> bool
    ensures { Decides (Ring slots.entry.count (cache_of slots.entry.store.now)) result }
{
    let mut at: u32 = 0;
    for k in 0..=slots.count {
        let next = slots.next_of(at);
        if slots.count < next || slots.prev_of(next) != at {
            return false;
        }
        if next == 0 {
            return k == slots.count;
        }
        at = next;
    }
    false
}

// Whether the root cell is empty where there are no entries, and else points at a node in use that points back.
fn root_ok(slots: Slots) -> bool
    ensures { Decides (RootOk slots.entry.count (cache_of slots.entry.store.now)) result }
{
    if slots.count == 0 {
        return slots.child_of(0) == 0;
    }
    child_ok(slots, 0, 0)
}

// Whether slot i is as it should be: its entry's length and cell, and but for slot 1 its branch.
fn slot_ok(slots: Slots, i: u32) -> bool
    requires of_entry { 0 < i }
    requires in_use { i ≤ slots.count }
    ensures { Decides (SlotFine slots.entry.store.now i) result }
{
    slots.length_of(i) <= 32 && hangs(slots, 2 * i) && (i == 1 || branch_ok(slots, i))
}

// Whether the branch of slot i is shorter than the entry, hangs in a cell, and leads to a node on each side.
fn branch_ok(slots: Slots, i: u32) -> bool
    requires of_entry { 0 < i }
    requires in_use { i ≤ slots.count }
    requires short { word slots.store.now (slot_word i 1) % 64 ≤ 32 }
    ensures { Decides (BranchFine slots.entry.store.now i) result }
{
    slots.branch_length(i) < slots.length_of(i)
        && hangs(slots, 2 * i + 1)
        && child_ok(slots, i, 0)
        && child_ok(slots, i, 1)
}

// Whether node x hangs in a cell in use, which points at it.
fn hangs(slots: Slots, x: u32) -> bool
    requires in_use { x / 2 ≤ slots.count }
    ensures { Decides (Hangs slots.entry.count (cache_of slots.entry.store.now) x) result }
{
    let cell = slots.up_of(x);
    cell_ok(slots.count, cell) && slots.child_of(cell) == x
}

// Whether a cell is in use: the root's, or one of a branch.
fn cell_ok(entries: u32, cell: u32) -> bool
    ensures { Decides (InUse entries cell) result }
{
    cell == 0 || (4 <= cell && cell / 2 <= entries)
}

// Whether a node is in use: an entry, or a branch of a slot but the first.
fn node_ok(entries: u32, x: u32) -> bool
    ensures { Decides (Live entries x) result }
{
    2 <= x && x != 3 && x / 2 <= entries
}

// Whether what the cell of slot i on a side points at is a node in use that points back, and goes on from the branch.
fn child_ok(slots: Slots, i: u32, side: u32) -> bool
    requires in_use { i ≤ slots.count }
    requires one_side { side ≤ 1 }
    ensures { Decides (CellFine slots.entry.store.now i (one? side)) result }
{
    let cell = 2 * i + side;
    let x = slots.child_of(cell);
    if !node_ok(slots.count, x) || slots.up_of(x) != cell {
        return false;
    }
    i == 0 || goes_on(slots, i, side, x)
}

// Whether node x is longer than the branch of slot i, begins with it, and goes on with the side.
fn goes_on(slots: Slots, i: u32, side: u32, x: u32) -> bool
    requires in_use { i ≤ slots.count }
    requires node_in_use { x / 2 ≤ slots.count }
    requires one_side { side ≤ 1 }
    ensures { Decides (GoesOn slots.entry.store.now i (one? side) x) result }
{
    let m = slots.branch_length(i);
    if !longer(slots, x, m) {
        return false;
    }
    let a = slots.address_of(x / 2);
    a.bit_at::<HALF>(m) == side && slots.address_of(i).covers::<HALF>(m, a)
}

// Whether node x and its slot's entry have more than m bits.
fn longer(slots: Slots, x: u32, m: u32) -> bool
    requires in_use { x / 2 ≤ slots.count }
    ensures { Decides (Longer slots.entry.store.now m x) result }
{
    if 31 < m || slots.length_of(x / 2) <= m {
        return false;
    }
    x % 2 == 0 || m < slots.branch_length(x / 2)
}
