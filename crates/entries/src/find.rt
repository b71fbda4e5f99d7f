// The entry that contains an address, or the one that comes nearest.
ghost use Rattle.std.specs.Prelude.{◌≡◌, false, ◌/◌, ◌≤◌, ◌<◌, get_or};
ghost use Rattle.prefix.specs.Addresses.{address_bits, ipv4_bits};
ghost use Rattle.sizes.specs.Sizes.{largest_limit};
ghost use Rattle.sizes.specs.BothStores.{Room};
ghost use Rattle.lru_cache.specs.Slots.{cell_of};
ghost use Rattle.entries.specs.Caches.{NearestTo};
ghost use Rattle.entries.specs.Walks.{CommonWith, BranchCovers, Turned, Walked};

use prefix::{Address, HALF};
use sizes::slot;
use slots::view::Slots;

// No entry contains the address: one more than the most bits that any has in common with it, or 0 where there is none.
#[derive(Clone, Copy, Debug, PartialEq, Eq)]
pub struct Absent {
    pub past: u32,
}

// The leading bits that x has in common with the entry of slot i.
pub fn common_with(store: &[u32], i: u32, x: Address) -> u32
    requires room { Room store.now i }
    ensures { CommonWith store.now i (ipv4_bits x) result }
{
    x.common_bits::<HALF>(slot::address_of(store, i), slots::length_of(store, i))
}

// Whether the branch of slot i, whose prefix is the first m bits of the slot's address, contains x.
fn branch_covers(slots: Slots, i: u32, m: u32, x: Address) -> bool
    requires in_use { i ≤ slots.count }
    requires length_bound { m < 64 }
    ensures { BranchCovers slots.entry.store.now i m (ipv4_bits x) result }
{
    slots.address_of(i).covers::<HALF>(m, x)
}

// The cell of slot i's branch on the side of bit m of x.
pub fn side_of(x: Address, i: u32, m: u32) -> u32
    requires slot_bound { i ≤ largest_limit }
    requires length_bound { m < 64 }
    ensures on_side { result ≡ cell_of i (get_or (address_bits x) m false) }
    ensures of_slot { result / 2 ≡ i }
{
    2 * i + x.bit_at::<HALF>(m)
}

// One node: below a branch that contains the address, the node on the address's side; else the walk ends here.
fn step(slots: Slots, x: Address, at: u32) -> Option<u32>
    ensures { Turned slots.entry.store.now (ipv4_bits x) at result }
{
    let i = at / 2;
    if at % 2 == 0 || slots.count < i {
        return None;
    }
    let m = slots.branch_length(i);
    if !branch_covers(slots, i, m, x) {
        return None;
    }
    Some(slots.child_of(side_of(x, i, m)))
}

// The node where the walk from the root by the bits of x stops: its slot's entry has the most leading bits in common with
// x. On an unsound store, any number.
pub fn walk(slots: Slots, x: Address) -> u32
    ensures { Walked slots.entry.store.now (ipv4_bits x) result }
{
    let mut at = slots.child_of(0);
    for _ in 0..33u32 {
        let Some(next) = step(slots, x, at) else {
            return at;
        };
        at = next;
    }
    at
}

// The slot of the entry that contains x. A number that no sound store has is answered as if there were no entry.
pub fn find_entry(slots: Slots, x: Address) -> Result<u32, Absent>
    ensures { NearestTo slots.entry.store.now (ipv4_bits x) result }
{
    if slots.count == 0 {
        return Err(Absent { past: 0 });
    }
    let slot = walk(slots, x) / 2;
    if slot == 0 || slots.count < slot {
        return Err(Absent { past: 0 });
    }
    let n = slots.length_of(slot);
    if 32 < n {
        return Err(Absent { past: 0 });
    }
    let shared = common_with(slots.store, slot, x);
    if shared < n {
        return Err(Absent { past: shared + 1 });
    }
    Ok(slot)
}
