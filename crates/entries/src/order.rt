// The order of use: a ring through all slots in use, from slot 0 by next to the most recently used first, and back to
// slot 0 from the least recently used. A number that no sound store has is left alone.
//
// The words and their count stand side by side where they are written: a struct that holds the words as `&mut` was tried, and
// once it is gone nothing says what became of the words that were lent to it.
ghost use Rattle.std.specs.Prelude.{◌≡◌, ◌∷◌, ◌≤◌, ◌<◌};
ghost use Rattle.lru_cache.specs.Changes.{unlink as unlinked, push_front, move_links};
ghost use Rattle.slots.specs.Layout.{entries_held, cache_of, Shaped};
ghost use Rattle.entries.specs.Caches.{Slot, entry_in, others_in, SoundEntries, Kept, Holds, Oldest, OldestOf};
ghost use Rattle.entries.specs.Changed.{InStore, Changed, Linked, between};

use slots::view::Slots;

// Slot k leaves the ring: its neighbours are each other's.
pub fn unlink(store: &mut [u32], entries: u32, k: u32)
    requires slots { InStore store.old entries }
    requires in_use { k ≤ entries }
    ensures { Changed entries store.old store.new (Linked entries store.old k) (unlinked (cache_of store.old) k) }
{
    let before = slots::prev_of(store, k);
    let after = slots::next_of(store, k);
    if entries < before {
        return;
    }
    if entries < after {
        return;
    }
    slots::set_next(store, before, after);
    slots::set_prev(store, after, before);
}

// Slot k, which is not in the ring, comes between two neighbours.
fn put_between(store: &mut [u32], entries: u32, before: u32, k: u32, after: u32)
    requires slots { InStore store.old entries }
    requires before_in_use { before ≤ entries }
    requires in_use { k ≤ entries }
    requires after_in_use { after ≤ entries }
    ensures { store.new ≡ between store.old before k after }
{
    slots::set_next(store, k, after);
    slots::set_next(store, before, k);
    slots::set_prev(store, k, before);
    slots::set_prev(store, after, k);
}

// Slot k, which is not in the ring, comes first. There are so many slots.
pub fn push_front(store: &mut [u32], entries: u32, k: u32)
    requires slots { InStore store.old entries }
    requires in_use { k ≤ entries }
    ensures { Changed entries store.old store.new ((cache_of store.old).next 0 ≤ entries) (push_front (cache_of store.old) k) }
{
    let first = slots::next_of(store, 0);
    if entries < first {
        return;
    }
    put_between(store, entries, 0, k, first);
}

// The entry of slot k becomes the most recently used.
pub fn to_front(store: &mut [u32], entries: u32, k: u32)
    requires shaped { Shaped store.old }
    requires held { entries ≡ entries_held store.old }
    requires slot { Slot store.old k }
    ensures kept { Kept store.old store.new entries }
    ensures holds { SoundEntries store.old → Holds store.new (entry_in store.old k ∷ others_in store.old k) }
{
    unlink(store, entries, k);
    push_front(store, entries, k);
}

// Slot t, which is not in the ring, takes the place of slot s.
pub fn take_place(store: &mut [u32], entries: u32, s: u32, t: u32)
    requires slots { InStore store.old entries }
    requires in_use { s ≤ entries }
    requires place_in_use { t ≤ entries }
    ensures { Changed entries store.old store.new (Linked entries store.old s) (move_links (cache_of store.old) s t) }
{
    let before = slots::prev_of(store, s);
    let after = slots::next_of(store, s);
    if entries < before {
        return;
    }
    if entries < after {
        return;
    }
    put_between(store, entries, before, t, after);
}

// The slot in which the order of use ends: of a sound store that holds an entry, that of the least recently used one.
pub fn oldest(store: &[u32]) -> u32
    requires shaped { Shaped store.now }
    ensures { SoundEntries store.now → 0 < entries_held store.now → Oldest store.now result }
{
    slots::prev_of(store, 0)
}

// The slot of the least recently used entry, if there is one.
pub fn last_used(slots: Slots) -> Option<u32>
    ensures { OldestOf slots.entry.store.now result }
{
    let last = oldest(slots.store);
    if last == 0 || slots.count < last {
        return None;
    }
    Some(last)
}
