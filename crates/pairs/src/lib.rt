// The public check of a pair of stores that the caller lends: the table, the cache in itself, and each entry against the routes.
#![tactic(auto)]

ghost use Rattle.std.specs.Prelude.{◌≡◌, ◌≤◌, ◌<◌};
ghost use Rattle.model.specs.Demands.{Covered};
ghost use Rattle.table.specs.Tables.{routes, SoundTable};
ghost use Rattle.entries.specs.Caches.{entry_in, SoundEntries};
ghost use Rattle.cache.specs.Checks.{Decides};
ghost use Rattle.pairs.specs.Pairs.{PairChecked};

use slots::view::Slots;

pub fn check_pair(table: &[u32], cache: &[u32]) -> bool
    ensures { PairChecked table.now cache.now result }
{
    if !table::check(table) {
        return false;
    }
    if !cache::check::check_entries(cache) {
        return false;
    }
    let Ok(slots) = Slots::open(cache) else {
        return false;
    };
    all_covered(table, slots)
}

// Whether every entry is right by the routes: one look at each slot.
fn all_covered(table: &[u32], slots: Slots) -> bool
    requires sound_table { SoundTable table.now }
    requires sound_entries { SoundEntries slots.store.now }
    ensures { PairChecked table.now slots.entry.store.now result }
{
    for i in 1..=slots.count {
        if !covered(table, slots, i) {
            return false;
        }
    }
    true
}

// Whether slot i's entry has a covering route, no route strictly inside, and its match's hop.
fn covered(table: &[u32], slots: Slots, i: u32) -> bool
    requires sound_table { SoundTable table.now }
    requires sound_entries { SoundEntries slots.store.now }
    requires an_entry { 0 < i }
    requires in_use { i ≤ slots.count }
    ensures { Decides (Covered (routes table.now) (entry_in slots.entry.store.now i)) result }
{
    let s = search::judge(table, slots.address_of(i), slots.length_of(i));
    let Some(found) = s.found else {
        return false;
    };
    if s.inside {
        return false;
    }
    slots.hop_of(i) == found.hop
}
