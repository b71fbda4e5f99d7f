// The cached entries over lent words: found by address, kept in their order of use. The words and their layout are the crate
// slots'. Its functions are for the crates above: they take a view of the slots, or the count from a header that fits the store.
#![tactic(auto)]

ghost use Rattle.std.specs.Prelude.{◌≤◌};
ghost use Rattle.model.specs.Model.{highest_hop};
ghost use Rattle.slots.specs.Layout.{entries_held, Shaped};
ghost use Rattle.entries.specs.Caches.{Slot, SoundEntries, Kept, Rehops};

pub mod entry;
pub mod find;
pub mod order;

// The entry of slot k takes another hop, and nothing else changes.
pub fn give_hop(store: &mut [u32], k: u32, hop: u32)
    requires shaped { Shaped store.old }
    requires slot { Slot store.old k }
    requires legal_hop { hop ≤ highest_hop }
    ensures kept { Kept store.old store.new (entries_held store.old) }
    ensures rehops { SoundEntries store.old → Rehops store.old store.new k hop }
{
    slots::set_hop(store, k, hop)
}
