// A cache of prefixes in a lent store. Every call here takes any content of the store and any argument: it reads the header
// itself, and a refusal leaves every word as it was. What the calls are made of is below: the crate entries has the entries over
// their words, insertion and removal the ways in and out.
#![tactic(auto)]

ghost use Rattle.std.specs.Prelude.{◌≡◌};
ghost use Rattle.prefix.specs.Addresses.{ipv4_bits};
ghost use Rattle.model.specs.Demands.{Hop};
ghost use Rattle.cache.specs.Calls.{CacheSetUp, Finds, OldestIs, Placed, Touched, Inserted, Removed, HopGiven};
ghost use Rattle.cache.specs.Checks.{Decides};
ghost use Rattle.cache.specs.declared.FindError.{FindError};

use entries::entry::Entry;
use entries::find::Absent;
use prefix::Address;
use prefix::ipv4::Prefix;
use sizes::SetupError;
use sizes::refusal::Unsound;
use slots::view::Slots;

pub mod check;

// No entry is found for an address: none contains it, and then one more than the most bits that any has in common with it, 0
// where there is none; or the header does not fit its store.
#[derive(Clone, Copy, Debug, PartialEq, Eq)]
pub enum FindError {
    Nothing(u32),
    Unsound,
}

impl From<Unsound> for FindError {
    ghost from_gives = { λ _ e. e ≡ FindError.Unsound };

    fn from(_unsound: Unsound) -> FindError {
        FindError::Unsound
    }
}

impl From<Absent> for FindError {
    ghost from_gives = { λ absent e. e ≡ FindError.Nothing absent.past };

    fn from(absent: Absent) -> FindError {
        FindError::Nothing(absent.past)
    }
}

// A change that may not be made. Every word stays.
#[derive(Clone, Copy, Debug, PartialEq, Eq)]
pub struct Refused;

impl From<Unsound> for Refused {
    fn from(_unsound: Unsound) -> Refused {
        Refused
    }
}

// An empty cache, where the store is large enough for the limit.
pub fn set_up(store: &mut [u32], limit: u32) -> Result<(), SetupError>
    ensures { CacheSetUp store.old store.new limit result }
{
    slots::set_up_cache(store, limit)
}

// The slot of the entry that contains an address.
pub fn find(store: &[u32], address: Address) -> Result<u32, FindError>
    ensures { Finds store.now (ipv4_bits address) result }
{
    let slot = entries::find::find_entry(Slots::open(store)?, address)?;
    Ok(slot)
}

// The slot of the least recently used entry, if there is an entry.
pub fn oldest(store: &[u32]) -> Result<Option<u32>, Unsound>
    ensures { OldestIs store.now result }
{
    let slots = Slots::open(store)?;
    if slots.count == 0 {
        return Ok(None);
    }
    let Some(last) = entries::order::last_used(slots) else {
        return Err(Unsound);
    };
    Ok(Some(last))
}

// ---- changes

// How many entries there are, where the slot is of one.
fn place_of(store: &[u32], slot: u32) -> Result<u32, Refused>
    ensures { Placed store.now slot result }
{
    let h = slots::read_header(store)?;
    if slot == 0 || h.entries < slot {
        return Err(Refused);
    }
    Ok(h.entries)
}

// The entry of the slot becomes the most recently used.
pub fn touch(store: &mut [u32], slot: u32) -> Result<(), Refused>
    ensures { Touched store.old store.new slot result }
{
    let held = place_of(store, slot)?;
    entries::order::to_front(store, held, slot);
    Ok(())
}

// The prefix of the first bits of an address, which overlaps no entry, comes in as the most recently used. It is refused where
// there is no room, and for a length above 32 or a hop that is not 1 to 65,535.
pub fn insert(store: &mut [u32], address: Address, length: u32, hop: u32) -> Result<(), Refused>
    ensures { Inserted store.old store.new (ipv4_bits address) length hop result }
{
    let h = slots::read_header(store)?;
    if h.limit <= h.entries || 32 < length || !is_hop(hop) {
        return Err(Refused);
    }
    let new = Entry {
        prefix: Prefix { address, length },
        hop,
    };
    insertion::insert_entry(store, h.entries, new);
    Ok(())
}

// The entry of the slot leaves.
pub fn remove(store: &mut [u32], slot: u32) -> Result<(), Refused>
    ensures { Removed store.old store.new slot result }
{
    let held = place_of(store, slot)?;
    removal::remove_entry(store, held, slot);
    Ok(())
}

// The entry of the slot takes another hop, and nothing else changes.
pub fn give_hop(store: &mut [u32], slot: u32, hop: u32) -> Result<(), Refused>
    ensures { HopGiven store.old store.new slot hop result }
{
    place_of(store, slot)?;
    if !is_hop(hop) {
        return Err(Refused);
    }
    entries::give_hop(store, slot, hop);
    Ok(())
}

fn is_hop(hop: u32) -> bool
    ensures { Decides (Hop hop) result }
{
    hop != 0 && hop <= sizes::HIGHEST_HOP
}
