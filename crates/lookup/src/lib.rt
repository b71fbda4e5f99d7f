// The public lookup in a pair of stores that the caller lends: a hit in the cache, a miss that stores an entry, or a drop. It
// takes every address and every content of the stores, and ends; from a sound pair it does what the model says and leaves it sound.
#![tactic(auto)]

ghost use Rattle.std.specs.Prelude.{◌≤◌, Ok};
ghost use Rattle.prefix.specs.Addresses.{ipv4_bits, prefix_bits};
ghost use Rattle.slots.specs.Headers.{HeaderRead};
ghost use Rattle.entries.specs.Caches.{Slot, SoundEntries, Free};
ghost use Rattle.pairs.specs.Pairs.{SoundPair};
ghost use Rattle.lookup.specs.Promises.{LookedUp, Unfit};
ghost use Rattle.lookup.specs.Lookups.{Missed, LookedAt, Used, Stored, MadeRoom};

use entries::entry::Entry;
use prefix::Address;
use prefix::ipv4::Prefix;
use sizes::refusal::Unsound;
use slots::Header;
use slots::view::Slots;
use tallies::Tallies;

#[derive(Clone, Copy, Debug, PartialEq, Eq)]
pub enum Answer {
    // hop
    Hit(u32),
    // hop, the stored prefix's address and length, nodes examined
    Miss(u32, u32, u32, u32),
    // nodes examined
    Drop(u32),
}

#[derive(Clone, Copy, Debug, PartialEq, Eq)]
pub struct Looked {
    pub answer: Answer,
    pub tallies: Tallies,
}

// The next hop for an address. The table is lent as `&`: a lookup cannot change a route. A refusal has counted nothing: the
// tallies are the caller's own.
pub fn look_up(
    table: &[u32],
    cache: &mut [u32],
    t: Tallies,
    address: u32,
) -> Result<Looked, Unsound>
    ensures looked_up { SoundPair table.now cache.old → LookedUp table.now cache.old cache.new t address result }
    ensures unfit { Unfit cache.old cache.new result }
{
    let x = Address::from(address);
    let h = slots::read_header(cache)?;
    let lent = Slots {
        store: cache,
        count: h.entries,
    };
    match entries::find::find_entry(lent, x) {
        Ok(k) => Ok(hit(cache, h, k, t)),
        Err(absent) => miss(table, cache, h, x, absent.past, t),
    }
}

// The entry of slot k contains the address: it becomes the most recently used.
fn hit(cache: &mut [u32], h: Header, k: u32, t: Tallies) -> Looked
    requires header { HeaderRead cache.old (Ok h) }
    requires slot { Slot cache.old k }
    ensures { Used cache.old cache.new k t result }
{
    let hop = slots::hop_of(cache, k);
    entries::order::to_front(cache, h.entries, k);
    Looked {
        answer: Answer::Hit(hop),
        tallies: t.count_hit(),
    }
}

// No entry contains the address. Without a match it is dropped at once, before any entry is chosen.
fn miss(
    table: &[u32],
    cache: &mut [u32],
    h: Header,
    x: Address,
    past: u32,
    t: Tallies,
) -> Result<Looked, Unsound>
    requires header { HeaderRead cache.old (Ok h) }
    ensures { SoundPair table.now cache.old → Missed cache.old (ipv4_bits x) past → LookedAt table.now cache.old cache.new t (ipv4_bits x) result }
{
    let s = search::longest_match(table, x);
    let Some(found) = s.found else {
        return Ok(Looked {
            answer: Answer::Drop(s.examined),
            tallies: t.count_drop(),
        });
    };
    let n = s.least.max(past);
    if 32 < n {
        return Err(Unsound);
    }
    if sizes::HIGHEST_HOP < found.hop {
        return Err(Unsound);
    }
    let new = Entry {
        prefix: Prefix {
            address: x,
            length: n,
        },
        hop: found.hop,
    };
    store_entry(cache, h, new, s.examined, t)
}

// A new entry comes in as the most recently used; a full cache gives up its least recently used one.
fn store_entry(
    cache: &mut [u32],
    h: Header,
    new: Entry,
    examined: u32,
    t: Tallies,
) -> Result<Looked, Unsound>
    requires header { HeaderRead cache.old (Ok h) }
    ensures { SoundEntries cache.old → Free cache.old (prefix_bits new.prefix) → Stored cache.old cache.new (ipv4_bits new.prefix.address) new.prefix.length new.hop examined t result }
{
    let held = make_room(cache, h)?;
    insertion::insert_entry(cache, held, new);
    let p = new.prefix;
    Ok(Looked {
        answer: Answer::Miss(new.hop, p.cleared(), p.length, examined),
        tallies: t.count_miss(h.entries - held),
    })
}

// The entries that are left once there is room for one more.
fn make_room(cache: &mut [u32], h: Header) -> Result<u32, Unsound>
    requires header { HeaderRead cache.old (Ok h) }
    ensures { MadeRoom cache.old cache.new result }
{
    if h.entries < h.limit {
        return Ok(h.entries);
    }
    give_way(cache, h)
}

// The least recently used entry of a full cache leaves.
fn give_way(cache: &mut [u32], h: Header) -> Result<u32, Unsound>
    requires header { HeaderRead cache.old (Ok h) }
    requires full { h.limit ≤ h.entries }
    ensures { MadeRoom cache.old cache.new result }
{
    let lent = Slots {
        store: cache,
        count: h.entries,
    };
    let Some(k) = entries::order::last_used(lent) else {
        return Err(Unsound);
    };
    removal::remove_entry(cache, h.entries, k);
    Ok(h.entries - 1)
}
