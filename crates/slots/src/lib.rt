// The slots of a cache in lent words, by name: what is read, what is stored, and nothing of what it means.
//
//     word 0  the limit of entries     word 1  the entries held
//     slot i, for i from 0 to the entries held, starts at word 1,016 + 8 i:
//       0 address   1 hop and length   2 prev   3 next   4 up   5 left   6 right   7 the branch's up and length
//
// An entry is a prefix and a hop; prev and next are its neighbours in the order of use. A branch is where two parts of the
// search trie divide: the branch of slot i has as its prefix the first bits of entry i, left and right are the nodes below
// it, and up is the cell that points at the entry, or at the branch. Node 2 i is the entry of slot i, node 2 i + 1 its
// branch; cell 2 i + b is the side b of slot i's branch. Slot 1 has no branch, and slot 0 is the header's own: its left
// cell is the root's, and the order of use begins and ends there.
#![tactic(auto)]

ghost use Rattle.std.specs.Prelude.{◌≡◌, ◌<◌, ◌/◌, ◌%◌};
ghost use Rattle.sizes.specs.Sizes.{cache_need};
ghost use Rattle.sizes.specs.BothStores.{slot_word, word, Room, SetUp};
ghost use Rattle.slots.specs.Layout.{cell_word, up_in};
ghost use Rattle.slots.specs.Headers.{HeaderRead, Emptied};
ghost use Rattle.slots.specs.Stores.{put_entry, put_hop, put_prev, put_next, put_child, put_branch, put_up, put_count};

use sizes::SetupError;
use sizes::refusal::Unsound;
use sizes::slot::{read, write};

pub mod view;

const LIMIT: usize = 0;

const ENTRIES: usize = 1;

// The fields of a slot.
const ADDRESS: usize = 0;

const HOP_AND_LENGTH: usize = 1;

const PREV: usize = 2;

const NEXT: usize = 3;

const UP: usize = 4;

const LEFT: usize = 5;

const BRANCH: usize = 7;

// ---- the header

#[derive(Clone, Copy, Debug, PartialEq, Eq)]
pub struct Header {
    pub limit: u32,
    pub entries: u32,
}

// The header, where it fits its store: then every slot in use has its eight words. The table's is read in `nodes`, since it has
// other words and other tests.
pub fn read_header(store: &[u32]) -> Result<Header, Unsound>
    ensures { HeaderRead store.now result }
{
    if store.len() < sizes::RESERVED_WORDS {
        return Err(Unsound);
    }
    let limit = store[LIMIT];
    let entries = store[ENTRIES];
    if sizes::setup::<sizes::Cache>(store.len(), limit).is_err() || limit < entries {
        return Err(Unsound);
    }
    Ok(Header { limit, entries })
}

pub fn set_count(store: &mut [u32], entries: u32)
    requires { Room store.old 0 }
    ensures { store.new ≡ put_count store.old entries }
{
    store[ENTRIES] = entries;
}

// An empty cache, where the store is large enough for the limit. Nothing of the store is read. An empty table has other words.
pub fn set_up_cache(store: &mut [u32], limit: u32) -> Result<(), SetupError>
    ensures { SetUp cache_need Emptied store.old store.new limit result }
{
    sizes::setup::<sizes::Cache>(store.len(), limit)?;
    store[LIMIT] = limit;
    set_count(store, 0);
    set_child(store, 0, 0);
    set_prev(store, 0, 0);
    set_next(store, 0, 0);
    Ok(())
}

// ---- one value of a slot

pub fn length_of(store: &[u32], i: u32) -> u32
    requires { Room store.now i }
    ensures { result ≡ word store.now (slot_word i 1) % 64 }
{
    read(store, i, HOP_AND_LENGTH) % 64
}

pub fn hop_of(store: &[u32], i: u32) -> u32
    requires { Room store.now i }
    ensures { result ≡ word store.now (slot_word i 1) / 64 }
{
    read(store, i, HOP_AND_LENGTH) / 64
}

pub fn prev_of(store: &[u32], i: u32) -> u32
    requires { Room store.now i }
    ensures { result ≡ word store.now (slot_word i 2) }
{
    read(store, i, PREV)
}

pub fn next_of(store: &[u32], i: u32) -> u32
    requires { Room store.now i }
    ensures { result ≡ word store.now (slot_word i 3) }
{
    read(store, i, NEXT)
}

// In the words of `cell_word`, which are others in a table.
pub fn child_of(store: &[u32], cell: u32) -> u32
    requires { Room store.now (cell / 2) }
    ensures { result ≡ word store.now (cell_word cell) }
{
    read(store, cell / 2, LEFT + (cell % 2) as usize)
}

pub fn branch_length(store: &[u32], i: u32) -> u32
    requires { Room store.now i }
    ensures { result ≡ word store.now (slot_word i 7) % 64 }
{
    read(store, i, BRANCH) % 64
}

// The cell that points at a node, which is an entry or a branch.
pub fn up_of(store: &[u32], x: u32) -> u32
    requires { Room store.now (x / 2) }
    ensures { result ≡ up_in store.now x }
{
    if x % 2 == 0 {
        read(store, x / 2, UP)
    } else {
        read(store, x / 2, BRANCH) / 64
    }
}

// ---- stores

pub fn set_entry(store: &mut [u32], i: u32, address: u32, length: u32, hop: u32)
    requires room { Room store.old i }
    requires length_bound { length < 64 }
    requires hop_bound { hop < 67108864 }
    ensures { store.new ≡ put_entry store.old i address length hop }
{
    write(store, i, ADDRESS, address);
    write(store, i, HOP_AND_LENGTH, hop * 64 + length);
}

pub fn set_hop(store: &mut [u32], i: u32, hop: u32)
    requires room { Room store.old i }
    requires hop_bound { hop < 67108864 }
    ensures { store.new ≡ put_hop store.old i hop }
{
    let length = length_of(store, i);
    write(store, i, HOP_AND_LENGTH, hop * 64 + length);
}

pub fn set_prev(store: &mut [u32], i: u32, s: u32)
    requires { Room store.old i }
    ensures { store.new ≡ put_prev store.old i s }
{
    write(store, i, PREV, s);
}

pub fn set_next(store: &mut [u32], i: u32, s: u32)
    requires { Room store.old i }
    ensures { store.new ≡ put_next store.old i s }
{
    write(store, i, NEXT, s);
}

// In the words of `cell_word`, as `child_of`.
pub fn set_child(store: &mut [u32], cell: u32, x: u32)
    requires { Room store.old (cell / 2) }
    ensures { store.new ≡ put_child store.old cell x }
{
    write(store, cell / 2, LEFT + (cell % 2) as usize, x);
}

// The branch of slot i hangs in a cell and has so many bits.
pub fn set_branch(store: &mut [u32], i: u32, cell: u32, m: u32)
    requires room { Room store.old i }
    requires cell_bound { cell < 67108864 }
    requires length_bound { m < 64 }
    ensures { store.new ≡ put_branch store.old i cell m }
{
    write(store, i, BRANCH, cell * 64 + m);
}

// The node x, an entry or a branch, hangs in a cell.
pub fn set_up(store: &mut [u32], x: u32, cell: u32)
    requires room { Room store.old (x / 2) }
    requires cell_bound { cell < 67108864 }
    ensures { store.new ≡ put_up store.old x cell }
{
    if x % 2 == 0 {
        write(store, x / 2, UP, cell);
        return;
    }
    let m = branch_length(store, x / 2);
    set_branch(store, x / 2, cell, m);
}
