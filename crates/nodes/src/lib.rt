// The nodes of a route table in lent words, by name: what is read, what is stored, and nothing of what it means.
//
//     word 0  the limit of routes         word 2     the routes held
//     word 1  the nodes in use            word 1,019 the root: the number of a node, 0 for none
//     node p, for p from 1 to the nodes in use, starts at word 1,016 + 8 p:
//       0 address   1 length   2 mark: hop + 1, or 0 for a branch   3 left   4 right   5 up   6, 7 unused
//
// left and right are the nodes below, for the next bit 0 and 1; up is the cell that points here. A cell is a place for a
// node number: cell 0 is the root, cell 2 p + b the side b of node p, and cell q is word 1,016 + 8 (q / 2) + 3 + q % 2,
// with no case for the root.
#![tactic(auto)]

ghost use Rattle.std.specs.Prelude.{◌≡◌, ◌/◌};
ghost use Rattle.sizes.specs.Sizes.{table_need};
ghost use Rattle.sizes.specs.BothStores.{slot_word, word, Room, SetUp};
ghost use Rattle.nodes.specs.Layout.{cell_word};
ghost use Rattle.nodes.specs.Headers.{HeaderRead, Emptied};
ghost use Rattle.nodes.specs.Stores.{put_mark, put_up, put_child, put_node, put_counts, node_in};

use sizes::refusal::Unsound;
use sizes::{SetupError, Table, slot};

pub mod view;

pub const LIMIT: usize = 0;

pub const NODES: usize = 1;

pub const ROUTES: usize = 2;

pub const ROOT: usize = 1019;

// The fields of a node, by their place in its slot.
const ADDRESS: usize = 0;

const LENGTH: usize = 1;

const MARK: usize = 2;

const LEFT: usize = 3;

const RIGHT: usize = 4;

const UP: usize = 5;

// ---- the header

#[derive(Clone, Copy, Debug, PartialEq, Eq)]
pub struct Header {
    pub limit: u32,
    pub nodes: u32,
    pub routes: u32,
}

// The header, where it fits its store: then every node in use has its eight words. The cache's is read in `slots`, since it has
// other words and other tests.
pub fn read_header(store: &[u32]) -> Result<Header, Unsound>
    ensures { HeaderRead store.now result }
{
    let words = store.len();
    if words < sizes::RESERVED_WORDS {
        return Err(Unsound);
    }
    let limit = store[LIMIT];
    let nodes = store[NODES];
    let routes = store[ROUTES];
    let Ok(()) = sizes::setup::<Table>(words, limit) else {
        return Err(Unsound);
    };
    if 2 * limit < nodes || limit < routes {
        return Err(Unsound);
    }
    Ok(Header {
        limit,
        nodes,
        routes,
    })
}

// An empty table, where the store is large enough for the limit. Nothing of the store is read. An empty cache has other words.
#[tactic(auto, unfolding(crate::specs::Stores::emptied))]
pub fn set_up_table(store: &mut [u32], limit: u32) -> Result<(), SetupError>
    ensures { SetUp table_need Emptied store.old store.new limit result }
{
    sizes::setup::<Table>(store.len(), limit)?;
    store[LIMIT] = limit;
    store[NODES] = 0;
    store[ROUTES] = 0;
    store[ROOT] = 0;
    Ok(())
}

#[tactic(auto, unfolding(crate::specs::Stores::put_counts))]
pub fn set_counts(store: &mut [u32], nodes: u32, routes: u32)
    requires { Room store.old 0 }
    ensures { store.new ≡ put_counts store.old nodes routes }
{
    store[NODES] = nodes;
    store[ROUTES] = routes;
}

// ---- one word of a node

pub fn length_of(store: &[u32], p: u32) -> u32
    requires { Room store.now p }
    ensures { result ≡ word store.now (slot_word p 1) }
{
    slot::read(store, p, LENGTH)
}

// The hop and one more, or 0 where the node is a branch.
pub fn mark_of(store: &[u32], p: u32) -> u32
    requires { Room store.now p }
    ensures { result ≡ word store.now (slot_word p 2) }
{
    slot::read(store, p, MARK)
}

pub fn up_of(store: &[u32], p: u32) -> u32
    requires { Room store.now p }
    ensures { result ≡ word store.now (slot_word p 5) }
{
    slot::read(store, p, UP)
}

// In the words of `cell_word`, which are others in a cache.
pub fn child_of(store: &[u32], cell: u32) -> u32
    requires { Room store.now (cell / 2) }
    ensures { result ≡ word store.now (cell_word cell) }
{
    slot::read(store, cell / 2, LEFT + ((cell % 2) as usize))
}

// ---- stores of one word

#[tactic(auto, unfolding(crate::specs::Stores::put_mark))]
pub fn set_mark(store: &mut [u32], p: u32, mark: u32)
    requires { Room store.old p }
    ensures { store.new ≡ put_mark store.old p mark }
{
    slot::write(store, p, MARK, mark);
}

#[tactic(auto, unfolding(crate::specs::Stores::put_up))]
pub fn set_up(store: &mut [u32], p: u32, cell: u32)
    requires { Room store.old p }
    ensures { store.new ≡ put_up store.old p cell }
{
    slot::write(store, p, UP, cell);
}

#[tactic(auto, unfolding(crate::specs::Stores::put_child))]
// In the words of `cell_word`, as `child_of`.
pub fn set_child(store: &mut [u32], cell: u32, p: u32)
    requires { Room store.old (cell / 2) }
    ensures { store.new ≡ put_child store.old cell p }
{
    slot::write(store, cell / 2, LEFT + ((cell % 2) as usize), p);
}

// ---- a node by value

#[derive(Clone, Copy, Debug, PartialEq, Eq)]
pub struct Node {
    pub address: u32,
    pub length: u32,
    pub mark: u32,
    pub left: u32,
    pub right: u32,
    pub up: u32,
}

#[tactic(auto, unfolding(crate::specs::Stores::node_in))]
pub fn node_at(store: &[u32], p: u32) -> Node
    requires { Room store.now p }
    ensures { result ≡ node_in store.now p }
{
    Node {
        address: slot::read(store, p, ADDRESS),
        length: slot::read(store, p, LENGTH),
        mark: slot::read(store, p, MARK),
        left: slot::read(store, p, LEFT),
        right: slot::read(store, p, RIGHT),
        up: slot::read(store, p, UP),
    }
}

#[tactic(auto, unfolding(crate::specs::Stores::put_node, crate::specs::Stores::filled_at))]
pub fn put_node(store: &mut [u32], p: u32, node: Node)
    requires { Room store.old p }
    ensures { store.new ≡ put_node store.old p node }
{
    slot::write(store, p, ADDRESS, node.address);
    slot::write(store, p, LENGTH, node.length);
    slot::write(store, p, MARK, node.mark);
    slot::write(store, p, LEFT, node.left);
    slot::write(store, p, RIGHT, node.right);
    slot::write(store, p, UP, node.up);
}
