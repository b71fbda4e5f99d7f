// The route table over lent words: set-up, the descent that search and updates share, and the check that says which stores
// are sound. The words and their layout are the crate nodes'.
//
//         10.0.0.0/8    hop 4      a descent by 10.65.0.1 examines /8, /12 and /16: the first two contain it,
//              |                   and the longest route among them is its match
//         10.64.0.0/12  hop 2
//              |
//         10.64.0.0/16  hop 1
#![tactic(auto)]

ghost use Rattle.std.specs.Prelude.{◌≡◌, ◌+◌, ◌-◌, ◌/◌, ◌≤◌, ◌<◌, take};
ghost use Rattle.prefix.specs.Addresses.{ipv4_bits};
ghost use Rattle.trie.specs.Walk.{follow};
ghost use Rattle.sizes.specs.BothStores.{slot_word, word};
ghost use Rattle.nodes.specs.Layout.{cell_word, nodes_of, trie_of, numbered, Shaped};
ghost use Rattle.table.specs.Tables.{TableSetUp, TableChecked};
ghost use Rattle.table.specs.Stops.{Stopped};
ghost use Rattle.table.specs.Turns.{Going, Turned, off_of, Tested, Chosen};
ghost use Rattle.table.specs.Checks.{Verdict, Decides, GoesOn, CellFine, HasCell, Marked, NodeFine, Passed};

use nodes::Node;
use nodes::view::Nodes;
use prefix::HALF;
use prefix::ipv4::Prefix;
use sizes::SetupError;
use std::ops::ControlFlow;

// A route's mark is its hop and one more.
const HIGHEST_MARK: u32 = sizes::HIGHEST_HOP + 1;

// An empty table, where the store is large enough for the limit.
pub fn set_up(store: &mut [u32], limit: u32) -> Result<(), SetupError>
    ensures { TableSetUp store.old store.new limit result }
{
    nodes::set_up_table(store, limit)
}

// ---- the descent

// Where the descent stands: the node in hand, and of those before it the last, the last that is a route, and how many. A node is
// its number, 0 for none, as the words of the store have it: an Option would be made of it and taken apart at each step.
#[derive(Clone, Copy, Debug, PartialEq, Eq)]
struct Walk {
    at: u32,
    last: u32,
    best: u32,
    examined: u32,
}

// Where it stops: the last node that contains the prefix, the one after it that does not, and the last that is a route.
#[derive(Clone, Copy, Debug, PartialEq, Eq)]
pub struct Stop {
    pub last: u32,
    pub beyond: u32,
    pub best: u32,
    pub examined: u32,
}

// One node: it contains what is sought and the descent goes on below it, or it stops there.
fn step(nodes: Nodes, sought: Prefix, w: Walk) -> ControlFlow<Stop, Walk>
    requires { Going nodes.store.now (ipv4_bits sought.address) sought.length w }
    ensures { Turned nodes.entry.store.now (ipv4_bits sought.address) sought.length w result }
{
    let at = w.at;
    if at == 0 || nodes.count < at || sought.length < w.examined {
        return ControlFlow::Break(off(w));
    }
    let own = nodes.length_of(at);
    if holds(nodes, at, own, sought) {
        return ControlFlow::Continue(Walk {
            at: below(nodes, at, own, sought),
            last: at,
            best: better(nodes, at, w.best),
            examined: w.examined + 1,
        });
    }
    ControlFlow::Break(Stop {
        last: w.last,
        beyond: at,
        best: w.best,
        examined: w.examined + 1,
    })
}

// The descent is over with no node in hand.
fn off(w: Walk) -> Stop
    ensures { result ≡ off_of w }
{
    Stop {
        last: w.last,
        beyond: 0,
        best: w.best,
        examined: w.examined,
    }
}

// Whether node p, of the length own, contains what is sought.
fn holds(nodes: Nodes, p: u32, own: u32, sought: Prefix) -> bool
    requires a_node { 0 < p }
    requires in_use { p ≤ nodes.count }
    requires own_length { own ≡ word nodes.store.now (slot_word p 1) }
    ensures { Tested nodes.entry.store.now (ipv4_bits sought.address) sought.length p result }
{
    own <= sought.length && nodes.address_of(p).covers::<HALF>(own, sought.address)
}

// The node below node p, of the length own, on the side of the next bit that is sought, if there is one.
fn below(nodes: Nodes, p: u32, own: u32, sought: Prefix) -> u32
    requires a_node { 0 < p }
    requires in_use { p ≤ nodes.count }
    requires own_length { own ≡ word nodes.store.now (slot_word p 1) }
    ensures { numbered result ≡ follow (trie_of nodes.entry.store.now) (take sought.length (ipv4_bits sought.address)) (p - 1) }
{
    if own < sought.length {
        nodes.child_of(2 * p + sought.address.bit_at::<HALF>(own))
    } else {
        0
    }
}

// Node p if it is a route, else the best before it.
fn better(nodes: Nodes, p: u32, best: u32) -> u32
    requires a_node { 0 < p }
    requires in_use { p ≤ nodes.count }
    ensures { Chosen nodes.entry.store.now p best result }
{
    if nodes.mark_of(p) == 0 { best } else { p }
}

// From the root, by the bits that are sought.
pub fn descend(nodes: Nodes, sought: Prefix) -> Stop
    ensures { Stopped nodes.entry.store.now (ipv4_bits sought.address) sought.length result }
{
    let mut w = Walk {
        at: nodes.child_of(0),
        last: 0,
        best: 0,
        examined: 0,
    };
    loop {
        match step(nodes, sought, w) {
            ControlFlow::Continue(next) => w = next,
            ControlFlow::Break(stop) => break stop,
        }
    }
}

// ---- the check: one look at each node

// Whether the store is a sound table.
pub fn check(store: &[u32]) -> bool
    ensures { TableChecked store.now result }
{
    let Ok(nodes) = Nodes::open(store) else {
        return false;
    };
    if !child_ok(nodes, 0) {
        return false;
    }
    let mut routes: u32 = 0;
    for p in 1..=nodes.count {
        if !node_ok(nodes, p) {
            return false;
        }
        routes = counted(nodes, p, routes);
    }
    routes == nodes.routes()
}

// The routes below node p, and one more if it is a route.
fn counted(nodes: Nodes, p: u32, routes: u32) -> u32
    requires in_use { p ≤ nodes.count }
    requires fine { NodeFine nodes.store.now p }
    requires passed { Passed nodes.store.now p routes }
    ensures { Passed nodes.entry.store.now (p + 1) result }
{
    if nodes.mark_of(p) != 0 {
        routes + 1
    } else {
        routes
    }
}

// Whether node p is as it should be: its length, its mark, the cell that points at it, and its own two cells.
fn node_ok(nodes: Nodes, p: u32) -> bool
    requires a_node { 0 < p }
    requires in_use { p ≤ nodes.count }
    ensures { Verdict nodes.entry.store.now (NodeFine nodes.entry.store.now p) result }
{
    let node = nodes.node_at(p);
    if 32 < node.length || !mark_ok(node) || !owned(nodes, p, node.up) || !child_ok(nodes, 2 * p) {
        return false;
    }
    child_ok(nodes, 2 * p + 1)
}

// Whether a branch has two nodes below it, and a hop is 1 to 65,535.
fn mark_ok(node: Node) -> bool
    ensures { Decides (Marked node) result }
{
    if node.mark == 0 {
        node.left != 0 && node.right != 0
    } else {
        2 <= node.mark && node.mark <= HIGHEST_MARK
    }
}

// Whether node p's cell is one that there is, and points at the node.
fn owned(nodes: Nodes, p: u32, cell: u32) -> bool
    requires a_node { 0 < p }
    requires in_use { p ≤ nodes.count }
    requires its_cell { cell ≡ word nodes.store.now (slot_word p 5) }
    ensures { Verdict nodes.entry.store.now (HasCell nodes.entry.store.now p) result }
{
    if cell == 1 || nodes.count < cell / 2 {
        return false;
    }
    nodes.child_of(cell) == p
}

// Whether what a cell points at, if anything, points back, and goes on from the cell's own prefix by its side.
fn child_ok(nodes: Nodes, cell: u32) -> bool
    requires a_cell { ¬ (cell ≡ 1) }
    requires cell_in_use { cell / 2 ≤ nodes.count }
    ensures { Verdict nodes.entry.store.now (CellFine nodes.entry.store.now cell) result }
{
    let p = nodes.child_of(cell);
    if p == 0 {
        return true;
    }
    if nodes.count < p || nodes.up_of(p) != cell {
        return false;
    }
    goes_on(nodes, cell, p)
}

// Whether node p, at which a cell points, goes on from the cell's own prefix by its side. Any node does from the root cell.
fn goes_on(nodes: Nodes, cell: u32, p: u32) -> bool
    requires a_cell { ¬ (cell ≡ 1) }
    requires cell_in_use { cell / 2 ≤ nodes.count }
    requires a_node { 0 < p }
    requires in_use { p ≤ nodes.count }
    requires pointed_at { p ≡ word nodes.store.now (cell_word cell) }
    ensures { Verdict nodes.entry.store.now (GoesOn nodes.entry.store.now cell p) result }
{
    if cell == 0 {
        return true;
    }
    let n = nodes.length_of(cell / 2);
    let own = nodes.length_of(p);
    let a = nodes.address_of(p);
    if own <= n || 32 < own || a.bit_at::<HALF>(n) != cell % 2 {
        return false;
    }
    nodes.address_of(cell / 2).covers::<HALF>(n, a)
}
