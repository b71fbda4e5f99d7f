// A node is taken out of the table, and the last node comes to its place. A number that is read from a store that is not
// sound may name no cell or no node of those in use: then nothing is stored there.
//
// Each function asks for `Nodes` by itself. Tried: a struct that holds the words as `&mut` proves its own methods, but once it is
// gone nothing says what became of the words that were lent to it.
ghost use Rattle.std.specs.Prelude.{◌≡◌, ◌+◌, ◌≤◌, ◌<◌};
ghost use Rattle.withdraw.specs.Writes.{Nodes, pointed, hung, cut, placed, closed, closed_both};

use nodes::Node;

// The cell points at p.
#[tactic(auto, unfolding(crate::specs::Writes::pointed))]
fn point(store: &mut [u32], nodes: u32, cell: u32, p: u32)
    requires nodes { Nodes store.old nodes }
    ensures { store.new ≡ pointed store.old nodes cell p }
{
    if cell == 1 || nodes < cell / 2 {
        return;
    }
    nodes::set_child(store, cell, p);
}

// Node p hangs in the cell.
#[tactic(auto, unfolding(crate::specs::Writes::hung))]
fn hang(store: &mut [u32], nodes: u32, p: u32, cell: u32)
    requires nodes { Nodes store.old nodes }
    ensures { store.new ≡ hung store.old nodes p cell }
{
    if p == 0 || nodes < p {
        return;
    }
    nodes::set_up(store, p, cell);
}

// Node p is taken out: its one child, or none, takes its cell.
#[tactic(auto, unfolding(crate::specs::Writes::cut))]
pub fn cut_out(store: &mut [u32], nodes: u32, p: u32, kid: u32)
    requires nodes { Nodes store.old nodes }
    requires in_use { p ≤ nodes }
    ensures { store.new ≡ cut store.old nodes p kid }
{
    let cell = nodes::up_of(store, p);
    point(store, nodes, cell, kid);
    hang(store, nodes, kid, cell);
}

// A node comes to the place p, and its cell and its children know it.
#[tactic(auto, unfolding(crate::specs::Writes::placed))]
fn place(store: &mut [u32], nodes: u32, p: u32, node: Node)
    requires nodes { Nodes store.old nodes }
    requires in_use { p ≤ nodes }
    ensures { store.new ≡ placed store.old nodes p node }
{
    nodes::put_node(store, p, node);
    point(store, nodes, node.up, p);
    hang(store, nodes, node.left, 2 * p);
    hang(store, nodes, node.right, 2 * p + 1);
}

// The last node comes to the place of one that is gone.
#[tactic(auto, unfolding(crate::specs::Writes::closed))]
pub fn close(store: &mut [u32], nodes: u32, last: u32, gone: u32)
    requires nodes { Nodes store.old nodes }
    requires last_in_use { last ≤ nodes }
    requires gone_in_use { gone ≤ nodes }
    ensures { store.new ≡ closed store.old nodes last gone }
{
    if gone != last {
        let node = nodes::node_at(store, last);
        place(store, nodes, gone, node);
    }
}

// Two nodes are gone: the higher place is closed first.
#[tactic(auto, unfolding(crate::specs::Writes::closed_both))]
pub fn close_both(store: &mut [u32], nodes: u32, p: u32, q: u32)
    requires nodes { Nodes store.old nodes }
    requires some_node { 0 < nodes }
    requires p_in_use { p ≤ nodes }
    requires q_in_use { q ≤ nodes }
    ensures { store.new ≡ closed_both store.old nodes p q }
{
    let (high, low) = if p < q { (q, p) } else { (p, q) };
    close(store, nodes, nodes, high);
    close(store, nodes, nodes - 1, low);
}
