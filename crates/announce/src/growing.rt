// A node comes into the table, in a cell.
ghost use Rattle.std.specs.Prelude.{◌≡◌, ◌+◌, ◌/◌, ◌≤◌, ◌<◌, take};
ghost use Rattle.prefix.specs.Addresses.{prefix_bits};
ghost use Rattle.sizes.specs.BothStores.{Room};
ghost use Rattle.announce.specs.Writes.{Roomy, NodeOf, only_child, inserted, with_leaf, with_above, with_fork};

use nodes::{Header, Node};
use prefix::ipv4::Prefix;

// The node of a prefix, with nothing below it.
pub fn leaf_of(prefix: Prefix, mark: u32, up: u32) -> Node
    ensures { NodeOf (prefix_bits prefix) prefix.length mark 0 0 up result }
{
    Node {
        address: prefix.cleared(),
        length: prefix.length,
        mark,
        left: 0,
        right: 0,
        up,
    }
}

// The same, with the one child p on a side.
pub fn above_of(prefix: Prefix, mark: u32, up: u32, side: u32, p: u32) -> Node
    requires { side < 2 }
    ensures { NodeOf (prefix_bits prefix) prefix.length mark (only_child side p 0) (only_child side p 1) up result }
{
    let leaf = leaf_of(prefix, mark, up);
    if side == 0 {
        Node { left: p, ..leaf }
    } else {
        Node { right: p, ..leaf }
    }
}

// Node p comes in, and its cell knows it.
#[tactic(auto, unfolding(crate::specs::Writes::inserted))]
fn insert(store: &mut [u32], p: u32, node: Node)
    requires room { Room store.old p }
    requires cell_room { Room store.old (node.up / 2) }
    ensures { store.new ≡ inserted store.old p node }
{
    nodes::put_node(store, p, node);
    nodes::set_child(store, node.up, p);
}

// A leaf.
#[tactic(auto, unfolding(crate::specs::Writes::with_leaf))]
pub fn add_leaf(store: &mut [u32], h: Header, leaf: Node)
    requires roomy { Roomy store.old h }
    requires cell_in_use { leaf.up / 2 ≤ h.nodes }
    ensures { store.new ≡ with_leaf store.old h.nodes h.routes leaf }
{
    insert(store, h.nodes + 1, leaf);
    nodes::set_counts(store, h.nodes + 1, h.routes + 1);
}

// A node between node p, which goes on to its side, and p's cell.
#[tactic(auto, unfolding(crate::specs::Writes::above, crate::specs::Writes::with_above))]
pub fn add_above(store: &mut [u32], h: Header, p: u32, side: u32, node: Node)
    requires roomy { Roomy store.old h }
    requires in_use { p ≤ h.nodes }
    requires a_side { side < 2 }
    requires cell_in_use { node.up / 2 ≤ h.nodes }
    ensures { store.new ≡ with_above store.old h.nodes h.routes p side node }
{
    let new = h.nodes + 1;
    insert(store, new, node);
    nodes::set_up(store, p, 2 * new + side);
    nodes::set_counts(store, new, h.routes + 1);
}

// A branch there, and a leaf on its other side.
#[tactic(auto, unfolding(crate::specs::Writes::above, crate::specs::Writes::with_fork))]
pub fn add_fork(store: &mut [u32], h: Header, p: u32, side: u32, branch: Node, leaf: Node)
    requires roomy { Roomy store.old h }
    requires in_use { p ≤ h.nodes }
    requires a_side { side < 2 }
    requires cell_in_use { branch.up / 2 ≤ h.nodes }
    requires leaf_cell_in_use { leaf.up / 2 ≤ h.nodes + 1 }
    ensures { store.new ≡ with_fork store.old h.nodes h.routes p side branch leaf }
{
    let new = h.nodes + 1;
    insert(store, new, branch);
    nodes::set_up(store, p, 2 * new + side);
    insert(store, h.nodes + 2, leaf);
    nodes::set_counts(store, h.nodes + 2, h.routes + 1);
}
