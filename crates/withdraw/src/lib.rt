// A route goes, and with it every node that has no more use.
#![tactic(auto)]

ghost use Rattle.std.specs.Prelude.{◌≡◌, ◌+◌, ◌*◌, ◌≤◌, ◌<◌};
ghost use Rattle.sizes.specs.BothStores.{word};
ghost use Rattle.nodes.specs.Layout.{cell_word};
ghost use Rattle.withdraw.specs.Writes.{Nodes, without, without_both};
ghost use Rattle.withdraw.specs.Steps.{withdrawal, withdrawal_at, RouteAt, Gone};
ghost use Rattle.verdicts.specs.Verdicts.{Answered, NodeAt};

use nodes::{Header, view};
use prefix::ipv4::Prefix;
use verdicts::UpdateError;

mod closing;

// The route of the prefix, if it is held.
pub fn withdraw(store: &mut [u32], prefix: Prefix) -> Result<(), UpdateError>
    ensures { Answered store.old store.new prefix.length (withdrawal prefix.address prefix.length) result }
{
    let h = nodes::read_header(store)?;
    let lent = view::Nodes {
        store,
        count: h.nodes,
    };
    let p = table::descend(lent, prefix).last;
    if p == 0 || nodes::length_of(store, p) != prefix.length {
        return Err(UpdateError::NotHeld);
    }
    withdraw_at(store, h, p)
}

// The route at node p, if it is one.
fn withdraw_at(store: &mut [u32], h: Header, p: u32) -> Result<(), UpdateError>
    requires node { NodeAt store.old h p }
    ensures { Answered store.old store.new 0 (withdrawal_at store.old p) result }
{
    if nodes::mark_of(store, p) == 0 {
        return Err(UpdateError::NotHeld);
    }
    if h.routes == 0 {
        return Err(UpdateError::Unsound);
    }
    remove(store, h, p)
}

// The route p: a branch if it has two nodes below it, else gone.
fn remove(store: &mut [u32], h: Header, p: u32) -> Result<(), UpdateError>
    requires route { RouteAt store.old h p }
    ensures { Gone store.old store.new p result }
{
    match (
        nodes::child_of(store, 2 * p),
        nodes::child_of(store, 2 * p + 1),
    ) {
        (0, 0) => return remove_leaf(store, h, p),
        (0, kid) | (kid, 0) => drop_node(store, h, p, kid),
        _ => {
            nodes::set_mark(store, p, 0);
            nodes::set_counts(store, h.nodes, h.routes - 1);
        }
    }
    Ok(())
}

// The route p, a leaf. It hangs at the root, at a route, or at a branch, which then has no more use.
fn remove_leaf(store: &mut [u32], h: Header, p: u32) -> Result<(), UpdateError>
    requires route { RouteAt store.old h p }
    requires no_left { word store.old (cell_word (2 * p)) ≡ 0 }
    requires no_right { word store.old (cell_word (2 * p + 1)) ≡ 0 }
    ensures { Gone store.old store.new p result }
{
    let cell = nodes::up_of(store, p);
    let parent = cell / 2;
    if parent == 0 {
        drop_node(store, h, p, 0);
        return Ok(());
    }
    if h.nodes < parent || parent == p {
        return Err(UpdateError::Unsound);
    }
    if nodes::mark_of(store, parent) != 0 {
        drop_node(store, h, p, 0);
        return Ok(());
    }
    let other = nodes::child_of(store, 2 * parent + (1 - cell % 2));
    drop_both(store, h, p, parent, other);
    Ok(())
}

// Node p is no more, and its one child, or none, takes its cell.
#[tactic(auto, unfolding(crate::specs::Writes::without))]
fn drop_node(store: &mut [u32], h: Header, p: u32, kid: u32)
    requires nodes { Nodes store.old h.nodes }
    requires some_node { 0 < p }
    requires in_use { p ≤ h.nodes }
    requires some_route { 0 < h.routes }
    ensures { store.new ≡ without store.old h.nodes h.routes p kid }
{
    closing::cut_out(store, h.nodes, p, kid);
    closing::close(store, h.nodes, h.nodes, p);
    nodes::set_counts(store, h.nodes - 1, h.routes - 1);
}

// The leaf p and its parent are no more, and the parent's other child takes its cell.
#[tactic(auto, unfolding(crate::specs::Writes::without_both))]
fn drop_both(store: &mut [u32], h: Header, p: u32, parent: u32, other: u32)
    requires nodes { Nodes store.old h.nodes }
    requires two_nodes { 1 < h.nodes }
    requires some_route { 0 < h.routes }
    requires in_use { p ≤ h.nodes }
    requires parent_in_use { parent ≤ h.nodes }
    ensures { store.new ≡ without_both store.old h.nodes h.routes p parent other }
{
    closing::cut_out(store, h.nodes, p, 0);
    closing::cut_out(store, h.nodes, parent, other);
    closing::close_both(store, h.nodes, p, parent);
    nodes::set_counts(store, h.nodes - 2, h.routes - 1);
}
