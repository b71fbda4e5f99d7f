// A route comes in, or takes another hop.
#![tactic(auto)]

ghost use Rattle.std.specs.Prelude.{◌≤◌, ◌<◌};
ghost use Rattle.model.specs.Demands.{Hop};
ghost use Rattle.announce.specs.Writes.{Roomy};
ghost use Rattle.announce.specs.Steps.{announcement, announcement_of, announcement_at, Sought, Comes, Meets};
ghost use Rattle.verdicts.specs.Verdicts.{Answered, NodeAt};

use nodes::Header;
use nodes::view::Nodes;
use prefix::ipv4::Prefix;
use prefix::{Address, HALF};
use sizes::slot;
use table::Stop;
use verdicts::UpdateError;

mod growing;

// A prefix with a hop.
#[derive(Clone, Copy, Debug)]
struct Route {
    prefix: Prefix,
    hop: u32,
}

// The route of the prefix, with a hop.
pub fn announce(store: &mut [u32], prefix: Prefix, hop: u32) -> Result<(), UpdateError>
    requires hop { Hop hop }
    ensures { Answered store.old store.new prefix.length (announcement prefix.address prefix.length hop) result }
{
    let header = nodes::read_header(store)?;
    let lent = Nodes {
        store,
        count: header.nodes,
    };
    let stop = table::descend(lent, prefix);
    let route = Route { prefix, hop };
    if stop.last == 0 {
        let newcomer = Newcomer {
            header,
            route,
            cell: 0,
            below: stop.beyond,
        };
        return newcomer.add(store);
    }
    announce_below(store, header, stop, route)
}

// The last node that contains the prefix is its own, or the prefix belongs below it.
fn announce_below(
    store: &mut [u32],
    header: Header,
    stop: Stop,
    route: Route,
) -> Result<(), UpdateError>
    requires sought { Sought store.old header stop route }
    requires contained { 0 < stop.last }
    ensures { Answered store.old store.new route.prefix.length (announcement_of route) result }
{
    let last = stop.last;
    let own = nodes::length_of(store, last);
    if own == route.prefix.length {
        return renew(store, header, last, route.hop);
    }
    if 31 < own {
        return Err(UpdateError::Unsound);
    }
    let cell = 2 * last + route.prefix.address.bit_at::<HALF>(own);
    let newcomer = Newcomer {
        header,
        route,
        cell,
        below: stop.beyond,
    };
    newcomer.add(store)
}

// The prefix has its node: a route takes the hop, and a branch becomes a route, if there is room.
fn renew(store: &mut [u32], h: Header, p: u32, hop: u32) -> Result<(), UpdateError>
    requires node { NodeAt store.old h p }
    requires hop { Hop hop }
    ensures { Answered store.old store.new 0 (announcement_at store.old p hop) result }
{
    if nodes::mark_of(store, p) != 0 {
        nodes::set_mark(store, p, hop + 1);
        return Ok(());
    }
    if h.routes < h.limit {
        nodes::set_mark(store, p, hop + 1);
        nodes::set_counts(store, h.nodes, h.routes + 1);
        return Ok(());
    }
    Err(UpdateError::Full)
}

// A route whose prefix has no node and belongs in the cell, where the node `below` hangs, or 0 for none, as in the words.
#[derive(Clone, Copy, Debug)]
struct Newcomer {
    header: Header,
    route: Route,
    cell: u32,
    below: u32,
}

impl Newcomer {
    fn add(self, store: &mut [u32]) -> Result<(), UpdateError>
        requires comes { Comes store.old self }
        ensures { Answered store.old store.new self.route.prefix.length (announcement_of self.route) result }
    {
        let h = self.header;
        if h.limit <= h.routes {
            return Err(UpdateError::Full);
        }
        if 2 * h.limit < h.nodes + 2 {
            return Err(UpdateError::Unsound);
        }
        if self.below == 0 {
            let r = self.route;
            growing::add_leaf(store, h, growing::leaf_of(r.prefix, r.hop + 1, self.cell));
            return Ok(());
        }
        self.add_at_node(store)
    }

    // The same where a node hangs, and there is room.
    fn add_at_node(self, store: &mut [u32]) -> Result<(), UpdateError>
        requires comes { Comes store.old self }
        requires roomy { Roomy store.old self.header }
        requires some_below { 0 < self.below }
        ensures { Answered store.old store.new self.route.prefix.length (announcement_of self.route) result }
    {
        let r = self.route;
        let own = nodes::length_of(store, self.below);
        if 32 < own {
            return Err(UpdateError::Unsound);
        }
        let there = slot::address_of(store, self.below);
        let agreed = r.prefix.address.common_bits::<HALF>(there, own);
        if r.prefix.length <= agreed {
            let side = there.bit_at::<HALF>(r.prefix.length);
            let node = growing::above_of(r.prefix, r.hop + 1, self.cell, side, self.below);
            growing::add_above(store, self.header, self.below, side, node);
            return Ok(());
        }
        self.add_beside(store, there, agreed)
    }

    // The prefix and that node part after the agreed bits: a branch holds these, and the prefix is a leaf on its other side.
    fn add_beside(self, store: &mut [u32], there: Address, agreed: u32) -> Result<(), UpdateError>
        requires comes { Comes store.old self }
        requires roomy { Roomy store.old self.header }
        requires some_below { 0 < self.below }
        requires meets { Meets store.old self.below self.route.prefix.address there agreed }
        requires parts { agreed < self.route.prefix.length }
        ensures { Answered store.old store.new self.route.prefix.length (announcement_of self.route) result }
    {
        let r = self.route;
        let side = there.bit_at::<HALF>(agreed);
        let shared = Prefix {
            address: r.prefix.address,
            length: agreed,
        };
        let branch = growing::above_of(shared, 0, self.cell, side, self.below);
        let other = 2 * (self.header.nodes + 1) + (1 - side);
        let leaf = growing::leaf_of(r.prefix, r.hop + 1, other);
        growing::add_fork(store, self.header, self.below, side, branch, leaf);
        Ok(())
    }
}
