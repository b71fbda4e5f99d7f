// Longest match over a table store, and what the table says of a prefix.
#![tactic(auto)]

ghost use Rattle.std.specs.Prelude.{◌≡◌, suc, ◌-◌, ◌≤◌, ◌<◌, take};
ghost use Rattle.prefix.specs.Prefix.{common};
ghost use Rattle.prefix.specs.Addresses.{ipv4_bits};
ghost use Rattle.trie.specs.Walk.{length_from, inside_at, inside_beyond, inside_from};
ghost use Rattle.sizes.specs.BothStores.{slot_word, word};
ghost use Rattle.nodes.specs.Layout.{trie_of, numbered};
ghost use Rattle.table.specs.Tables.{SoundTable};
ghost use Rattle.table.specs.Stops.{Stopped, stop_of};
ghost use Rattle.search.specs.Matches.{Matched};
ghost use Rattle.search.specs.Looks.{found_at, length_below, Length, Answered};
ghost use Rattle.search.specs.Standings.{Tells, Judged, JudgedAt};

use nodes::view::Nodes;
use prefix::ipv4::Prefix;
use prefix::{Address, HALF};
use table::Stop;

// The hop and the length of the longest route that contains the address.
#[derive(Clone, Copy, Debug, PartialEq, Eq)]
pub struct Match {
    pub hop: u32,
    pub length: u32,
}

#[derive(Clone, Copy, Debug, Default, PartialEq, Eq)]
pub struct Answer {
    pub found: Option<Match>,
    // nodes examined
    pub examined: u32,
    // with a match: the length of the shortest prefix of the address that is no shorter and holds no longer route. Not in
    // `Match`, which `judge` answers too.
    pub least: u32,
}

pub fn longest_match(store: &[u32], x: Address) -> Answer
    ensures sound { SoundTable store.now → Matched store.now (ipv4_bits x) result }
    ensures any { result.least ≤ 33 }
{
    let Ok(nodes) = Nodes::open(store) else {
        return Answer::default();
    };
    let sought = Prefix {
        address: x,
        length: 32,
    };
    let stop = table::descend(nodes, sought);
    answer_at(nodes, x, stop)
}

// The match is the last route that contains the address.
fn answer_at(nodes: Nodes, x: Address, stop: Stop) -> Answer
    requires { Stopped nodes.store.now (ipv4_bits x) 32 stop }
    ensures { Answered nodes.entry.store.now (ipv4_bits x) result }
{
    let best = stop.best;
    if best == 0 {
        return Answer {
            found: None,
            examined: stop.examined,
            least: 0,
        };
    }
    Answer {
        found: matched(nodes, best),
        examined: stop.examined,
        least: least(nodes, x, stop),
    }
}

// Node p as a match.
fn matched(nodes: Nodes, p: u32) -> Option<Match>
    requires a_node { 0 < p }
    requires in_use { p ≤ nodes.count }
    ensures { result ≡ found_at ((trie_of nodes.entry.store.now).hop (p - 1)) (word nodes.entry.store.now (slot_word p 1)) }
{
    let mark = nodes.mark_of(p);
    if mark == 0 {
        return None;
    }
    Some(Match {
        hop: mark - 1,
        length: nodes.length_of(p),
    })
}

// One past the last bit in which the address agrees with a route that does not contain it, or the match's own length: the
// node after the last that contains the address says it, or whether the last one has any node below it.
fn least(nodes: Nodes, x: Address, stop: Stop) -> u32
    requires { Stopped nodes.store.now (ipv4_bits x) 32 stop }
    ensures { Length nodes.entry.store.now (length_from (trie_of nodes.entry.store.now) (ipv4_bits x) (numbered stop.last) (numbered stop.beyond)) result }
{
    if stop.beyond != 0 {
        return past(nodes, x, stop.beyond);
    }
    if stop.last == 0 {
        return 0;
    }
    at_end(nodes, stop.last)
}

// One past the bits in which the address agrees with node p.
fn past(nodes: Nodes, x: Address, p: u32) -> u32
    requires a_node { 0 < p }
    requires in_use { p ≤ nodes.count }
    ensures { Length nodes.entry.store.now (suc (common (ipv4_bits x) ((trie_of nodes.entry.store.now).prefix (p - 1)))) result }
{
    let own = nodes.length_of(p);
    if 32 < own {
        return 0;
    }
    1 + x.common_bits::<HALF>(nodes.address_of(p), own)
}

// The length of node p, and one more where it has nodes below it.
fn at_end(nodes: Nodes, p: u32) -> u32
    requires a_node { 0 < p }
    requires in_use { p ≤ nodes.count }
    ensures { Length nodes.entry.store.now (length_below (trie_of nodes.entry.store.now) (p - 1)) result }
{
    let own = nodes.length_of(p);
    if 32 < own {
        return 0;
    }
    if has_child(nodes, p) { own + 1 } else { own }
}

// Whether node p has nodes below it.
fn has_child(nodes: Nodes, p: u32) -> bool
    requires a_node { 0 < p }
    requires in_use { p ≤ nodes.count }
    ensures { result ≡ inside_at (trie_of nodes.entry.store.now) (p - 1) }
{
    nodes.child_of(2 * p) != 0 || nodes.child_of(2 * p + 1) != 0
}

// ---- a prefix

// What a table says of a prefix: the match of the whole prefix, and whether a route lies strictly inside it.
#[derive(Clone, Copy, Debug, Default, PartialEq, Eq)]
pub struct Standing {
    pub found: Option<Match>,
    pub inside: bool,
}

// The prefix is the first n bits of the address.
pub fn judge(store: &[u32], a: Address, n: u32) -> Standing
    ensures { JudgedAt store.now (ipv4_bits a) n result }
{
    if 32 < n {
        return Standing::default();
    }
    let Ok(nodes) = Nodes::open(store) else {
        return Standing::default();
    };
    let sought = Prefix {
        address: a,
        length: n,
    };
    let stop = table::descend(nodes, sought);
    standing_at(nodes, sought, stop)
}

// The match is the last route that contains the prefix.
fn standing_at(nodes: Nodes, sought: Prefix, stop: Stop) -> Standing
    requires { Stopped nodes.store.now (ipv4_bits sought.address) sought.length stop }
    ensures { SoundTable nodes.entry.store.now → Judged nodes.entry.store.now (take sought.length (ipv4_bits sought.address)) result }
{
    let route = stop.best;
    let inside = inside_at(nodes, sought, stop);
    if route == 0 {
        return Standing {
            found: None,
            inside,
        };
    }
    Standing {
        found: matched(nodes, route),
        inside,
    }
}

// Whether a route lies strictly inside the prefix: below its own node, or else at the node after the last that contains it.
fn inside_at(nodes: Nodes, sought: Prefix, stop: Stop) -> bool
    requires { Stopped nodes.store.now (ipv4_bits sought.address) sought.length stop }
    ensures { Tells nodes.entry.store.now (inside_from (trie_of nodes.entry.store.now) (take sought.length (ipv4_bits sought.address)) (stop_of stop)) result }
{
    let last = stop.last;
    let next = stop.beyond;
    if last == 0 || nodes.length_of(last) != sought.length {
        return lies_inside(nodes, next, sought);
    }
    has_child(nodes, last)
}

// Whether node p, if there is one, lies inside the prefix.
fn lies_inside(nodes: Nodes, p: u32, sought: Prefix) -> bool
    requires { p ≤ nodes.count }
    ensures { Tells nodes.entry.store.now (inside_beyond (trie_of nodes.entry.store.now) (take sought.length (ipv4_bits sought.address)) (numbered p)) result }
{
    if p == 0 || nodes.length_of(p) < sought.length {
        return false;
    }
    sought.contains(nodes.address_of(p))
}
