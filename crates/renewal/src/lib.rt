// What becomes of the entries once the table has taken an update: each one leaves, takes another hop, or stays as it is. The
// table is asked only about those that overlap the update's prefix.
#![tactic(auto)]

ghost use Rattle.std.specs.Prelude.{◌≡◌, ◌<◌, ◌≤◌};
ghost use Rattle.slots.specs.Layout.{entries_held, Shaped};
ghost use Rattle.renewal.specs.Passes.{Within, next_pass, Stepped, Drops, Keeps, Turns, Touches, Withdrawn, Alike, Passed};

use sizes::slot;
use updates::{Action, Prefix, Update};

// How far the pass has come: the slots after `at` are done. Each step asks where it stands in its cache, since a pass that kept
// that fact would need a ghost copy of the cache's words.
#[derive(Clone, Copy, Debug, PartialEq, Eq)]
pub struct Pass {
    pub at: u32,
    pub entries: u32,
    pub removed: u32,
    pub changed: u32,
}

impl Pass {
    // The slot in hand is done.
    fn next_slot(self, changed: u32) -> Pass
        requires in_hand { 0 < self.at }
        requires one_entry { changed ≤ 1 }
        requires room { self.changed < 4294967295 }
        ensures { result ≡ next_pass self changed }
    {
        Pass {
            at: self.at - 1,
            changed: self.changed + changed,
            ..self
        }
    }
}

// Every entry is looked at, from the last slot to the first. A removal moves other entries to lower slots, where they are
// looked at again: an entry that is right already is left alone.
pub fn renew(table: &[u32], cache: &mut [u32], u: Update, entries: u32) -> Pass
    requires shaped { Shaped cache.old }
    requires held { entries ≡ entries_held cache.old }
    ensures { Passed table.now cache.old cache.new u result }
{
    let mut p = Pass {
        at: entries,
        entries,
        removed: 0,
        changed: 0,
    };
    // no range of slots: after a removal the slot in hand is looked at once more
    while p.at != 0 {
        p = renew_one(table, cache, u, p);
    }
    p
}

// One entry: it leaves, takes another hop, or stays as it is. The table is not asked about one that the update cannot touch.
fn renew_one(table: &[u32], cache: &mut [u32], u: Update, p: Pass) -> Pass
    requires within { Within cache.old p }
    requires in_hand { 0 < p.at }
    ensures stepped { Stepped cache.old cache.new p result }
    ensures turns { Turns table.now cache.old cache.new u p result }
{
    let held = Prefix {
        address: slot::address_of(cache, p.at),
        length: slots::length_of(cache, p.at),
    };
    if !touches(u.prefix, held) {
        return p.next_slot(0);
    }
    let s = search::judge(table, held.address, held.length);
    let Some(found) = s.found else {
        return drop_one(cache, p);
    };
    if s.inside || withdrawn(u, held) {
        return drop_one(cache, p);
    }
    keep_one(cache, p, found.hop)
}

// Whether the prefix of an entry overlaps the prefix p. A length that no sound store has is no reason to leave the entry alone.
fn touches(p: Prefix, held: Prefix) -> bool
    ensures { Touches p held result }
{
    match (p.checked(), held.checked()) {
        (Some(p), Some(held)) => held.overlaps(p),
        _ => true,
    }
}

// Whether the prefix of an entry was just withdrawn.
#[tactic(auto, unfolding(model::specs::Model::withdraws))]
fn withdrawn(u: Update, held: Prefix) -> bool
    ensures { Withdrawn u held result }
{
    match u.action {
        Action::Announce(_) => false,
        Action::Withdraw => alike(u.prefix, held),
    }
}

// Whether the prefix of an entry is the prefix p, which may be longer than any: so it is no `==`.
fn alike(p: Prefix, held: Prefix) -> bool
    ensures { Alike p held result }
{
    match (p.checked(), held.checked()) {
        (Some(p), Some(held)) => p.same(held),
        _ => false,
    }
}

// The entry in hand leaves. Another may move into its slot or a lower one: it is looked at again.
fn drop_one(cache: &mut [u32], p: Pass) -> Pass
    requires within { Within cache.old p }
    requires in_hand { 0 < p.at }
    ensures stepped { Stepped cache.old cache.new p result }
    ensures drops { Drops cache.old cache.new p result }
{
    removal::remove_entry(cache, p.entries, p.at);
    let entries = p.entries - 1;
    Pass {
        at: p.at.min(entries),
        entries,
        removed: p.removed + 1,
        ..p
    }
}

// The entry in hand stays, and takes this hop if it has another.
fn keep_one(cache: &mut [u32], p: Pass, hop: u32) -> Pass
    requires within { Within cache.old p }
    requires in_hand { 0 < p.at }
    ensures stepped { Stepped cache.old cache.new p result }
    ensures keeps { Keeps cache.old cache.new p hop result }
{
    let old = slots::hop_of(cache, p.at);
    if old == hop || sizes::HIGHEST_HOP < hop {
        return p.next_slot(0);
    }
    entries::give_hop(cache, p.at, hop);
    p.next_slot(1)
}
