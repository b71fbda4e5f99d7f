// The public update of a pair of stores that the caller lends: the table first, then the entries that overlap the prefix. It
// takes every update and every content of the stores, and ends; from a sound pair it does what the model says and leaves it
// sound.
#![tactic(auto)]

ghost use Rattle.refresh.specs.Promises.{UpdatePromise, Numbered};

use tallies::Tallies;
use updates::Update;
use verdicts::UpdateError;

// What an update did. A refusal has no counts, and leaves the caller's tallies as they were.
#[derive(Clone, Copy, Debug, PartialEq, Eq)]
pub struct Updated {
    // entries removed, and entries kept whose hop differs from before
    pub removed: u32,
    pub changed: u32,
    pub tallies: Tallies,
}

// The table first, once the update and the cache's header are seen to fit. A refusal by the table is the answer; else the
// cache is brought up to it.
pub fn update_pair(
    table: &mut [u32],
    cache: &mut [u32],
    t: Tallies,
    u: Update,
) -> Result<Updated, UpdateError>
    ensures update_promise { UpdatePromise table.old cache.old table.new cache.new t u result }
    ensures numbered { Numbered t u result }
{
    u.check()?;
    let h = slots::read_header(cache)?;
    updates::update_table(table, u)?;
    let pass = renewal::renew(table, cache, u, h.entries);
    Ok(Updated {
        removed: pass.removed,
        changed: pass.changed,
        tallies: t.count_removed(pass.removed),
    })
}
