// The five tallies of a cache: counted by value, and added to the record that a caller lends. They wrap at 2^32 as
// Counter32 of RFC 2578 does, so only the difference of two readings says how much happened between them.
#![tactic(auto)]

ghost use Rattle.std.specs.Prelude.{◌≡◌};
ghost use Rattle.tallies.specs.Counting.{zero_tallies, after_hit, after_miss, after_drop, after_update, difference, held_sum, sum, InRange, Added};

#[repr(C)]
#[derive(Clone, Copy, Debug, Default, PartialEq, Eq)]
pub struct Tallies {
    pub hits: u32,
    pub misses: u32,
    pub drops: u32,
    pub evicted: u32,
    pub removed: u32,
}

impl Tallies {
    // The record to start from.
    pub fn zero() -> Tallies
        ensures { result ≡ zero_tallies }
    {
        Tallies::default()
    }

    // After a lookup that hit.
    pub fn count_hit(self) -> Tallies
        ensures { result ≡ after_hit self }
    {
        Tallies {
            hits: self.hits.wrapping_add(1),
            ..self
        }
    }

    // After a lookup that missed, with a match, and gave up so many entries.
    pub fn count_miss(self, evicted: u32) -> Tallies
        ensures { result ≡ after_miss self evicted }
    {
        Tallies {
            misses: self.misses.wrapping_add(1),
            evicted: self.evicted.wrapping_add(evicted),
            ..self
        }
    }

    // After a lookup without a match.
    pub fn count_drop(self) -> Tallies
        ensures { result ≡ after_drop self }
    {
        Tallies {
            drops: self.drops.wrapping_add(1),
            ..self
        }
    }

    // After an accepted update that removed so many entries.
    pub fn count_removed(self, removed: u32) -> Tallies
        ensures { result ≡ after_update self removed }
    {
        Tallies {
            removed: self.removed.wrapping_add(removed),
            ..self
        }
    }

    // What was counted since an earlier reading.
    pub fn since(self, then: Tallies) -> Tallies
        ensures { result ≡ difference self then }
    {
        Tallies {
            hits: self.hits.wrapping_sub(then.hits),
            misses: self.misses.wrapping_sub(then.misses),
            drops: self.drops.wrapping_sub(then.drops),
            evicted: self.evicted.wrapping_sub(then.evicted),
            removed: self.removed.wrapping_sub(then.removed),
        }
    }

    // The entries that a cache holds, by its tallies.
    pub fn held(self) -> u32
        ensures { result ≡ held_sum self }
    {
        self.misses
            .wrapping_sub(self.evicted)
            .wrapping_sub(self.removed)
    }

    // Two records, tally by tally.
    pub fn joined(self, moved: Tallies) -> Tallies
        ensures sums { result ≡ sum self moved }
        ensures in_range { InRange self }
    {
        Tallies {
            hits: self.hits.wrapping_add(moved.hits),
            misses: self.misses.wrapping_add(moved.misses),
            drops: self.drops.wrapping_add(moved.drops),
            evicted: self.evicted.wrapping_add(moved.evicted),
            removed: self.removed.wrapping_add(moved.removed),
        }
    }

    // What one call moved is added to the caller's record: of a hit, one.
    pub fn add(&mut self, moved: Tallies)
        ensures { Added self.old self.new moved }
    {
        *self = self.joined(moved);
    }
}
