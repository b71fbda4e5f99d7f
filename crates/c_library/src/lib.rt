// What a router calls: one function for each public call, under the names and numbers of include/koprzywist.h. The crate
// c_library_c exports each of them to C.
//
// There is no logic here: each function makes the proved call and writes its answer as words; a refused call writes 0 to
// every word of its answer. What a call moves is counted from zero and added to the record that the caller lends. Numbers
// and words are the C interface, and `program_told` of the crate linked is of them.
#![tactic(auto)]

ghost use Rattle.std.specs.Prelude.{◌≡◌};
ghost use Rattle.sizes.specs.Sizes.{entries_for, sizing_number, sizing_entries};
ghost use Rattle.tallies.specs.Counting.{zero_tallies, difference as between, held_sum};
ghost use Rattle.table.specs.Tables.{TableSetUp};
ghost use Rattle.cache.specs.Calls.{CacheSetUp};
ghost use Rattle.updates.specs.declared.Action.TheVariants.{Announce, Withdraw};
ghost use Rattle.c_library.specs.Words.{answer_words};
ghost use Rattle.c_library.specs.Promises.{SetUpTold, TableSound, PairSound, LookTold, UpdateTold, LentLookup, LentUpdate};

use lookup::Answer;
use sizes::refusal;
use sizes::refusal::{Refusal as _, Unsound};
use tallies::Tallies;
use updates::{Action, Update};

// ---- sizes and set-up

pub fn kop_entries_for(bytes: u64, entries: &mut u32) -> u32
    ensures { (result ≡ sizing_number (entries_for bytes)) × (entries.new ≡ sizing_entries (entries_for bytes)) }
{
    let answer = sizes::entries_for(bytes);
    *entries = sizes::sizing_entries(answer);
    refusal::number_of(answer)
}

pub fn kop_table_setup(table: &mut [u32], limit: u32) -> u32
    ensures { SetUpTold (TableSetUp table.old table.new limit) result }
{
    refusal::number_of(table::set_up(table, limit))
}

pub fn kop_cache_setup(cache: &mut [u32], limit: u32) -> u32
    ensures { SetUpTold (CacheSetUp cache.old cache.new limit) result }
{
    refusal::number_of(cache::set_up(cache, limit))
}

// ---- the checks: 1 for sound stores, 0 for others

pub fn kop_table_check(table: &[u32]) -> u32
    ensures { TableSound table.now result }
{
    u32::from(table::check(table))
}

pub fn kop_check(table: &[u32], cache: &[u32]) -> u32
    ensures { PairSound table.now cache.now result }
{
    u32::from(pairs::check_pair(table, cache))
}

// ---- lookup

// What a call returns, once its answer is written, and what it moved. A number and no Result: `LookTold` and `UpdateTold` say of
// both at once what C is told.
#[derive(Clone, Copy, Debug, PartialEq, Eq)]
struct Told {
    number: u32,
    moved: Tallies,
}

#[tactic(auto, using(crate::proofs::Adding::lent_lookup))]
pub fn kop_lookup(
    table: &[u32],
    cache: &mut [u32],
    tallies: &mut Tallies,
    address: u32,
    answer: &mut [u32; 5],
) -> u32
    ensures { LentLookup table.now cache.old cache.new tallies.old tallies.new address result answer.new }
{
    let told = look_up(table, cache, address, answer);
    tallies.add(told.moved);
    told.number
}

fn look_up(table: &[u32], cache: &mut [u32], address: u32, answer: &mut [u32; 5]) -> Told
    ensures { LookTold table.now cache.old cache.new address answer.new result }
{
    match lookup::look_up(table, cache, Tallies::zero(), address) {
        Ok(looked) => {
            *answer = look_words(looked.answer);
            Told {
                number: 0,
                moved: looked.tallies,
            }
        }
        Err(unsound) => {
            *answer = [0; 5];
            unsound_told(unsound)
        }
    }
}

// What C is told of stores that are not sound: 9, and nothing has moved.
fn unsound_told(unsound: Unsound) -> Told
    ensures { result ≡ record { number = 9; moved = zero_tallies } }
{
    Told {
        number: unsound.number(),
        moved: Tallies::zero(),
    }
}

// kind (0 hit, 1 miss, 2 drop), hop, the stored prefix's address and length, nodes examined. No From: neither type is this
// crate's.
fn look_words(answer: Answer) -> [u32; 5]
    ensures { result ≡ answer_words answer }
{
    match answer {
        Answer::Hit(hop) => [0, hop, 0, 0, 0],
        Answer::Miss(hop, address, length, examined) => [1, hop, address, length, examined],
        Answer::Drop(examined) => [2, 0, 0, 0, examined],
    }
}

// ---- updates

#[tactic(auto, using(crate::proofs::Adding::lent_update))]
pub fn kop_announce(
    table: &mut [u32],
    cache: &mut [u32],
    tallies: &mut Tallies,
    address: u32,
    length: u32,
    hop: u32,
    answer: &mut [u32; 2],
) -> u32
    ensures { LentUpdate table.old cache.old table.new cache.new tallies.old tallies.new address length (Announce hop) result answer.new }
{
    let told = update(table, cache, address, length, Action::Announce(hop), answer);
    tallies.add(told.moved);
    told.number
}

#[tactic(auto, using(crate::proofs::Adding::lent_update))]
pub fn kop_withdraw(
    table: &mut [u32],
    cache: &mut [u32],
    tallies: &mut Tallies,
    address: u32,
    length: u32,
    answer: &mut [u32; 2],
) -> u32
    ensures { LentUpdate table.old cache.old table.new cache.new tallies.old tallies.new address length Withdraw result answer.new }
{
    let told = update(table, cache, address, length, Action::Withdraw, answer);
    tallies.add(told.moved);
    told.number
}

fn update(
    table: &mut [u32],
    cache: &mut [u32],
    address: u32,
    length: u32,
    action: Action,
    answer: &mut [u32; 2],
) -> Told
    ensures { UpdateTold table.old cache.old table.new cache.new address length action answer.new result }
{
    let u = Update::new(address, length, action);
    match refresh::update_pair(table, cache, Tallies::zero(), u) {
        Ok(updated) => {
            *answer = [updated.removed, updated.changed];
            Told {
                number: 0,
                moved: updated.tallies,
            }
        }
        Err(refused) => {
            *answer = [0, 0];
            Told {
                number: refused.number(),
                moved: Tallies::zero(),
            }
        }
    }
}

// ---- tallies

pub fn kop_tallies_since(later: &Tallies, earlier: &Tallies, difference: &mut Tallies)
    ensures { difference.new ≡ between later.now earlier.now }
{
    *difference = later.since(*earlier);
}

pub fn kop_held(tallies: &Tallies) -> u32
    ensures { result ≡ held_sum tallies.now }
{
    tallies.held()
}
