// What a router links: the functions of c_library under their own names, with the same clauses.
//
// A slice is two arguments of C, a pointer and a count. There is no logic here: each function makes the proved call. The functions
// stand twice because a crate is built as a library or for C, and `linked` stands on the library.
#![tactic(auto)]

ghost use Rattle.std.specs.Prelude.{◌≡◌};
ghost use Rattle.sizes.specs.Sizes.{entries_for, sizing_number, sizing_entries};
ghost use Rattle.tallies.specs.Counting.{difference as between, held_sum};
ghost use Rattle.table.specs.Tables.{TableSetUp};
ghost use Rattle.cache.specs.Calls.{CacheSetUp};
ghost use Rattle.updates.specs.declared.Action.TheVariants.{Announce, Withdraw};
ghost use Rattle.c_library.specs.Promises.{SetUpTold, TableSound, PairSound, LentLookup, LentUpdate};

use tallies::Tallies;

#[unsafe(no_mangle)]
pub extern "C" fn kop_entries_for(bytes: u64, entries: &mut u32) -> u32
    ensures { (result ≡ sizing_number (entries_for bytes)) × (entries.new ≡ sizing_entries (entries_for bytes)) }
{
    c_library::kop_entries_for(bytes, entries)
}

#[unsafe(no_mangle)]
pub extern "C" fn kop_table_setup(table: &mut [u32], limit: u32) -> u32
    ensures { SetUpTold (TableSetUp table.old table.new limit) result }
{
    c_library::kop_table_setup(table, limit)
}

#[unsafe(no_mangle)]
pub extern "C" fn kop_cache_setup(cache: &mut [u32], limit: u32) -> u32
    ensures { SetUpTold (CacheSetUp cache.old cache.new limit) result }
{
    c_library::kop_cache_setup(cache, limit)
}

#[unsafe(no_mangle)]
pub extern "C" fn kop_table_check(table: &[u32]) -> u32
    ensures { TableSound table.now result }
{
    c_library::kop_table_check(table)
}

#[unsafe(no_mangle)]
pub extern "C" fn kop_check(table: &[u32], cache: &[u32]) -> u32
    ensures { PairSound table.now cache.now result }
{
    c_library::kop_check(table, cache)
}

#[unsafe(no_mangle)]
pub extern "C" fn kop_lookup(
    table: &[u32],
    cache: &mut [u32],
    tallies: &mut Tallies,
    address: u32,
    answer: &mut [u32; 5],
) -> u32
    ensures { LentLookup table.now cache.old cache.new tallies.old tallies.new address result answer.new }
{
    c_library::kop_lookup(table, cache, tallies, address, answer)
}

#[unsafe(no_mangle)]
pub extern "C" fn kop_announce(
    table: &mut [u32],
    cache: &mut [u32],
    tallies: &mut Tallies,
    address: u32,
    length: u32,
    hop: u32,
    answer: &mut [u32; 2],
) -> u32
    ensures { LentUpdate table.old cache.old table.new cache.new tallies.old tallies.new address length (Announce hop) result answer.new }
{
    c_library::kop_announce(table, cache, tallies, address, length, hop, answer)
}

#[unsafe(no_mangle)]
pub extern "C" fn kop_withdraw(
    table: &mut [u32],
    cache: &mut [u32],
    tallies: &mut Tallies,
    address: u32,
    length: u32,
    answer: &mut [u32; 2],
) -> u32
    ensures { LentUpdate table.old cache.old table.new cache.new tallies.old tallies.new address length Withdraw result answer.new }
{
    c_library::kop_withdraw(table, cache, tallies, address, length, answer)
}

#[unsafe(no_mangle)]
pub extern "C" fn kop_tallies_since(later: &Tallies, earlier: &Tallies, difference: &mut Tallies)
    ensures { difference.new ≡ between later.now earlier.now }
{
    c_library::kop_tallies_since(later, earlier, difference)
}

#[unsafe(no_mangle)]
pub extern "C" fn kop_held(tallies: &Tallies) -> u32
    ensures { result ≡ held_sum tallies.now }
{
    c_library::kop_held(tallies)
}
