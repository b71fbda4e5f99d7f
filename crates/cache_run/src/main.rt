// Thousands of hits, insertions and removals in bad orders on a cache of limit 40. After each the store is checked and its
// whole order of use goes into a digest; at the end the order is printed. What it prints was worked out beside it by another
// program, over plain lists.
#![tactic(auto)]

ghost use Rattle.std.specs.Prelude.{◌≤◌};

use cache::FindError;
use prefix::Address;
use prefix::ipv4::Prefix;
use slots::view::Slots;
use std::io;

const TURNS: u32 = 6_000;

// What happened so far. The counts wrap, which no run comes near; the digest stands for every order of use.
#[derive(Clone, Copy)]
struct Totals {
    seed: u64,
    hits: u64,
    stored: u64,
    removed: u64,
    unsound: u64,
    digest: u64,
}

fn address_for(seed: u64) -> Address {
    let pattern = test_tools::high(test_tools::next(seed)) % 64 * 68_174_084
        + test_tools::high(test_tools::next(test_tools::next(seed))) % 4;
    Address::from((pattern % 4_294_967_296) as u32)
}

// ---- one turn

// The first bits of x, one to three more than any entry shares with it. Where there is no room the least recently used entry
// goes first: how many went.
fn insert(store: &mut [u32], x: Address, past: u32, seed: u64, turn: u32) -> u64 {
    let n = shorter(past, test_tools::high(seed));
    let hop = hop_for(turn);
    match cache::insert(store, x, n, hop) {
        Ok(()) => 0,
        Err(_) => replace_oldest(store, x, n, hop),
    }
}

fn replace_oldest(store: &mut [u32], x: Address, n: u32, hop: u32) -> u64 {
    let Ok(Some(slot)) = cache::oldest(store) else {
        return 0;
    };
    let _ = cache::remove(store, slot);
    let _ = cache::insert(store, x, n, hop);
    1
}

fn hop_for(turn: u32) -> u32 {
    1 + turn % 60_000
}

// One to three more bits than are shared, at most 32.
fn shorter(past: u32, k: u64) -> u32 {
    if 32 <= past {
        return 32;
    }
    (past + ((k % 3) as u32)).min(32)
}

fn store_new(store: &mut [u32], x: Address, past: u32, turn: u32, totals: &mut Totals) {
    totals.stored = test_tools::one_more(totals.stored);
    let went = insert(store, x, past, totals.seed, turn);
    totals.removed = totals.removed.wrapping_add(went);
}

fn use_or_remove(store: &mut [u32], slot: u32, totals: &mut Totals) {
    if test_tools::high(totals.seed) % 10 < 4 {
        let _ = cache::remove(store, slot);
        totals.removed = test_tools::one_more(totals.removed);
        return;
    }
    let _ = cache::touch(store, slot);
    totals.hits = test_tools::one_more(totals.hits);
}

fn turn_once(store: &mut [u32], turn: u32, totals: &mut Totals) {
    let x = address_for(totals.seed);
    totals.seed = test_tools::next(test_tools::next(test_tools::next(totals.seed)));
    match cache::find(store, x) {
        Ok(slot) => use_or_remove(store, slot, totals),
        Err(FindError::Nothing(past)) => store_new(store, x, past, turn, totals),
        Err(FindError::Unsound) => totals.unsound = test_tools::one_more(totals.unsound),
    }
}

// ---- the order of use

// The whole order of use, from the most recently used entry on: each entry's hop and length. It is `shown` once, at the end.
fn see_all(rt: &impl Print, store: &[u32], digest: u64, shown: bool) -> io::Result<u64> {
    let Ok(slots) = Slots::open(store) else {
        return Ok(digest);
    };
    let mut seen = digest;
    let mut at = slots.next_of(0);
    for _ in 0..slots.count {
        if slots.count < at {
            break;
        }
        seen = see(rt, slots, at, seen, shown)?;
        at = slots.next_of(at);
    }
    Ok(seen)
}

fn see(rt: &impl Print, slots: Slots, at: u32, digest: u64, shown: bool) -> io::Result<u64>
    requires { at ≤ slots.count }
{
    let n = slots.length_of(at);
    let hop = slots.hop_of(at);
    if shown {
        show_entry(rt, slots.address_of(at), n, hop)?;
    }
    Ok(test_tools::digested(digest, (hop as u64) * 64 + (n as u64)))
}

fn show_entry(rt: &impl Print, a: Address, n: u32, hop: u32) -> io::Result<()> {
    let Some(prefix) = Prefix::new(a, n) else {
        return Ok(());
    };
    let [first, second, third, last] = prefix.cleared().to_be_bytes();
    println!(rt; "{first}.{second}.{third}.{last}/{n} {hop}")
}

fn check_all(rt: &impl Print, store: &[u32], totals: &mut Totals) -> io::Result<()> {
    if !cache::check::check_entries(store) {
        totals.unsound = test_tools::one_more(totals.unsound);
    }
    totals.digest = see_all(rt, store, totals.digest, false)?;
    Ok(())
}

fn run(rt: &impl Print, store: &mut [u32]) -> io::Result<Totals> {
    let mut totals = Totals {
        seed: 99,
        hits: 0,
        stored: 0,
        removed: 0,
        unsound: 0,
        digest: 0,
    };
    for turn in 0..TURNS {
        turn_once(store, turn, &mut totals);
        check_all(rt, store, &mut totals)?;
    }
    Ok(totals)
}

fn main(rt: HostRuntime) -> io::Result<()> {
    let mut store = [0xffff_ffffu32; 1400];
    let _ = cache::set_up(&mut store, 40);
    let totals = run(&rt, &mut store)?;
    test_tools::show(&rt, b"hits ", totals.hits)?;
    test_tools::show(&rt, b"stored ", totals.stored)?;
    test_tools::show(&rt, b"removed ", totals.removed)?;
    test_tools::show(&rt, b"unsound ", totals.unsound)?;
    test_tools::show(&rt, b"digest ", totals.digest)?;
    see_all(&rt, &store, 0, true)?;
    Ok(())
}
