// Fills a table of limit 64 to the brim with nested prefixes and empties it again, many times over and in bad orders: each
// turn announces or withdraws one prefix, checks that the store is sound, and looks one address up. What it prints was
// worked out beside it by another program, over plain lists.
#![tactic(auto)]

use prefix::{Address, HALF};
use std::io;
use updates::{Action, Prefix, Update};
use verdicts::UpdateError;

const TURNS: u32 = 12_000;

// What happened so far. The counts wrap, which no run comes near; the digest stands for every answer.
#[derive(Clone, Copy, Debug, Default, PartialEq, Eq)]
struct Totals {
    seed: u64,
    done: u64,
    full: u64,
    not_held: u64,
    unsound: u64,
    digest: u64,
}

// One of eight patterns of bits, each nested in itself at every length.
fn pattern(k: u64) -> Address {
    Address::from((k % 8 * 613_566_756 % 4_294_967_296) as u32)
}

fn digested(t: Totals, answer: u64) -> Totals {
    let mut u = t;
    u.digest = test_tools::digested(t.digest, answer);
    u
}

fn update_for(seed: u64, turn: u32) -> Update {
    let first = test_tools::next(seed);
    let second = test_tools::next(first);
    let third = test_tools::next(second);
    let length = (test_tools::high(second) % 33) as u32;
    let few = test_tools::high(third) % 16 < 4;
    let emptying = turn / 300 % 2 == 1;
    let action = if few != emptying {
        Action::Withdraw
    } else {
        Action::Announce(1 + ((test_tools::high(third) % 60_000) as u32))
    };
    Update {
        prefix: Prefix {
            address: pattern(test_tools::high(first)),
            length,
        },
        action,
    }
}

fn counted(t: Totals, answer: Result<(), UpdateError>) -> Totals {
    let mut u = t;
    match answer {
        Ok(()) => u.done = test_tools::one_more(t.done),
        Err(UpdateError::Full) => u.full = test_tools::one_more(t.full),
        Err(UpdateError::NotHeld) => u.not_held = test_tools::one_more(t.not_held),
        Err(UpdateError::TooLong | UpdateError::BadHop | UpdateError::Unsound) => {
            u.unsound = test_tools::one_more(t.unsound);
        }
    }
    u
}

// The hop and length of the match, the nodes examined and the routes' part of the stored length, in one number.
fn answer_of(store: &[u32], x: Address) -> u64 {
    let a = search::longest_match(store, x);
    let Some(m) = a.found else {
        return (a.examined as u64) * 7;
    };
    (m.hop as u64) * 64 + (m.length as u64) + (a.examined as u64) * 7 + (a.least as u64) * 11
}

fn turn_once(store: &mut [u32], turn: u32, t: Totals) -> Totals {
    let u = update_for(t.seed, turn);
    let mut after = counted(t, updates::update_table(store, u));
    after.seed = test_tools::next(test_tools::next(test_tools::next(test_tools::next(t.seed))));
    if !table::check(store) {
        after.unsound = test_tools::one_more(after.unsound);
    }
    let x = pattern(test_tools::high(after.seed) % 64 / 8).trim::<HALF>(
        ((test_tools::high(after.seed) % 8) as u32) * 4 + 4,
    );
    digested(after, answer_of(store, x))
}

fn run(store: &mut [u32]) -> Totals {
    let mut t = Totals {
        seed: 12_345,
        ..Totals::default()
    };
    for turn in 0..TURNS {
        t = turn_once(store, turn, t);
    }
    t
}

fn main(rt: HostRuntime) -> io::Result<()> {
    let mut store = [0xffff_ffffu32; 2048];
    table::set_up(&mut store, 64).unwrap();
    let t = run(&mut store);
    test_tools::show(&rt, b"done ", t.done)?;
    test_tools::show(&rt, b"full ", t.full)?;
    test_tools::show(&rt, b"not held ", t.not_held)?;
    test_tools::show(&rt, b"unsound ", t.unsound)?;
    test_tools::show(&rt, b"digest ", t.digest)
}
