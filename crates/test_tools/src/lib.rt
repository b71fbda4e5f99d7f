// What the programs that try a store over and over have in common: numbers that look random, counts, a digest of what they
// saw, and a line of what they print. They promise that they are safe and end; the stores' own calls promise the rest.
#![tactic(auto)]

use std::io;
use std::io::Write;

pub fn next(seed: u64) -> u64 {
    (seed % 4_294_967_296 * 1_103_515_245 + 12_345) % 4_294_967_296
}

// The low bits of such a seed repeat soon, so that only the high ones are used.
pub fn high(seed: u64) -> u64 {
    seed / 65_536
}

// A count wraps, which no run comes near.
pub fn one_more(n: u64) -> u64 {
    n.wrapping_add(1)
}

pub fn digested(digest: u64, n: u64) -> u64 {
    (digest % 1_000_003 * 31 + n % 1_000_003) % 1_000_003
}

pub fn show(rt: &impl Print, name: &[u8], n: u64) -> io::Result<()> {
    let mut out = io::writer(rt);
    out.write_all(name)?;
    writeln!(out, "{n}")
}
