// Prints what memory figures at and beside the limits are answered with.
#![tactic(auto)]

use std::io;

fn show(rt: &impl Print, bytes: u64) -> io::Result<()> {
    let answer = sizes::entries_for(bytes);
    let number = sizes::refusal::number_of(answer);
    let entries = sizes::sizing_entries(answer);
    println!(rt; "{bytes} number {number} entries {entries}")
}

fn main(rt: HostRuntime) -> io::Result<()> {
    show(&rt, 0)?;
    show(&rt, 4_127)?;
    show(&rt, 4_128)?;
    show(&rt, 4_159)?;
    show(&rt, 4_160)?;
    show(&rt, 33_558_559)?;
    show(&rt, 33_558_560)?;
    show(&rt, 2_147_483_647)?;
    show(&rt, 2_147_483_648)?;
    show(&rt, 4_294_967_296)?;
    show(&rt, 9_223_372_036_854_775_808)?;
    show(&rt, 18_446_744_073_709_551_615)
}
