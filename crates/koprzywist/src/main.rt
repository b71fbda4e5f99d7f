// The script program: reads calls from standard input, a line each, and prints their answers. The stores are its own: a
// table of 512 routes and a cache of 3 entries. Input is read and output is written in blocks, so that memory is constant
// whatever the length of the script.
#![tactic(auto)]

ghost use Rattle.std.specs.Prelude.{◌+◌, ◌≡◌, ◌≤◌, length, ltb, IfSome};
ghost use Rattle.answers.specs.Answers.{room};
ghost use Rattle.koprzywist.specs.Blocks.{Stepped, Lines, Stopped, BlockAnswered};

use answers::Said;
use std::io;
use std::io::{Read as _, Stdin, Stdout, Write as _};
use tallies::Tallies;

const TABLE_LIMIT: u32 = 512;

const CACHE_LIMIT: u32 = 3;

// How much is read and written at once.
const BLOCK: usize = 65_536;

// ---- a block of lines
// Stores and output are lent one by one: lent in one struct, no proof was found that a write of the output's bytes leaves them.

// How far a block was read, and what its lines left: the tallies, and how many bytes of the output wait to be written.
#[derive(Clone, Copy, Debug, PartialEq, Eq)]
struct Reached {
    at: usize,
    waiting: usize,
    tallies: Tallies,
}

// Whether there is no room for another line.
fn is_full(size: usize, waiting: usize) -> bool
    ensures { result ≡ ltb size (waiting + room) }
{
    size < answers::ROOM || size - answers::ROOM < waiting
}

// The next line, answered; none where there is no whole line, or no room for its answer.
fn next_line(
    table: &mut [u32],
    cache: &mut [u32],
    out: &mut [u8],
    block: &[u8],
    r: Reached,
) -> Option<Reached>
    ensures { Stepped block.now table.old cache.old out.old table.new cache.new out.new r result }
{
    if is_full(out.len(), r.waiting) {
        return None;
    }
    let read = script::read_line(block, r.at)?;
    let answered = interpreter::answer_line(table, cache, r.tallies, read.line);
    let waiting = answers::write_line(out, r.waiting, answered.said);
    Some(Reached {
        at: read.feed + 1,
        waiting,
        tallies: answered.tallies,
    })
}

// The whole lines of a block from a place on, as many as the output has room for.
fn whole_lines(
    table: &mut [u32],
    cache: &mut [u32],
    out: &mut [u8],
    block: &[u8],
    start: Reached,
) -> Reached
    ensures lines { Lines block.now table.old cache.old out.old start table.new cache.new out.new result }
    ensures stopped { Stopped block.now out.old result }
{
    let mut reached = start;
    while let Some(next) = next_line(table, cache, out, block, reached) {
        reached = next;
    }
    reached
}

// A block that was answered: where its whole lines end, and the tallies after them.
#[derive(Clone, Copy, Debug, PartialEq, Eq)]
struct Answered {
    end: usize,
    tallies: Tallies,
}

// Every whole line of a block, as many at a time as the output has room for. After a write that failed nothing more is
// answered or written: what was printed has no gap.
fn answer_block(
    mut output: Stdout,
    table: &mut [u32],
    cache: &mut [u32],
    out: &mut [u8],
    block: &[u8],
    t: Tallies,
) -> io::Result<Answered>
    ensures { BlockAnswered block.now table.old cache.old out.old table.new cache.new out.new t result }
{
    let mut at: usize = 0;
    let mut tallies = t;
    loop {
        let start = Reached {
            at,
            waiting: 0,
            tallies,
        };
        let reached = whole_lines(table, cache, out, block, start);
        output.write_all(&out[..reached.waiting])?;
        if reached.at <= at {
            return Ok(Answered {
                end: reached.at,
                tallies: reached.tallies,
            });
        }
        at = reached.at;
        tallies = reached.tallies;
    }
}

// ---- the input

// How many bytes at the start of the buffer belong to a line that has not ended, and the tallies after the lines before it.
#[derive(Clone, Copy, Debug, PartialEq, Eq)]
struct Held {
    bytes: usize,
    tallies: Tallies,
}

// Reads once behind the bytes that are held: how many there are then; none at the end of the input or where reading fails.
fn read_more(mut source: Stdin, input: &mut [u8], held: usize) -> Option<usize>
    ensures { IfSome result (λ n. n ≤ length input.new) }
{
    let got = source.read(input.get_mut(held..)?).unwrap_or(0);
    if got == 0 {
        return None;
    }
    Some(held + got)
}

// One block: reads it, answers its lines and keeps the rest, which has no line feed, at the start of the buffer. Of a line that
// is too long already no more is kept than makes it so.
fn next_block(
    source: Stdin,
    output: Stdout,
    table: &mut [u32],
    cache: &mut [u32],
    out: &mut [u8],
    input: &mut [u8],
    held: Held,
) -> io::Result<Option<Held>> {
    let Some(n) = read_more(source, input, held.bytes) else {
        return Ok(None);
    };
    let answered = answer_block(output, table, cache, out, &input[..n], held.tallies)?;
    let bytes = (n - answered.end).min(script::LONGEST + 1);
    input.copy_within(answered.end..answered.end + bytes, 0);
    Ok(Some(Held {
        bytes,
        tallies: answered.tallies,
    }))
}

// To the end of the input, which no run of so many blocks outlasts.
fn all_blocks(
    source: Stdin,
    output: Stdout,
    table: &mut [u32],
    cache: &mut [u32],
    out: &mut [u8],
    input: &mut [u8],
    start: Held,
) -> io::Result<Held> {
    let mut held = start;
    for _ in 0..u64::MAX {
        let Some(after) = next_block(source, output, table, cache, out, input, held)? else {
            break;
        };
        held = after;
    }
    Ok(held)
}

// The last line may lack its line feed, and is given it; an empty rest is no line.
fn last_line(
    output: Stdout,
    table: &mut [u32],
    cache: &mut [u32],
    out: &mut [u8],
    input: &mut [u8],
    held: Held,
) -> io::Result<Tallies> {
    let n = held.bytes;
    if n == 0 || input.len() <= n {
        return Ok(held.tallies);
    }
    input[n] = b'\n';
    let answered = answer_block(output, table, cache, out, &input[..n + 1], held.tallies)?;
    Ok(answered.tallies)
}

// Answers the whole input, and says the tallies.
fn run(
    source: Stdin,
    mut output: Stdout,
    table: &mut [u32],
    cache: &mut [u32],
    out: &mut [u8],
    input: &mut [u8],
) -> io::Result<()> {
    let start = Held {
        bytes: 0,
        tallies: Tallies::zero(),
    };
    let held = all_blocks(source, output, table, cache, out, input, start)?;
    let t = last_line(output, table, cache, out, input, held)?;
    let n = answers::write_line(out, 0, Said::Tallies(t.hits, t.misses, t.drops));
    output.write_all(&out[..n])
}

fn main(rt: HostRuntime) {
    let mut table = [0u32; 9216];
    let mut cache = [0u32; 1048];
    // Both stores have the words that their limits need.
    let _ = table::set_up(&mut table, TABLE_LIMIT);
    let _ = cache::set_up(&mut cache, CACHE_LIMIT);
    let mut input = [0u8; BLOCK];
    let mut out = [0u8; BLOCK];
    let source = rt.stdin();
    let output = rt.stdout();
    // A write that failed ends the program, and nobody is left to tell.
    let _ = run(source, output, &mut table, &mut cache, &mut out, &mut input);
}
