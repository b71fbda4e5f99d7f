// The bytes of each line that is printed. Each function stores its bytes from a place of the lent buffer on, and answers the
// place after them. Buffer and place go side by side: of bytes that a struct holds as `&mut` nothing is known once it is gone.
#![tactic(auto)]

ghost use Rattle.std.specs.Prelude.{◌≡◌, ◌+◌, ◌≤◌, ◌<◌, ◌++◌, length};
ghost use Rattle.answers.specs.Text.{text};
ghost use Rattle.answers.specs.Answers.{decimal, dotted, answer_of, room, Printed};
ghost use Rattle.answers.specs.Writing.{Written};

// No answer is longer.
pub const ROOM: usize = 64;

// What is printed of an answer, and the last line.
// No `Display`: by std's contracts a `write!` may fail at any writer, and then nothing is known of the bytes that `Printed` promises.
#[derive(Clone, Copy, Debug, PartialEq, Eq)]
pub enum Said {
    // entries removed, and entries changed
    Done(u32, u32),
    // the hop
    Hit(u32),
    // the hop, the stored prefix's address and length, and the nodes examined
    Miss(u32, u32, u32, u32),
    // the nodes examined
    Drop(u32),
    // the refusal's number, which is what is printed of any call's refusal (`answer_of`)
    Refused(u32),
    Bad,
    // hits, misses and drops
    Tallies(u32, u32, u32),
}

// ---- words, and numbers after them; inlined, so that a word of a known length is stored without a call

// The bytes of a word.
#[inline(always)]
fn put_word(out: &mut [u8], at: usize, word: &[u8]) -> usize
    requires { at + length word.now ≤ length out.old }
    ensures { Written out.old out.new at word.now result }
{
    let end = at + word.len();
    out[at..end].copy_from_slice(word);
    end
}

// How many digits a number has.
fn digits(n: u32) -> usize
    ensures { result ≡ length (decimal n) }
{
    match n.checked_ilog10() {
        Some(log) => log as usize + 1,
        None => 1,
    }
}

// A number in decimal, with no leading zeros.
fn put_number(out: &mut [u8], at: usize, n: u32) -> usize
    requires { at + length (decimal n) ≤ length out.old }
    ensures { Written out.old out.new at (decimal n) result }
{
    let end = at + digits(n);
    itoa::write_digits(n as u64, out, end);
    end
}

// A word and a number.
#[inline(always)]
fn put(out: &mut [u8], at: usize, word: &[u8], n: u32) -> usize
    requires { at + length word.now + 10 ≤ length out.old }
    ensures written { Written out.old out.new at (word.now ++ decimal n) result }
    ensures upper_bound { result ≤ at + length word.now + 10 }
{
    let i = put_word(out, at, word);
    put_number(out, i, n)
}

// A mark and an octet.
#[inline(always)]
fn put_octet(out: &mut [u8], at: usize, mark: &[u8], octet: u8) -> usize
    requires room { at + 4 ≤ length out.old }
    requires one_byte { length mark.now ≡ 1 }
    ensures written { Written out.old out.new at (mark.now ++ decimal octet) result }
    ensures upper_bound { result ≤ at + 4 }
{
    let i = put_word(out, at, mark);
    put_number(out, i, octet as u32)
}

// A space and an address.
fn put_address(out: &mut [u8], at: usize, address: u32) -> usize
    requires { at + 16 ≤ length out.old }
    ensures written { Written out.old out.new at (text " " ++ dotted address) result }
    ensures upper_bound { result ≤ at + 16 }
{
    let [a, b, c, d] = address.to_be_bytes();
    let i = put_octet(out, at, b" ", a);
    let j = put_octet(out, i, b".", b);
    let k = put_octet(out, j, b".", c);
    put_octet(out, k, b".", d)
}

// ---- the lines

// The line of an accepted update.
fn put_done(out: &mut [u8], at: usize, removed: u32, changed: u32) -> usize
    requires { at + room ≤ length out.old }
    ensures { Written out.old out.new at (answer_of (Said.Done removed changed)) result }
{
    let i = put(out, at, b"ok ", removed);
    let j = put(out, i, b" ", changed);
    put_word(out, j, b"\n")
}

// The line of a miss.
fn put_miss(out: &mut [u8], at: usize, hop: u32, address: u32, bits: u32, examined: u32) -> usize
    requires { at + room ≤ length out.old }
    ensures { Written out.old out.new at (answer_of (Said.Miss hop address bits examined)) result }
{
    let i = put(out, at, b"miss ", hop);
    let j = put_address(out, i, address);
    let k = put(out, j, b"/", bits);
    let m = put(out, k, b" ", examined);
    put_word(out, m, b"\n")
}

// The last line.
fn put_tallies(out: &mut [u8], at: usize, hits: u32, misses: u32, drops: u32) -> usize
    requires { at + room ≤ length out.old }
    ensures { Written out.old out.new at (answer_of (Said.Tallies hits misses drops)) result }
{
    let i = put(out, at, b"hits ", hits);
    let j = put(out, i, b" misses ", misses);
    let k = put(out, j, b" drops ", drops);
    put_word(out, k, b"\n")
}

// A line of a word and one number.
#[inline(always)]
fn put_one(out: &mut [u8], at: usize, word: &[u8], n: u32) -> usize
    requires room { at + room ≤ length out.old }
    requires short { length word.now ≤ 8 }
    ensures { Written out.old out.new at (word.now ++ decimal n ++ text "\n") result }
{
    let i = put(out, at, word, n);
    put_word(out, i, b"\n")
}

// Writes a line from a place on, and answers the place after it. Where fewer than 64 bytes are left, nothing is written and the
// place itself is answered.
pub fn write_line(out: &mut [u8], at: usize, said: Said) -> usize
    ensures { Printed said at out.old out.new result }
{
    if out.len() < ROOM || out.len() - ROOM < at {
        return at;
    }
    match said {
        Said::Done(removed, changed) => put_done(out, at, removed, changed),
        Said::Hit(hop) => put_one(out, at, b"hit ", hop),
        Said::Miss(hop, address, bits, examined) => put_miss(out, at, hop, address, bits, examined),
        Said::Drop(examined) => put_one(out, at, b"drop ", examined),
        Said::Refused(number) => put_one(out, at, b"refused ", number),
        Said::Bad => put_word(out, at, b"bad\n"),
        Said::Tallies(hits, misses, drops) => put_tallies(out, at, hits, misses, drops),
    }
}
