// What a line of bytes asks for. A line is read where it stands in a block, up to its line feed: each number is the digits from a place
// on, and the byte after them tells how the line goes on.
#![tactic(auto)]

ghost use Rattle.std.specs.Prelude.{◌≡◌, [], ◌∷◌, ◌+◌, ◌*◌, ◌≤◌, ◌<◌, ◌^◌, ◌==◌, drop, position, IfSome};
ghost use Rattle.script.specs.Lines.{parts, both, numbers, fields, space, largest};
ghost use Rattle.script.specs.Blocks.{feed, line_from, LineRead};
ghost use Rattle.script.specs.Reading.{number_at, over, past, OctetRead, AddressRead, feed_at, lettered, SeenTo, CallSeen};

// A line of more bytes is no call.
pub const LONGEST: usize = 64;

const LARGEST: u32 = 4_294_967_295;

const SPACE: u8 = b' ';

const POINT: u8 = b'.';

const FEED: u8 = b'\n';

// What a line asks for. An address is one number, the first octet highest.
#[derive(Clone, Copy, Debug, PartialEq, Eq)]
pub enum Line {
    // address, length and hop
    Announce(u32, u32, u32),
    // address and length
    Withdraw(u32, u32),
    // address
    Look(u32),
    // no call. It is no missing line: a script is answered `bad` there, and `line_of` says of which bytes.
    Bad,
}

// ---- numbers

// A number that was read, and the place after it.
#[derive(Clone, Copy, Debug, PartialEq, Eq)]
struct Found {
    value: u32,
    end: usize,
}

// The number of the digits from a place on, at least one, of a value that is at most `most`.
fn number(block: &[u8], at: usize, most: u32) -> Option<Found>
    ensures { result ≡ number_at most block.now at }
{
    let largest = most as u64;
    let mut value: u64 = 0;
    // counted beside the bytes: a number may stop before they do
    let mut end = at;
    for byte in block.get(at..)? {
        if !byte.is_ascii_digit() {
            break;
        }
        value = value * 10 + (byte - b'0') as u64;
        if largest < value {
            return None;
        }
        end += 1;
    }
    if at < end {
        return Some(Found {
            value: value as u32,
            end,
        });
    }
    None
}

// Whether a line is over at a place: its line feed is there, or the end of the block.
fn is_over(block: &[u8], at: usize) -> bool
    ensures { result ≡ over (line_from block.now at) }
{
    match block.get(at) {
        Some(&byte) => byte == FEED,
        None => true,
    }
}

// The place after a mark, where it is there.
fn past(block: &[u8], at: usize, mark: u8) -> Option<usize>
    ensures { result ≡ past mark block.now at }
{
    if *block.get(at)? == mark {
        return Some(at + 1);
    }
    None
}

// ---- addresses

// The octet from a place up to a point, and the place after the point.
fn octet(block: &[u8], at: usize) -> Option<Found>
    ensures { OctetRead block.now at result }
{
    let octet = number(block, at, 255)?;
    let end = past(block, octet.end, POINT)?;
    Some(Found {
        value: octet.value,
        end,
    })
}

// The address from a place on: one number, the first octet highest.
fn address(block: &[u8], at: usize) -> Option<Found>
    ensures { AddressRead block.now at result }
{
    let a = octet(block, at)?;
    let b = octet(block, a.end)?;
    let c = octet(block, b.end)?;
    let d = number(block, c.end, 255)?;
    let octets = [a.value as u8, b.value as u8, c.value as u8, d.value as u8];
    Some(Found {
        value: u32::from_be_bytes(octets),
        end: d.end,
    })
}

// ---- lines

// What was read of a line, and a place up to which it has no line feed: the search for it goes on from there. Of a line that is no
// call, the functions below answer such a place alone.
#[derive(Clone, Copy, Debug, PartialEq, Eq)]
struct Seen {
    line: Line,
    to: usize,
}

// From the second number on, which is the last.
fn after_length(
    block: &[u8],
    letter: u8,
    address: u32,
    length: u32,
    at: usize,
) -> Result<Seen, usize>
    ensures { CallSeen block.now at (lettered letter address (both (Some length) (numbers largest (parts space (line_from block.now at))))) result }
{
    let Some(hop) = number(block, at, LARGEST) else {
        return Err(at);
    };
    if is_over(block, hop.end) {
        return (letter == b'A')
            .then_some(Seen {
                line: Line::Announce(address, length, hop.value),
                to: hop.end,
            })
            .ok_or(hop.end);
    }
    Err(at)
}

// From the first number on.
fn after_address(block: &[u8], letter: u8, address: u32, at: usize) -> Result<Seen, usize>
    ensures { CallSeen block.now at (lettered letter address (numbers largest (parts space (line_from block.now at)))) result }
{
    let Some(length) = number(block, at, LARGEST) else {
        return Err(at);
    };
    if is_over(block, length.end) {
        return (letter == b'W')
            .then_some(Seen {
                line: Line::Withdraw(address, length.value),
                to: length.end,
            })
            .ok_or(length.end);
    }
    let Some(next) = past(block, length.end, SPACE) else {
        return Err(at);
    };
    after_length(block, letter, address, length.value, next)
}

// From the address on.
fn after_letter(block: &[u8], letter: u8, at: usize) -> Result<Seen, usize>
    ensures { CallSeen block.now at (fields ((letter ∷ []) ∷ parts space (line_from block.now at))) result }
{
    let Some(address) = address(block, at) else {
        return Err(at);
    };
    if is_over(block, address.end) {
        return (letter == b'L')
            .then_some(Seen {
                line: Line::Look(address.value),
                to: address.end,
            })
            .ok_or(address.end);
    }
    let Some(next) = past(block, address.end, SPACE) else {
        return Err(at);
    };
    after_address(block, letter, address.value, next)
}

// The call that the fields of a line make, whatever its length.
fn call(block: &[u8], at: usize) -> Result<Seen, usize>
    ensures { CallSeen block.now at (fields (parts space (line_from block.now at))) result }
{
    let Some(&letter) = block.get(at) else {
        return Err(at);
    };
    if letter == FEED {
        return Err(at);
    }
    let Some(next) = past(block, at + 1, SPACE) else {
        return Err(at);
    };
    after_letter(block, letter, next)
}

// What the fields of a line ask for, whatever its length.
fn read_fields(block: &[u8], at: usize) -> Seen
    ensures { SeenTo block.now at (fields (parts space (line_from block.now at))) result }
{
    match call(block, at) {
        Ok(seen) => seen,
        Err(to) => Seen {
            line: Line::Bad,
            to,
        },
    }
}

// What a line asks for, and where its line feed is.
#[derive(Clone, Copy, Debug, PartialEq, Eq)]
pub struct Read {
    pub line: Line,
    pub feed: usize,
}

// The line from a place of a block on, if it has a line feed.
pub fn read_line(block: &[u8], at: usize) -> Option<Read>
    ensures { LineRead block.now at result }
{
    let seen = read_fields(block, at);
    let feed = next_feed(block, seen.to)?;
    if LONGEST < feed - at {
        return Some(Read {
            line: Line::Bad,
            feed,
        });
    }
    Some(Read {
        line: seen.line,
        feed,
    })
}

// ---- line feeds

// The first line feed.
fn first_feed(bytes: &[u8]) -> Option<usize>
    ensures { result ≡ position (λ byte. byte == feed) bytes.now }
{
    bytes.iter().position(|&byte| byte == FEED)
}

// The first line feed of a block, at or after a place; there is a place after it.
fn next_feed(block: &[u8], from: usize) -> Option<usize>
    ensures value { result ≡ feed_at block.now from }
    ensures passable { IfSome result (λ feed. feed + 1 < 2 ^ 64) }
{
    let ahead = first_feed(block.get(from..)?)?;
    Some(from + ahead)
}
