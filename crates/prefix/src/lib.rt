// Addresses and prefixes. One address value serves both families: 128 bits, the highest first, in two halves.
// An IPv4 address stands in the first 32 bits with zeros after it. Each reading takes the width that no prefix passes: up to
// the width of a half, the low half is not read.
//
// A prefix is an address and a length. What each function answers is said by the list of the address's bits.
#![tactic(auto)]

ghost use Rattle.std.specs.Prelude.{◌≡◌, false, ◌≤◌, ◌<◌, get_or, take};
ghost use Rattle.prefix.specs.Bits.{bits, digit};
ghost use Rattle.prefix.specs.Prefix.{contains, common, trimmed, overlap, same};
ghost use Rattle.prefix.specs.Addresses.{address_bits, ipv4_bits, prefix_bits, IsIpv4, MadePrefix};

use ipv4::Prefix;

pub mod ipv4;

// The bits of one half.
pub const HALF: u32 = 64;

#[derive(Clone, Copy, Debug, PartialEq, Eq)]
pub struct Address {
    pub high: u64,
    pub low: u64,
}

// ---- one half

// The bit of x at an index, counted from the highest.
fn half_bit(x: u64, index: u32) -> u32
    requires { index < 64 }
    ensures { result ≡ digit (get_or (bits 64 x) index false) }
{
    ((x >> (63 - index)) % 2) as u32
}

// The first n bits of x, and zeros after them. Two shifts each way, so that none is by 64.
fn half_trim(x: u64, n: u32) -> u64
    requires { n ≤ 64 }
    ensures { bits 64 result ≡ trimmed n (bits 64 x) }
{
    let some = (64 - n) / 2;
    let rest = 64 - n - some;
    (((x >> some) >> rest) << rest) << some
}

// The number of leading bits in which x and y agree.
fn half_common(x: u64, y: u64) -> u32
    ensures { result ≡ common (bits 64 x) (bits 64 y) }
{
    u64::leading_zeros(x ^ y)
}

// ---- the address

impl Address {
    // The bit at an index: 0 or 1.
    pub fn bit_at<const WIDTH: u32>(self, index: u32) -> u32
        requires width { WIDTH ≤ 128 }
        requires within { index < WIDTH }
        ensures { result ≡ digit (get_or (address_bits self) index false) }
    {
        if WIDTH <= HALF || index < 64 {
            half_bit(self.high, index)
        } else {
            half_bit(self.low, index - 64)
        }
    }

    // The first n bits, and zeros after them.
    pub fn trim<const WIDTH: u32>(self, n: u32) -> Address
        requires width { WIDTH ≤ 128 }
        requires within { n ≤ WIDTH }
        ensures { address_bits result ≡ trimmed n (address_bits self) }
    {
        if WIDTH <= HALF || n <= 64 {
            Address {
                high: half_trim(self.high, n),
                low: 0,
            }
        } else {
            Address {
                high: self.high,
                low: half_trim(self.low, n - 64),
            }
        }
    }

    // The number of leading bits in which two addresses agree, where it is less than the width.
    fn agreement<const WIDTH: u32>(self, other: Address) -> u32
        ensures near { result < WIDTH → result ≡ common (address_bits self) (address_bits other) }
        ensures far { WIDTH ≤ result → WIDTH ≤ common (address_bits self) (address_bits other) }
    {
        let agreed = half_common(self.high, other.high);
        if WIDTH <= HALF || agreed < 64 {
            return agreed;
        }
        64 + half_common(self.low, other.low)
    }

    // Common(x, P) for the prefix P of the first n bits of a: the leading bits in which they agree, at most n.
    pub fn common_bits<const WIDTH: u32>(self, a: Address, n: u32) -> u32
        requires width { WIDTH ≤ 128 }
        requires within { n ≤ WIDTH }
        ensures { result ≡ common (address_bits self) (take n (address_bits a)) }
    {
        n.min(self.agreement::<WIDTH>(a))
    }

    // Whether the prefix of the first n bits contains x.
    pub fn covers<const WIDTH: u32>(self, n: u32, x: Address) -> bool
        requires width { WIDTH ≤ 128 }
        requires within { n ≤ WIDTH }
        ensures { result ≡ contains (take n (address_bits self)) (address_bits x) }
    {
        n <= self.agreement::<WIDTH>(x)
    }

    // The first 32 bits as a word: the IPv4 address that this stands for. The rest is lost, so it is no `From`.
    pub fn to_ipv4(self) -> u32
        ensures { bits 32 result ≡ take 32 (address_bits self) }
    {
        (self.high / 0x1_0000_0000) as u32
    }
}

// The address that an IPv4 word stands for.
impl From<u32> for Address {
    ghost from_gives = { IsIpv4 };

    fn from(word: u32) -> Address {
        Address {
            high: (word as u64) * 0x1_0000_0000,
            low: 0,
        }
    }
}

// ---- what is asked of an IPv4 prefix

impl Prefix {
    // A length above 32 makes no prefix.
    pub fn new(address: Address, length: u32) -> Option<Prefix>
        ensures { MadePrefix address length result }
    {
        if 32 < length {
            return None;
        }
        Some(Prefix { address, length })
    }

    // Whether it contains an address.
    pub fn contains(self, x: Address) -> bool
        ensures { result ≡ contains (prefix_bits self) (ipv4_bits x) }
    {
        self.address.covers::<HALF>(self.length, x)
    }

    // Whether one of the two lies inside the other: they agree in the bits of the shorter. There is no branch on which of the
    // two that is, since no processor could foresee it.
    pub fn overlaps(self, other: Prefix) -> bool
        ensures { result ≡ overlap (prefix_bits self) (prefix_bits other) }
    {
        let shorter = self.length.min(other.length);
        self.address.covers::<HALF>(shorter, other.address)
    }

    // The address of its bits, with zeros after them.
    pub fn cleared(self) -> u32
        ensures { bits 32 result ≡ trimmed self.length (ipv4_bits self.address) }
    {
        self.address.trim::<HALF>(self.length).to_ipv4()
    }

    // Whether both have the same bits. `==` was tried: its laws would be named in specs/, which may not lean on proofs/, where
    // they are.
    pub fn same(self, other: Prefix) -> bool
        ensures { result ≡ same (prefix_bits self) (prefix_bits other) }
    {
        self.length == other.length && self.address.covers::<HALF>(self.length, other.address)
    }
}
