// A word of a slot, in either store: what is read and stored, and nothing of what it means.
ghost use Rattle.std.specs.Prelude.{◌≡◌, ◌<◌, length, set, take};
ghost use Rattle.prefix.specs.Bits.{bits};
ghost use Rattle.prefix.specs.Addresses.{address_bits};
ghost use Rattle.sizes.specs.BothStores.{slot_word, word, Room};

use prefix::Address;

// Where slot 0 begins.
const SLOTS: usize = 1016;

const WORDS_A_SLOT: usize = 8;

pub fn read(store: &[u32], slot: u32, field: usize) -> u32
    requires room { Room store.now slot }
    requires in_slot { field < 8 }
    ensures { result ≡ word store.now (slot_word slot field) }
{
    store[SLOTS + WORDS_A_SLOT * (slot as usize) + field]
}

pub fn write(store: &mut [u32], slot: u32, field: usize, value: u32)
    requires room { Room store.old slot }
    requires in_slot { field < 8 }
    ensures { store.new ≡ set store.old (slot_word slot field) value }
{
    let start = SLOTS + WORDS_A_SLOT * (slot as usize);
    put(&mut store[start..start + 8], field, value);
}

// One word of a slot, whose eight words are lent as a part of the store.
fn put(words: &mut [u32], field: usize, value: u32)
    requires a_slot { length words.old ≡ 8 }
    requires in_slot { field < 8 }
    ensures { words.new ≡ set words.old field value }
{
    words[field] = value;
}

// The address in word 0, where both stores have it.
pub fn address_of(store: &[u32], slot: u32) -> Address
    requires { Room store.now slot }
    ensures { take 32 (address_bits result) ≡ bits 32 (word store.now (slot_word slot 0)) }
{
    Address::from(read(store, slot, 0))
}
