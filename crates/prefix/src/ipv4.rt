// An IPv4 prefix: the first bits of an address, as many as the length says. The bits past them may be any.
ghost use Rattle.std.specs.Prelude.{◌≤◌};

use crate::Address;

#[derive(Clone, Copy, Debug)]
pub struct Prefix {
    pub address: Address,
    pub length: u32,
    pub ghost short: { length ≤ 32 },
}
