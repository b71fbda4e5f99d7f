// An entry by value: a prefix with the hop that its slot has room for.
ghost use Rattle.std.specs.Prelude.{◌≤◌};
ghost use Rattle.model.specs.Model.{highest_hop};

use prefix::ipv4::Prefix;

#[derive(Clone, Copy, Debug)]
pub struct Entry {
    pub prefix: Prefix,
    pub hop: u32,
    pub ghost legal_hop: { hop ≤ highest_hop },
}
