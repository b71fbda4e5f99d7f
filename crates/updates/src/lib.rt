// Announcements and withdrawals in the table. An update record goes by value through the checks and into the store.
#![tactic(auto)]

ghost use Rattle.std.specs.Prelude.{◌≡◌};
ghost use Rattle.prefix.specs.Addresses.{MadePrefix};
ghost use Rattle.updates.specs.Updates.{Means, TableUpdated, first_refusal};
ghost use Rattle.verdicts.specs.Verdicts.{verdict_number};

use prefix::{Address, ipv4};
use verdicts::UpdateError;

// A prefix as it is asked for, of any length: one above 32 is answered by 1 (`first_refusal`), so it must be said first.
#[derive(Clone, Copy, Debug, PartialEq, Eq)]
pub struct Prefix {
    pub address: Address,
    pub length: u32,
}

#[derive(Clone, Copy, Debug, PartialEq, Eq)]
pub enum Action {
    Announce(u32),
    Withdraw,
}

#[derive(Clone, Copy, Debug, PartialEq, Eq)]
pub struct Update {
    pub prefix: Prefix,
    pub action: Action,
}

impl Prefix {
    // The same by a length of at most 32; none above that.
    pub fn checked(self) -> Option<ipv4::Prefix>
        ensures { MadePrefix self.address self.length result }
    {
        ipv4::Prefix::new(self.address, self.length)
    }
}

impl Update {
    // The update of the first `length` bits of an IPv4 address.
    pub fn new(address: u32, length: u32, action: Action) -> Update
        ensures { Means address length action result }
    {
        Update {
            prefix: Prefix {
                address: Address::from(address),
                length,
            },
            action,
        }
    }

    // The refusals that no store is asked for: of a length, then of a hop.
    pub fn check(self) -> Result<(), UpdateError>
        ensures { verdict_number result ≡ first_refusal self }
    {
        if 32 < self.prefix.length {
            return Err(UpdateError::TooLong);
        }
        match self.action {
            Action::Announce(hop) if hop == 0 || sizes::HIGHEST_HOP < hop => {
                Err(UpdateError::BadHop)
            }
            Action::Announce(_) | Action::Withdraw => Ok(()),
        }
    }
}

// Refused, with every word as it was, or done in the table.
pub fn update_table(store: &mut [u32], u: Update) -> Result<(), UpdateError>
    ensures { TableUpdated store.old store.new u result }
{
    u.check()?;
    let prefix = ipv4::Prefix {
        address: u.prefix.address,
        length: u.prefix.length,
    };
    match u.action {
        Action::Announce(hop) => announce::announce(store, prefix, hop),
        Action::Withdraw => withdraw::withdraw(store, prefix),
    }
}
