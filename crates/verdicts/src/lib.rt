// Why an update of the table is refused.
#![tactic(auto)]

ghost use Rattle.std.specs.Prelude.{◌≡◌};
ghost use Rattle.verdicts.specs.Verdicts.{update_error_number};
ghost use Rattle.verdicts.specs.declared.UpdateError.TheVariants.{Unsound};

use sizes::refusal::{Refusal, Unsound};

#[derive(Clone, Copy, Debug, PartialEq, Eq)]
pub enum UpdateError {
    // a length is above 32
    TooLong,
    // a hop is 0 or above 65,535
    BadHop,
    // a new prefix, and the table holds its limit of routes
    Full,
    // the route to withdraw is not held
    NotHeld,
    // only on a store that is not sound
    Unsound,
}

impl Refusal for UpdateError {
    ghost number = { update_error_number };

    fn number(self) -> u32 {
        match self {
            UpdateError::TooLong => 1,
            UpdateError::BadHop => 2,
            UpdateError::Full => 3,
            UpdateError::NotHeld => 4,
            UpdateError::Unsound => 9,
        }
    }
}

impl From<Unsound> for UpdateError {
    ghost from_gives = { λ _ e. e ≡ Unsound };

    fn from(_e: Unsound) -> UpdateError {
        UpdateError::Unsound
    }
}
