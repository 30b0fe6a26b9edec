//! The numbers of transactions.

ghost use Rattle.std.specs.Prelude.{◌≡◌, ◌≤◌, ◌<◌, ◌^◌, Some};
ghost use Rattle.std.specs.Fmt.{decimal};
ghost use Rattle.std.specs.Result.{OkIff};

use std::fmt::{self, Display, Formatter, Write};
use std::marker::Model;
use thiserror::Error;

/// N2: a number outside the range of its kind.
#[derive(Clone, Copy, Debug, PartialEq, Eq, Error)]
#[error("N2: the number is out of range")]
pub struct BadNumber;

/// The number of a transaction, from 1 to 4294967295.
#[derive(Clone, Copy, Debug, PartialEq, Eq, PartialOrd, Ord, Hash)]
pub struct Tx {
    number: u32,
}

impl Model for Tx {
    ghost use Rattle.std.specs.Prelude.{ℕ, ◌≤◌};

    ghost Value = { ℕ };

    ghost view = { λ t. t.number };

    ghost invariant = { λ t. 1 ≤ t.number };

    ghost inverse = { λ n. record { number = n } };
}

impl Tx {
    /// The transaction of this number. N2 for 0 and for numbers from 4294967296 on.
    pub fn new(number: u64) -> Result<Tx, BadNumber>
        ensures { OkIff result ((1 ≤ number) × (number < 2 ^ 32)) number }
    {
        match u32::try_from(number) {
            Ok(number) if number >= 1 => Ok(Tx { number }),
            _ => Err(BadNumber),
        }
    }

    /// Its number.
    pub fn number(self) -> u32
        ensures is { result ≡ self }
        ensures in_range { 1 ≤ self }
    {
        self.number
    }
}

/// The number in decimal.
impl Display for Tx {
    ghost output = { λ t. Some (decimal t) };

    fn fmt<W: Write>(&self, f: &mut Formatter<W>) -> fmt::Result {
        Display::fmt(&self.number, f)
    }
}
