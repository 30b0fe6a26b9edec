//! The numbers of sites.

ghost use Rattle.std.specs.Prelude.{◌≡◌, ◌<◌, Some};
ghost use Rattle.std.specs.Fmt.{decimal};
ghost use Rattle.std.specs.Result.{OkIff};
ghost use Rattle.sgt_names.specs.Limits.{max_sites};

use crate::limits::MAX_SITES;
use crate::number::BadNumber;
use std::fmt::{self, Display, Formatter, Write};
use std::marker::Model;

/// The number of a site, from 0 to 63.
#[derive(Clone, Copy, Debug, PartialEq, Eq, PartialOrd, Ord, Hash)]
pub struct SiteNo {
    number: u8,
}

impl Model for SiteNo {
    ghost use Rattle.std.specs.Prelude.{ℕ, ◌<◌};
    ghost use Rattle.sgt_names.specs.Limits.{max_sites};

    ghost Value = { ℕ };

    ghost view = { λ s. s.number };

    ghost invariant = { λ s. s.number < max_sites };

    ghost inverse = { λ n. record { number = n } };
}

impl SiteNo {
    /// The site of this number. N2 for every number from `MAX_SITES` on.
    pub fn new(number: u64) -> Result<SiteNo, BadNumber>
        ensures { OkIff result (number < max_sites) number }
    {
        match u8::try_from(number) {
            Ok(number) if number < MAX_SITES => Ok(SiteNo { number }),
            _ => Err(BadNumber),
        }
    }

    /// Its number.
    pub fn number(self) -> u8
        ensures is { result ≡ self }
        ensures in_range { self < max_sites }
    {
        self.number
    }
}

/// The number in decimal.
impl Display for SiteNo {
    ghost output = { λ s. Some (decimal s) };

    fn fmt<W: Write>(&self, f: &mut Formatter<W>) -> fmt::Result {
        Display::fmt(&self.number, f)
    }
}
