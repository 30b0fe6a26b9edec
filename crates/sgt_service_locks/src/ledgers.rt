//! The two ledgers of a service: of the decisions that its certifier took, and of the transactions that it began.

ghost use Rattle.std.specs.Prelude.{◌≡◌};

use std::marker::{Brand, PhantomData};
use std::sync::ledger::{Blank, Ledger};

/// Which ledgers are those of a service. As a `Ledger` it is that of the decisions.
pub trait Ledgers: Ledger {
    ghost use Rattle.std.specs.Prelude.{ℕ};

    /// The name of the ledger of begins, which has as many parts.
    ghost begins: { ℕ };
}

impl Ledgers for Brand {
    ghost begins = { 0 };
}

/// The ledger of begins.
pub struct Begins<L: Ledgers> {
    ledgers: PhantomData<L>,
}

impl<L: Ledgers> Ledger for Begins<L> {
    ghost name = { L.begins };

    ghost parts = { L.parts };
}

/// What both ledgers are opened from.
#[derive(Drop)]
pub struct Blanks {
    pub decisions: Blank,
    pub begins: Blank,
}

impl Blanks {
    ghost use Rattle.std.specs.Prelude.{◌≡◌};

    /// Blanks with a part for each of so many seats.
    pub fn new(seats: u64) -> Blanks
        ensures { (result.decisions.parts ≡ seats) × (result.begins.parts ≡ seats) }
    {
        Blanks {
            decisions: Blank::new(seats),
            begins: Blank::new(seats),
        }
    }
}
