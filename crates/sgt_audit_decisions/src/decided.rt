//! A certificate whose decisions are found by their transactions.

ghost use Rattle.std.specs.Prelude.{◌≡◌, ◌<◌, ◌↔◌, ℕ, [], false, IfOk, IfSome, IfNone, IsSome, IsTrue, Some, None, slice_get};
ghost use Rattle.sgt_bundle.specs.Certificate.{decided_tx, IsCommitted, IsDecidedOnce};
ghost use Rattle.sgt_bundle.specs.Valid.{IsDecided};
ghost use Rattle.sgt_bundle.specs.Text.{IsCertificate};
ghost use Rattle.sgt_audit_decisions.specs.Decided.{Decides, IsRulingOn};
ghost use Rattle.sgt_audit_decisions.specs.Steps.{AreStepsOf};

use crate::steps::Steps;
use crate::table::Table;
use sgt_bundle::{Certificate, Decision};
use sgt_names::{Entry, Tx};
use std::alloc::{AllocError, Global};
use std::marker::Model;

/// A certificate in which each transaction is decided at most once, with a table of the transactions.
#[derive(Drop)]
pub struct Decided {
    certificate: Certificate,
    table: Table,
}

impl Model for Decided {
    ghost use Rattle.sgt_bundle.specs.declared.certificate.Certificate.{Certificate};
    ghost use Rattle.sgt_audit_decisions.specs.private.Table.{IsTableOf};

    ghost Value = { Certificate };

    ghost view = { λ d. d.certificate };

    ghost invariant = { λ d. IsTableOf d.certificate.decisions d.table };
}

/// What is decided on an entry's transaction.
#[derive(Clone, Copy, Debug, PartialEq, Eq)]
pub struct Ruling {
    /// The number of the decision on the transaction.
    pub number: Option<usize>,
    /// The rank of the transaction, if it is committed.
    pub rank: Option<u32>,
    /// The number of the decision, if that suits the entry.
    pub suiting: Option<usize>,
}

/// Of a transaction in no decision.
#[inline(always)]
fn no_ruling() -> Ruling
    ensures { result ≡ record { number = None; rank = None; suiting = None } }
{
    Ruling {
        number: None,
        rank: None,
        suiting: None,
    }
}

/// The number, where it is to be told.
#[inline(always)]
fn told_if(tells: bool, number: usize) -> Option<usize>
    ensures told { IsTrue tells → result ≡ Some number }
    ensures untold { tells ≡ false → result ≡ None }
{
    if tells { Some(number) } else { None }
}

impl Decided {
    /// The certificate with its table. None where a transaction is in two decisions. Err: memory ran out.
    pub fn new(alloc: Global, certificate: Certificate) -> Result<Option<Decided>, AllocError>
        ensures once { IfOk result (λ found. IsSome found ↔ IsDecidedOnce certificate.decisions) }
        ensures same { IfOk result (λ found. IfSome found (λ decided. decided ≡ certificate)) }
    {
        match Table::new(alloc, certificate.decisions())? {
            Some(table) => Ok(Some(Decided { certificate, table })),
            None => Ok(None),
        }
    }

    /// The decisions. The place of one, from 0, is its number.
    pub fn decisions(&self) -> &[Decision]
        ensures same { result.now ≡ self.now.decisions }
        ensures once { IsDecidedOnce self.now.decisions }
    {
        self.certificate.decisions()
    }

    /// The steps of all walks, by their sites. Err: memory ran out.
    pub fn steps(&self, alloc: Global) -> Result<Steps, AllocError>
        ensures { IfOk result
            (λ steps. IsCertificate self.now → AreStepsOf self.now.decisions steps) }
    {
        Steps::new(alloc, self.certificate.sites as usize, self.decisions())
    }

    /// The certificate alone.
    pub fn into_certificate(self) -> Certificate
        ensures { result ≡ self }
    {
        let Decided { certificate, .. } = self;
        certificate
    }

    /// The number of the decision on the transaction.
    pub fn number_of(&self, tx: Tx) -> Option<usize>
        ensures some { IfSome result (λ number. Decides self.now.decisions number tx) }
        ensures none { IfNone result ((number : ℕ) → Decides self.now.decisions number tx → ⊥) }
    {
        match self.table.get(tx) {
            Some(placed) => Some(placed.number),
            None => None,
        }
    }

    /// What is decided on the entry's transaction, which is looked up once.
    #[inline(always)]
    pub fn ruling_on(&self, entry: &Entry) -> Ruling
        ensures { IsRulingOn self.now.decisions entry.now result }
    {
        match self.table.get(entry.tx()) {
            Some(placed) => Ruling {
                number: Some(placed.number),
                rank: placed.outcome.rank(),
                suiting: told_if(placed.outcome.suits(entry), placed.number),
            },
            None => no_ruling(),
        }
    }

    /// The same, where it is found without a search.
    #[inline(always)]
    pub fn ruling_at_hand(&self, entry: &Entry) -> Option<Ruling>
        ensures { IfSome result (IsRulingOn self.now.decisions entry.now) }
    {
        if self.table.is_dense() {
            Some(self.ruling_on(entry))
        } else {
            None
        }
    }

    /// Whether the transaction is committed by a decision of smaller number.
    pub(crate) fn is_committed_before(&self, number: usize, tx: Tx) -> bool
        ensures { IsTrue result
            ↔ ((m rank : ℕ) × (m < number) × IsCommitted self.now.decisions m tx rank) }
    {
        match self.table.get(tx) {
            Some(placed) => placed.number < number && placed.outcome.rank().is_some(),
            None => false,
        }
    }
}
