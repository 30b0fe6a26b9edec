//! Transactions, as the callers of a service hold them.

ghost use Rattle.std.specs.Prelude.{◌≡◌};

use sgt_arena::Handle;
use sgt_names::{Draft, Tx};
use sgt_service_agreement::ServiceFault;

/// A transaction that has begun and isn't decided, with what it has read and what it is to change.
#[derive(Drop)]
pub struct Active {
    pub(crate) tx: Tx,
    pub(crate) handle: Handle,
    pub(crate) draft: Draft,
}

impl Active {
    /// The transaction's number.
    pub fn tx(&self) -> Tx
        ensures { result ≡ self.now.tx }
    {
        self.tx
    }

    /// The handle under which the certifier has it.
    pub fn handle(&self) -> Handle
        ensures { result ≡ self.now.handle }
    {
        self.handle
    }

    /// Its kept reads, private writes and private increments.
    pub fn draft(&self) -> &Draft
        ensures { result.now ≡ self.now.draft }
    {
        &self.draft
    }
}

/// A refusal of `commit` or `withdraw`.
#[derive(Drop)]
pub struct Back {
    /// The transaction, still active, with nothing changed. None where a site was found to have lost its pledge after
    /// the decision, which stands, without a ticket.
    pub active: Option<Active>,
    pub fault: ServiceFault,
}
