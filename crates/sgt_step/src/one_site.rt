//! What a transaction's step does at one site: its pledge and its edges, the block that ends it, or the pledge given
//! back.

ghost use Rattle.std.specs.Prelude.{◌≡◌, ◌↔◌, ◌⊎◌, Some, None, IsOk, IfErr, OnOk, OnErr};
ghost use Rattle.sgt_names.specs.Draft.{at_site};
ghost use Rattle.sgt_site.specs.State.{IsPledged};
ghost use Rattle.sgt_site.specs.Refused.{MayPledge, RefusesPledge};
ghost use Rattle.sgt_step.specs.OneSite.{AreEdgesOf, IsPledgedTo, ended_by};

use sgt_arena::Handle;
use sgt_edges::{EdgeFault, EdgeList, gather_into};
use sgt_names::{Draft, Tx};
use sgt_site::{Site, SiteFault};

/// How a transaction ends.
#[derive(Clone, Copy, Debug, PartialEq, Eq)]
pub enum Ending {
    /// It is committed.
    Committed,
    /// It is refused.
    Refused,
    /// It is withdrawn.
    Withdrawn,
}

/// Pledges a transaction at a site, and puts the edges of its draft there, to and from this node, into a list whose
/// room is used again. What was there is taken out, also where it errs.
///
/// The first that holds is answered, and leaves the site as it was:
/// - S1, S3, S7 or S8: the site refuses the pledge.
/// - S4: there was no memory.
///
/// The cost is that of `Site::pledge` and `gather_into`.
#[inline(always)]
pub fn gather(
    site: &mut Site,
    tx: Tx,
    me: Handle,
    draft: &Draft,
    edges: &mut EdgeList,
) -> Result<(), SiteFault>
    ensures pledged { OnOk result (site.new ≡ record site.old {
      pledge = Some (record { tx = tx; part = at_site site.old.number draft.now.touched });
    }) }
    ensures edges { OnOk result (AreEdgesOf site.new draft.now.touched me edges.new) }
    ensures err { OnErr result (site.new ≡ site.old) }

    // The refusals exclude each other, so each comes exactly where its case says, memory aside.
    ensures allowed { OnOk result (MayPledge site.old tx draft.now.touched) }
    ensures refused { IfErr result (RefusesPledge site.old tx draft.now.touched) }
{
    site.pledge(tx, draft)?;
    let _items = site.items();
    match gather_into(edges, site, draft, me) {
        Ok(()) => Ok(()),
        Err(EdgeFault::Memory) => {
            give_back(site, tx);
            Err(SiteFault::Memory)
        }
        // under the pledge the draft's reads are those of the log
        Err(EdgeFault::SeenTooNew) => unreachable!(),
    }
}

/// Gives the transaction's pledge at a site back, if it stands there. Takes no memory.
pub fn give_back(site: &mut Site, tx: Tx)
    ensures given { IsPledged site.old tx → site.new ≡ record site.old { pledge = None } }
    ensures none { (IsPledged site.old tx → ⊥) → site.new ≡ site.old }
    ensures gone { IsPledged site.new tx → ⊥ }
{
    let _ = site.unpledge(tx);
}

/// Writes the block of a transaction that ends so at a site, under its pledge there. Takes no memory. The cost is
/// that of `Site::install`, `Site::refuse` or `Site::withdraw`.
///
/// - S5: no pledge of the transaction stands; or it isn't withdrawn, and the draft reads or writes otherwise here than the one that was pledged. Nothing changes.
#[inline(always)]
pub fn end(
    site: &mut Site,
    tx: Tx,
    handle: Handle,
    draft: &Draft,
    ending: Ending,
) -> Result<(), SiteFault>
    ensures ok { OnOk result (site.new ≡ ended_by ending tx handle draft.now.touched site.old) }
    ensures err { OnErr result (site.new ≡ site.old) }
    ensures succeeds { IsOk result ↔ IsPledgedTo ending site.old tx draft.now.touched }
    ensures refused { IfErr result (λ f. f ≡ SiteFault.NotPledged) }
{
    match ending {
        Ending::Committed => site.install(tx, handle, draft),
        Ending::Refused => site.refuse(tx, draft),
        Ending::Withdrawn => site.withdraw(tx),
    }
}
