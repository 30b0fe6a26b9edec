//! What the certifier's lock keeps: the certifier, with the book of its decisions.

ghost use Rattle.std.specs.Prelude.{◌≡◌, ◌↔◌, ◌++◌, IsTrue, IfErr, OnOk, OnErr};
ghost use Rattle.sgt_site.specs.State.{IsPledgedFor};
ghost use Rattle.sgt_service_locks.specs.Guarded.{decision_count, ticket_of, ending_of};
ghost use Rattle.sgt_service_locks.specs.Undecided.{RefusesPledgeAt};

use crate::active::Active;
use crate::ledgers::{Begins, Ledgers};
use sgt_arena::Handle;
use sgt_certifier::{Certifier, CertifierFault, Decided};
use sgt_edges::EdgeList;
use sgt_names::{SiteNo, Tx};
use sgt_service_agreement::{ServiceFault, gather_agreed};
use sgt_site::Site;
use sgt_step::{Ending as SiteEnding, end, give_back};
use sgt_workers::{Ending, Ticket};
use std::alloc::{AllocError, Global};
use std::sync::ledger::{Book, Share};

/// The certifier beside the book of its decisions. Its own calls alone change it, and note that a site has lost its
/// pledge.
#[derive(Drop)]
pub struct Guarded<L: Ledgers> {
    certifier: Certifier,
    // the site that was found to have lost its pledge
    lost: Option<SiteNo>,
    // the number of its decisions, in the ledger
    book: Book<L>,
    // a share with no part, into which the seats' shares are put together at the end
    none: Share<L>,
    // the number of transactions that it began, in the ledger of begins, and a share of that with no part
    begins: Book<Begins<L>>,
    nobody: Share<Begins<L>>,
    pub ghost counted: { book.total ≡ decision_count certifier },
    pub ghost begun: { begins.total ≡ certifier.state.begun },
    pub ghost empty: { (none.parts ≡ 0) × (none.amount ≡ 0) },
    pub ghost idle: { (nobody.parts ≡ 0) × (nobody.amount ≡ 0) },
}

impl<L: Ledgers> Guarded<L> {
    ghost use Rattle.std.specs.Prelude.{◌≡◌, ◌↔◌, ◌<◌, ◌+◌, ◌++◌, [], ℕ, ◌⊎◌, List, false, None, Some, Err, IsTrue, IfOk, IfErr, IfSome, OnOk, OnErr};
    ghost use Rattle.sgt_certifier.specs.declared.call.Call.TheVariants as call;
    ghost use Rattle.sgt_certifier.specs.declared.call.Decided.{Decided as Reply};
    ghost use Rattle.sgt_certifier.specs.History.{begin, decide, withdraw, close, expect, tx_under, IsAllowed, Replays};
    ghost use Rattle.sgt_certifier.specs.Kept.{Adds, IsExpected, changed_at};
    ghost use Rattle.sgt_names.specs.Draft.{at_site};
    ghost use Rattle.sgt_edges.specs.declared.edge.Edge.{Edge as AnEdge};
    ghost use Rattle.sgt_service_agreement.specs.declared.fault.ServiceFault.TheVariants.{NotPledged};
    ghost use Rattle.sgt_workers.specs.declared.ticket.Ending.TheVariants.{Committed, Withdrawn};
    ghost use Rattle.sgt_site.specs.State.{IsPledged, IsPledgedFor, IsSite};
    ghost use Rattle.sgt_certifier.specs.Certifier.{opening};
    ghost use Rattle.sgt_service_locks.specs.Guarded.{decision_count, ticket_of, AwaitsInstalls, IsDecided, IsEnded, IsGathered};
    ghost use Rattle.sgt_service_locks.specs.Refused.{HandsOn, IsRefusedBy};
    ghost use Rattle.sgt_service_locks.specs.Stops.{NotesLoss};
    ghost use Rattle.sgt_service_locks.specs.Undecided.{RefusesActive, RefusesGather, RefusesPledgeAt, IsHeld};

    /// A certifier to which nothing has happened, with its empty books.
    pub(crate) fn new(
        alloc: Global,
        book: Book<L>,
        none: Share<L>,
        begins: Book<Begins<L>>,
        nobody: Share<Begins<L>>,
    ) -> Guarded<L>
        requires book { (book.total ≡ 0) × (begins.total ≡ 0) }
        requires none { (none.parts ≡ 0) × (none.amount ≡ 0) }
        requires nobody { (nobody.parts ≡ 0) × (nobody.amount ≡ 0) }
        ensures { (result.certifier.state ≡ opening) × (result.certifier.history ≡ [])
            × (result.lost ≡ None) }
    {
        Guarded {
            certifier: Certifier::new(alloc),
            lost: None,
            book,
            none,
            begins,
            nobody,
        }
    }

    /// The certifier.
    pub(crate) fn certifier(&self) -> &Certifier
        ensures { result.now ≡ self.now.certifier }
    {
        &self.certifier
    }

    /// The certifier, and the books of its decisions and of its begins, each with the share that has no part.
    pub(crate) fn into_parts(
        self,
    ) -> (
        Certifier,
        (Book<L>, Share<L>),
        (Book<Begins<L>>, Share<Begins<L>>),
    )
        ensures certifier { result.0 ≡ self.certifier }
        ensures counted { result.1.0.total ≡ decision_count result.0 }
        ensures begun { result.2.0.total ≡ result.0.state.begun }
        ensures none { (result.1.1.parts ≡ 0) × (result.1.1.amount ≡ 0) }
        ensures nobody { (result.2.1.parts ≡ 0) × (result.2.1.amount ≡ 0) }
    {
        let Guarded {
            certifier,
            lost: _,
            book,
            none,
            begins,
            nobody,
        } = self;
        (certifier, (book, none), (begins, nobody))
    }

    /// Begins the next transaction, and counts it in the book of begins and in the share.
    pub(crate) fn begin(
        &mut self,
        share: &mut Share<Begins<L>>,
    ) -> Result<(Tx, Handle), ServiceFault>
        requires { 0 < share.old.parts }
        ensures ok { IfOk result (λ r. (self.old.lost ≡ None)
            × Adds self.old.certifier (call.Begin r.0 r.1) self.new.certifier) }
        ensures replays { Replays self.old.certifier.history self.old.certifier.state }
        ensures err { IfErr result (λ f. IsRefusedBy self.old.lost self.old.certifier.state begin f
            × (self.new.certifier ≡ self.old.certifier)) }
        ensures counted { OnOk result (share.new.amount ≡ share.old.amount + 1) }
        ensures parts { share.new.parts ≡ share.old.parts }
        ensures uncounted { OnErr result (share.new ≡ share.old) }
        ensures lost { self.new.lost ≡ self.old.lost }
    {
        let _history = self.certifier.history();
        if let Some(site) = self.lost {
            return Err(ServiceFault::NotPledged(site));
        }
        let Guarded {
            certifier,
            begins,
            ..
        } = self;
        let begun = certifier.begin()?;
        begins.add(share, 1);
        Ok(begun)
    }

    /// Closes the window.
    pub(crate) fn close(&mut self) -> Result<u64, ServiceFault>
        ensures ok { IfOk result (λ ranks. (self.old.lost ≡ None)
            × Adds self.old.certifier (call.Close ranks) self.new.certifier) }
        ensures replays { Replays self.old.certifier.history self.old.certifier.state }
        ensures err { IfErr result (λ f. IsRefusedBy self.old.lost self.old.certifier.state close f
            × (self.new.certifier ≡ self.old.certifier)) }
        ensures lost { self.new.lost ≡ self.old.lost }
    {
        let _history = self.certifier.history();
        if let Some(site) = self.lost {
            return Err(ServiceFault::NotPledged(site));
        }
        let Guarded { certifier, .. } = self;
        Ok(certifier.close()?)
    }

    /// Withdraws the transaction of the handle, and counts the decision in the book and in the share.
    pub(crate) fn withdraw(
        &mut self,
        handle: Handle,
        share: &mut Share<L>,
    ) -> Result<u64, ServiceFault>
        requires { 0 < share.old.parts }
        ensures ok { IfOk result
            (λ number. Adds self.old.certifier (call.Withdraw handle number) self.new.certifier) }
        ensures counted { OnOk result (share.new.amount ≡ share.old.amount + 1) }
        ensures err { IfErr result (λ f. HandsOn self.old.certifier.state (withdraw handle) f
            × (self.new.certifier ≡ self.old.certifier) × (share.new ≡ share.old)) }
        ensures number { IfOk result (λ number. number ≡ decision_count self.old.certifier) }
        ensures decided { OnOk result
            (IsDecided self.new.certifier.state (tx_under self.old.certifier.state handle)) }
        ensures parts { share.new.parts ≡ share.old.parts }
        ensures lost { self.new.lost ≡ self.old.lost }
    {
        let Guarded {
            certifier,
            book,
            ..
        } = self;
        let number = certifier.withdraw(handle)?;
        book.add(share, 1);
        Ok(number)
    }

    /// Decides the transaction, with its edges, and counts the decision in the book and in the share.
    pub(crate) fn decide(
        &mut self,
        active: &Active,
        edges: EdgeList,
        share: &mut Share<L>,
    ) -> Result<Ticket, ServiceFault>
        requires part { 0 < share.old.parts }
        requires named { tx_under self.old.certifier.state active.now.handle ≡ active.now.tx }
        requires room { (site : ℕ)
            → IsExpected self.old.certifier.expected active.now.draft.touched site }
        ensures ok { IfOk result (λ t. (reply : Reply) × (t ≡ ticket_of active.now.tx reply)
            × Adds self.old.certifier
            (call.Decide active.now.handle edges reply) self.new.certifier) }
        ensures number { IfOk result (λ t. t.number ≡ decision_count self.old.certifier) }
        ensures counted { OnOk result (share.new.amount ≡ share.old.amount + 1) }
        ensures err { IfErr result
            (λ f. HandsOn self.old.certifier.state (decide active.now.handle edges) f
            × (self.new.certifier ≡ self.old.certifier) × (share.new ≡ share.old)) }
        ensures step { OnOk result (self.new.certifier.state.step ≡ Some active.now.tx) }
        ensures decided { OnOk result (IsDecided self.new.certifier.state active.now.tx) }
        ensures awaits { IfOk result (λ t. t.verdict ≡ Committed
            → AwaitsInstalls self.new.certifier active.now.tx active.now.draft.touched 0) }
        ensures parts { share.new.parts ≡ share.old.parts }
        ensures lost { self.new.lost ≡ self.old.lost }
    {
        let tx = active.tx;
        let Guarded {
            certifier,
            book,
            ..
        } = self;
        let _history = certifier.history();
        let reply = certifier.decide(active.handle, edges)?;
        book.add(share, 1);
        Ok(ticket_of(tx, reply))
    }

    /// Ends the open step.
    pub(crate) fn finish(&mut self, tx: Tx)
        requires { self.old.certifier.state.step ≡ Some tx }
        ensures ok { Adds self.old.certifier (call.Finish tx) self.new.certifier }
        ensures closed { self.new.certifier.state.step ≡ None }
        ensures lost { self.new.lost ≡ self.old.lost }
    {
        let Guarded { certifier, .. } = self;
        match certifier.finish_step(tx) {
            Ok(()) => {}
            Err(_) => unreachable!(),
        }
    }

    /// Notes that a site was found to have lost its pledge.
    pub(crate) fn lose(&mut self, site: SiteNo)
        ensures certifier { self.new.certifier ≡ self.old.certifier }
        ensures lost { self.new.lost ≡ Some site }
    {
        self.lost = Some(site);
    }

    /// Whether a transaction may be decided here at all: no site was found to have lost its pledge, and the certifier
    /// has its number under its handle.
    pub(crate) fn check(&self, active: &Active) -> Result<(), ServiceFault>
        ensures ok { OnOk result
            ((self.now.lost ≡ None)
            × (tx_under self.now.certifier.state active.now.handle ≡ active.now.tx)) }
        ensures replays { Replays self.now.certifier.history self.now.certifier.state }
        ensures refused { IfErr result
            (RefusesActive self.now.lost self.now.certifier.state active.now) }
        ensures lost { IfSome self.now.lost (λ site. result ≡ Err (NotPledged site)) }
        ensures noted { IfErr result
            (λ f. (site : ℕ) → f ≡ NotPledged site → self.now.lost ≡ Some site) }
    {
        let _history = self.certifier.history();
        if let Some(site) = self.lost {
            return Err(ServiceFault::NotPledged(site));
        }
        if !self.certifier.is_under(active.tx, active.handle) {
            return Err(ServiceFault::Certifier(CertifierFault::Unknown));
        }
        Ok(())
    }

    /// Makes room for the installs of a transaction that is to be decided.
    pub(crate) fn expect(&mut self, active: &Active) -> Result<(), ServiceFault>
        ensures ok { OnOk result ((self.old.lost ≡ None)
            × (tx_under self.new.certifier.state active.now.handle ≡ active.now.tx)) }
        ensures room { OnOk result
            ((site : ℕ) → IsExpected self.new.certifier.expected active.now.draft.touched site) }
        ensures replays { Replays self.old.certifier.history self.old.certifier.state }
        ensures state { (self.new.certifier.state ≡ self.old.certifier.state)
            × (self.new.certifier.history ≡ self.old.certifier.history) }
        ensures first { IfSome self.old.lost (λ site. result ≡ Err (NotPledged site)) }
        ensures noted { IfErr result
            (λ f. (site : ℕ) → f ≡ NotPledged site → self.old.lost ≡ Some site) }
        ensures allowed { OnOk result
            (IsAllowed self.old.certifier.state (expect active.now.handle)) }
        ensures refused { IfErr result
            (λ f. RefusesActive self.old.lost self.old.certifier.state active.now f
            ⊎ (IsHeld self.old.lost self.old.certifier.state active.now
            × HandsOn self.old.certifier.state (expect active.now.handle) f)) }
        ensures lost { self.new.lost ≡ self.old.lost }
    {
        self.check(active)?;
        let Guarded { certifier, .. } = self;
        certifier.expect(active.handle, &active.draft)?;
        Ok(())
    }

    /// Pledges a transaction at the site of this number and adds its edges there, under both locks. Where another
    /// site stands in its place, that is V7 too. The site of a V7 is noted.
    pub(crate) fn gather(
        &mut self,
        alloc: Global,
        site: &mut Site,
        here: SiteNo,
        active: &Active,
        edges: &mut EdgeList,
    ) -> Result<(), ServiceFault>
        ensures pledged { OnOk result (site.new ≡ record site.old {
          pledge = Some
              (record {
                tx = active.now.tx;
                part = at_site site.old.number active.now.draft.touched;
              });
        }) }
        ensures edges { OnOk result ((more : List AnEdge) × (edges.new ≡ edges.old ++ more)
            × IsGathered self.old.certifier.history active.now here site.new more) }
        ensures err { OnErr result (site.new ≡ site.old) }
        ensures refused { IfErr result
            (RefusesGather self.old.certifier.history here site.old active.now) }
        ensures site { IsSite site.old }
        ensures certifier { self.new.certifier ≡ self.old.certifier }
        ensures kept { OnOk result (self.new.lost ≡ self.old.lost) }
        ensures noted { IfErr result (NotesLoss self.old.lost self.new.lost) }
    {
        let _items = site.items();
        match self.gather_held(alloc, site, here, active, edges) {
            Ok(()) => Ok(()),
            Err(fault) => Err(self.noted(fault)),
        }
    }

    // The same, of which nothing is noted.
    fn gather_held(
        &self,
        alloc: Global,
        site: &mut Site,
        here: SiteNo,
        active: &Active,
        edges: &mut EdgeList,
    ) -> Result<(), ServiceFault>
        ensures pledged { OnOk result (site.new ≡ record site.old {
          pledge = Some
              (record {
                tx = active.now.tx;
                part = at_site site.old.number active.now.draft.touched;
              });
        }) }
        ensures edges { OnOk result ((more : List AnEdge) × (edges.new ≡ edges.old ++ more)
            × IsGathered self.now.certifier.history active.now here site.new more) }
        ensures err { OnErr result (site.new ≡ site.old) }
        ensures refused { IfErr result
            (RefusesGather self.now.certifier.history here site.old active.now) }
    {
        if !is_numbered(site, here) {
            return Err(ServiceFault::NotPledged(here));
        }
        let more = gather_agreed(
            alloc,
            &self.certifier,
            site,
            active.tx,
            &active.draft,
            active.handle,
        )?;
        let _items = site.items();
        match add_edges(edges, more) {
            Ok(()) => Ok(()),
            Err(_refused) => {
                give_back(site, active.tx);
                Err(ServiceFault::Memory)
            }
        }
    }

    /// Pledges a transaction at the site of this number, under both locks. Where another site stands in its place,
    /// that is V7, which is noted.
    pub(crate) fn pledge(
        &mut self,
        site: &mut Site,
        here: SiteNo,
        active: &Active,
    ) -> Result<(), ServiceFault>
        ensures number { OnOk result (site.new.number ≡ here) }
        ensures pledged { OnOk result
            (IsPledgedFor site.new active.now.tx active.now.draft.touched) }
        ensures err { OnErr result (site.new ≡ site.old) }
        ensures refused { IfErr result (RefusesPledgeAt here site.old active.now) }
        ensures site { IsSite site.old }
        ensures certifier { self.new.certifier ≡ self.old.certifier }
        ensures kept { OnOk result (self.new.lost ≡ self.old.lost) }
        ensures noted { IfErr result (NotesLoss self.old.lost self.new.lost) }
    {
        let _items = site.items();
        match pledge_held(site, here, active) {
            Ok(()) => Ok(()),
            Err(fault) => Err(self.noted(fault)),
        }
    }

    // The fault again. The site of a V7 is noted.
    fn noted(&mut self, fault: ServiceFault) -> ServiceFault
        ensures same { result ≡ fault }
        ensures certifier { self.new.certifier ≡ self.old.certifier }
        ensures lost { NotesLoss self.old.lost self.new.lost fault }
    {
        match fault {
            ServiceFault::NotPledged(site) => {
                self.lost = Some(site);
                ServiceFault::NotPledged(site)
            }
            other => other,
        }
    }

    /// Writes the block of a transaction that is decided so at the site of this number, under both locks; an install
    /// is noted in the history. False where the pledge is lost or another site stands in its place, and then nothing
    /// changes.
    pub(crate) fn end(
        &mut self,
        site: &mut Site,
        here: SiteNo,
        active: &Active,
        verdict: Ending,
    ) -> bool
        requires { verdict ≡ Committed
            → AwaitsInstalls self.old.certifier active.now.tx active.now.draft.touched here }
        ensures awaits { IsTrue result → verdict ≡ Committed
            → AwaitsInstalls self.new.certifier active.now.tx active.now.draft.touched (here + 1) }
        ensures noted { IsTrue result → verdict ≡ Committed → Adds self.old.certifier
            (call.Installed active.now.tx here
            (changed_at active.now.draft.touched here)) self.new.certifier }
        ensures number { IsTrue result → site.old.number ≡ here }
        ensures ended { IsTrue result → IsEnded verdict active.now site.old site.new }
        ensures quiet { (verdict ≡ Committed → ⊥) → self.new.certifier ≡ self.old.certifier }
        ensures unchanged { result ≡ false
            → (site.new ≡ site.old) × (self.new.certifier ≡ self.old.certifier) }
        ensures stands { site.old.number ≡ here → (verdict ≡ Withdrawn → ⊥)
            → IsPledgedFor site.old active.now.tx active.now.draft.touched → IsTrue result }
        ensures stands_withdrawn { site.old.number ≡ here → verdict ≡ Withdrawn
            → IsPledged site.old active.now.tx → IsTrue result }
        ensures step { self.new.certifier.state.step ≡ self.old.certifier.state.step }
        ensures same { self.new.lost ≡ self.old.lost }
    {
        if !is_numbered(site, here) {
            return false;
        }
        let ending = ending_of(verdict);
        if end(site, active.tx, active.handle, &active.draft, ending).is_err() {
            return false;
        }
        match verdict {
            Ending::Committed => {
                let Guarded { certifier, .. } = self;
                match certifier.installed(active.tx, here, &active.draft) {
                    Ok(()) => true,
                    Err(_) => unreachable!(),
                }
            }
            _ => true,
        }
    }
}

// Adds these edges at the end.
fn add_edges(edges: &mut EdgeList, more: EdgeList) -> Result<(), AllocError>
    ensures ok { OnOk result (edges.new ≡ edges.old ++ more) }
    ensures err { OnErr result (edges.new ≡ edges.old) }
{
    if edges.as_slice().is_empty() {
        *edges = more;
        return Ok(());
    }
    edges.append(&more)
}

// Whether this is the site of this number.
pub(crate) fn is_numbered(site: &Site, here: SiteNo) -> bool
    ensures { IsTrue result ↔ (site.now.number ≡ here) }
{
    site.number() == here
}

// Pledges at the site that is lent, if it is the one of this number.
fn pledge_held(held: &mut Site, here: SiteNo, active: &Active) -> Result<(), ServiceFault>
    ensures number { OnOk result (held.new.number ≡ here) }
    ensures pledged { OnOk result (IsPledgedFor held.new active.now.tx active.now.draft.touched) }
    ensures err { OnErr result (held.new ≡ held.old) }
    ensures refused { IfErr result (RefusesPledgeAt here held.old active.now) }
{
    if !is_numbered(held, here) {
        return Err(ServiceFault::NotPledged(here));
    }
    held.pledge(active.tx, &active.draft)?;
    Ok(())
}

// How a transaction that is decided so ends at a site.
fn ending_of(verdict: Ending) -> SiteEnding
    ensures { result ≡ ending_of verdict }
{
    match verdict {
        Ending::Committed => SiteEnding::Committed,
        Ending::Refused => SiteEnding::Refused,
        Ending::Withdrawn => SiteEnding::Withdrawn,
    }
}

fn ticket_of(tx: Tx, reply: Decided) -> Ticket
    ensures { result ≡ ticket_of tx reply }
{
    match reply {
        Decided::Committed { number } => Ticket {
            number: u64::from(number),
            tx,
            verdict: Ending::Committed,
        },
        Decided::Refused { number, walk: _ } => Ticket {
            number: u64::from(number),
            tx,
            verdict: Ending::Refused,
        },
    }
}
