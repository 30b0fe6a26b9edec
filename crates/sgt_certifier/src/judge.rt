//! The judge: a certifier that keeps no history.

ghost use Rattle.std.specs.Prelude.{◌≡◌, false, true, ◌≤◌, ◌<◌, ◌+◌, ◌^◌, ◌↔◌, length, suc, Some, IfOk, IfErr, OnOk, OnErr, IsTrue, Any, [], ℕ, map, slice_get, ◌++◌, vec_len, vec_capacity};
ghost use Rattle.sgt_names.specs.Limits.{max_sites};
ghost use Rattle.sgt_arena.specs.declared.handle.Handle.{Handle as AHandle};
ghost use Rattle.sgt_edges.specs.declared.edge.Edge.{Edge as AnEdge};
ghost use Rattle.sgt_certifier.specs.declared.call.Call.TheVariants as call;
ghost use Rattle.sgt_certifier.specs.declared.call.Decided.TheVariants as decided;
ghost use Rattle.sgt_certifier.specs.declared.call.CertifierFault.TheVariants.{Memory as NoMemory};
ghost use Rattle.sgt_certifier.specs.Certifier.{opening, serial, certificate_of};
ghost use Rattle.sgt_certifier.specs.History.{IsActive, IsAllowed, IsKnown, IsNoted, IsInstalling, Fits, Serves, begin, decide, finish, withdraw, close, expect, installed, tx_under};
ghost use Rattle.sgt_certifier.specs.Judged.{Denies, Ends, Notes, Rules};
ghost use Rattle.sgt_certifier.specs.Kept.{IsTold, MayDecide, step_at, tx_at};

use crate::call::{CertifierFault, Decided};
use crate::install::is_among;
use crate::ranking::{Ruled, decisions_from, decisions_of, rank_all, tx_of};
use sgt_arena::{Handle, MAX_PLACES};
use sgt_bundle::{Certificate, Step, Walk};
use sgt_edges::{Edge, EdgeList};
use sgt_names::{Listed, MAX_SITES, SiteNo, Tx};
use sgt_order::{Admit, Graph};
use std::alloc::{AllocError, Global};
use std::marker::Model;

/// Begins, decides and ends transactions. It keeps its decisions and the sites that are noted in the open step, and
/// neither the calls that it served nor the items of installs.
#[derive(Drop)]
pub struct Judge {
    graph: Graph,
    // how many transactions were begun, and how many of them before this window
    begun: u32,
    before: u32,
    // for each node whether its transaction is active, and how many are
    flags: Vec<bool>,
    running: usize,
    // the committed transactions of closed windows, by rank
    past: Vec<Tx>,
    // the transaction whose step is open, and the sites that are noted in it
    step: Option<Tx>,
    noted: Vec<SiteNo>,
    // the decisions, by number
    rulings: Vec<Ruled>,
}

impl Model for Judge {
    ghost use Rattle.std.specs.Prelude.{length, map, vec_capacity};
    ghost use Rattle.sgt_certifier.specs.Certifier.{State};
    ghost use Rattle.sgt_certifier.specs.Kept.{state_by};
    ghost use Rattle.sgt_certifier.specs.Judged.{IsJudged, notes_of, ruling_from};

    ghost Value = { State };

    ghost view = { λ c. state_by c.begun c.before c.graph.generation c.flags.items c.past.items c.graph.order c.graph.edges
        c.step (map ruling_from c.rulings.items) (notes_of c.step c.noted.items) };

    ghost invariant = { λ c. IsJudged
        (state_by c.begun c.before c.graph.generation c.flags.items c.past.items c.graph.order c.graph.edges
        c.step (map ruling_from c.rulings.items) (notes_of c.step c.noted.items))
        c.flags.items c.noted.items (length c.graph.transactions) c.running (vec_capacity c.noted) };
}

impl Judge {
    /// A judge to which nothing has happened. It takes no memory.
    pub fn new(alloc: Global) -> Judge
        ensures { result ≡ opening }
    {
        Judge {
            graph: Graph::new(alloc),
            begun: 0,
            before: 0,
            flags: Vec::new(alloc),
            running: 0,
            past: Vec::new(alloc),
            step: None,
            noted: Vec::new(alloc),
            rulings: Vec::new(alloc),
        }
    }

    /// The decisions until now, in their order, for a bundle of so many sites. A committed transaction has the rank
    /// that it has now: the number of commits in closed windows, and its place in the order of this one. It errs
    /// where memory is refused. Linear in the decisions.
    pub fn certificate(&self, alloc: Global, sites: u8) -> Result<Certificate, AllocError>
        ensures { IfOk result (λ c. c ≡ certificate_of self.now sites) }
    {
        let ranks = self.ranks(alloc)?;
        let decisions = decisions_of(alloc, self.rulings.as_slice(), ranks.as_slice())?;
        Ok(Certificate {
            sites,
            decisions: Listed::new(decisions),
        })
    }

    /// The certificate, as `certificate` has it, of a judge that is given up: the walks of its refusals are moved there,
    /// and not copied. It errs where memory is refused. Linear in the decisions.
    pub fn into_certificate(self, alloc: Global, sites: u8) -> Result<Certificate, AllocError>
        ensures { IfOk result (λ c. c ≡ certificate_of self sites) }
    {
        let ranks = self.ranks(alloc)?;
        let Judge { rulings, .. } = self;
        let decisions = decisions_from(alloc, rulings, ranks.as_slice())?;
        Ok(Certificate {
            sites,
            decisions: Listed::new(decisions),
        })
    }

    // A table with the place of each committed transaction in the serial order, at its number.
    fn ranks(&self, alloc: Global) -> Result<Vec<u32>, AllocError>
        ensures ranks { IfOk result (λ ranks. (k tx : ℕ)
            → slice_get (serial self.now) k ≡ Some tx → slice_get ranks.items tx ≡ Some k) }
        ensures len { IfOk result (λ ranks. vec_len ranks ≡ suc self.now.begun) }
        ensures few { IfOk result (λ ranks. vec_len ranks ≤ 2 ^ 32) }
    {
        let len = self.begun as usize + 1;
        let order = self.graph.order();
        let mut serial = Vec::from_slice(alloc, self.past.as_slice())?;
        serial.reserve(order.len())?;
        push_all(&mut serial, self.before, order);
        let mut ranks = vec![in alloc; 0; len]?;
        rank_all(&mut ranks, serial.as_slice());
        Ok(ranks)
    }

    /// How many transactions are active. Constant time.
    pub fn active(&self) -> u64
        ensures { result ≡ length self.now.active }
    {
        self.running as u64
    }

    /// How many decisions were taken. Constant time.
    pub fn decided(&self) -> u64
        ensures { result ≡ length self.now.rulings }
    {
        self.rulings.len() as u64
    }

    /// Whether a handle of this window is the transaction's. Constant time.
    pub fn is_under(&self, tx: Tx, handle: Handle) -> bool
        ensures { IsTrue result ↔ (tx_under self.now handle ≡ tx) }
    {
        self.before as u64 + handle.index as u64 + 1 == tx.number() as u64
    }

    // Whether the transaction of the handle is active.
    fn is_active(&self, handle: Handle) -> bool
        ensures { IsTrue result ↔ IsActive self.now handle }
    {
        if handle.generation != self.graph.generation() {
            return false;
        }
        match self.flags.as_slice().get(handle.index as usize) {
            Some(flag) => *flag,
            None => false,
        }
    }

    /// The number of the next transaction. It errs with C1 where 4,096 were begun in this window, else with C3 where
    /// a step is open, else with C8 after transaction 4294967295. Constant time.
    pub fn may_begin(&self) -> Result<Tx, CertifierFault>
        ensures next { IfOk result (λ tx. tx ≡ suc self.now.begun) }
        ensures ok { OnOk result (IsAllowed self.now begin) }
        ensures err { IfErr result (IsTold self.now begin) }
    {
        if self.flags.len() >= MAX_PLACES {
            return Err(CertifierFault::WindowFull);
        }
        if let Some(tx) = self.step {
            return Err(CertifierFault::StepOpen(tx));
        }
        match Tx::new(self.begun as u64 + 1) {
            Ok(tx) => Ok(tx),
            Err(_) => Err(CertifierFault::NumbersSpent),
        }
    }

    /// Begins the next transaction, under the handle that is given. It errs as `may_begin`, else with C5 where memory
    /// is refused; after an Err the judge is as it was. In the long run constant time.
    pub fn begin(&mut self) -> Result<(Tx, Handle), CertifierFault>
        ensures ok { IfOk result (λ r. Serves self.old (call.Begin r.0 r.1) self.new) }
        ensures err { IfErr result (λ f. Denies self.old begin f self.new) }
    {
        let tx = self.may_begin()?;
        self.flags.reserve(1)?;
        let Ok(handle) = self.graph.node(tx) else {
            return Err(CertifierFault::Memory);
        };
        self.flags.push_reserved(true);
        self.running += 1;
        self.begun += 1;
        Ok((tx, handle))
    }

    /// Ends the open step, and its transaction with it. It takes no memory: it errs with C2 where this transaction's
    /// step isn't open, and then the judge is as it was; else it succeeds. Constant time.
    pub fn finish_step(&mut self, tx: Tx) -> Result<(), CertifierFault>
        ensures ok { OnOk result (Ends self.old tx self.new) }
        ensures few { OnOk result (length self.old.installs ≤ max_sites) }
        ensures err { IfErr result (λ f. Denies self.old (finish tx) f self.new) }
        ensures takes_none { IfErr result (λ f. f ≡ CertifierFault.Unknown) }
    {
        let Some(open) = self.step else {
            return Err(CertifierFault::Unknown);
        };
        if open.number() != tx.number() {
            return Err(CertifierFault::Unknown);
        }
        let place = (tx.number() - self.before - 1) as usize;
        self.flags[place] = false;
        self.running -= 1;
        self.step = None;
        self.noted.clear();
        Ok(())
    }

    /// Whether an active transaction may be taken back, or room made for its installs. It errs with C2 where no
    /// transaction of this window is active under the handle, else with C3 where a step is open. Constant time.
    pub fn may_withdraw(&self, handle: Handle) -> Result<(), CertifierFault>
        ensures withdraw { OnOk result (IsAllowed self.now (withdraw handle)) }
        ensures expect { OnOk result (IsAllowed self.now (expect handle)) }
        ensures err { IfErr result (IsTold self.now (withdraw handle)) }
        ensures err_expect { IfErr result (IsTold self.now (expect handle)) }
    {
        if !self.is_active(handle) {
            return Err(CertifierFault::Unknown);
        }
        match self.step {
            Some(tx) => Err(CertifierFault::StepOpen(tx)),
            None => Ok(()),
        }
    }

    /// Takes an active transaction back, as the decision whose number is given. It errs as `may_withdraw`, else with
    /// C5 where memory is refused; after an Err the judge is as it was. In the long run constant time.
    pub fn withdraw(&mut self, handle: Handle) -> Result<u64, CertifierFault>
        ensures ok { IfOk result (λ number. Serves self.old (call.Withdraw handle number) self.new) }
        ensures err { IfErr result (λ f. Denies self.old (withdraw handle) f self.new) }
    {
        self.may_withdraw(handle)?;
        self.rulings.reserve(1)?;
        self.flags[handle.index as usize] = false;
        self.running -= 1;
        let number = self.rulings.len() as u64;
        let tx = tx_of(self.before as u64, handle);
        self.rulings.push_reserved(Ruled::Withdrawn(tx));
        Ok(number)
    }

    // Whether it is committed in this window, or of an older one.
    fn is_known(&self, node: Handle) -> bool
        ensures { IsTrue result ↔ IsKnown self.now node }
    {
        let _order = self.graph.order();
        self.graph.is_admitted(node) || node.generation < self.graph.generation()
    }

    // Whether the edge has the handle at exactly one end, and a known transaction at the other.
    fn fits(&self, handle: Handle, edge: &Edge) -> bool
        ensures { IsTrue result ↔ Fits self.now handle edge.now }
    {
        (edge.from == handle && edge.to != handle && self.is_known(edge.to))
            || (edge.to == handle && edge.from != handle && self.is_known(edge.from))
    }

    // Whether an edge doesn't fit.
    fn has_unfit(&self, handle: Handle, edges: &[Edge]) -> bool
        ensures unfit { IsTrue result ↔ Any (λ e. Fits self.now handle e → ⊥) edges.now }
        ensures fit { result ≡ false → (n : ℕ) (e : AnEdge) → slice_get edges.now n ≡ Some e
            → Fits self.now handle e }
    {
        for edge in edges {
            if !self.fits(handle, edge) {
                return true;
            }
        }
        false
    }

    /// Whether an active transaction may be decided with its edges. It errs with C2 where no transaction of this
    /// window is active under the handle, or an edge hasn't the handle at exactly one end and a committed
    /// transaction, or one of an older window, at the other; else with C3 where a step is open; else with C6 where an
    /// edge leads to an older window.
    pub fn may_decide(&self, handle: Handle, edges: &EdgeList) -> Result<(), CertifierFault>
        ensures ok { OnOk result (MayDecide self.now handle edges.now) }
        ensures allowed { OnOk result (IsAllowed self.now (decide handle edges.now)) }
        ensures err { IfErr result (IsTold self.now (decide handle edges.now)) }
    {
        if !self.is_active(handle) {
            return Err(CertifierFault::Unknown);
        }
        if self.has_unfit(handle, edges.as_slice()) {
            return Err(CertifierFault::Unknown);
        }
        if let Some(tx) = self.step {
            return Err(CertifierFault::StepOpen(tx));
        }
        if leads_back(handle, self.graph.generation(), edges.as_slice()) {
            return Err(CertifierFault::Stale);
        }
        Ok(())
    }

    /// Decides a transaction that may be decided, with its edges, and opens its step. It is committed exactly where
    /// no cycle leads through it, else refused with a walk of edges from it back to it. It errs with C5 where memory
    /// is refused, and then the judge is as it was.
    pub fn decide(&mut self, handle: Handle, edges: &EdgeList) -> Result<Decided, CertifierFault>
        requires may { MayDecide self.old handle edges.now }
        ensures ok { IfOk result
            (λ reply. Serves self.old (call.Decide handle edges.now reply) self.new) }
        ensures unnoted { OnOk result (self.new.installs ≡ []) }
        ensures err { OnErr result (self.new ≡ self.old) }
        ensures memory { IfErr result (λ f. f ≡ NoMemory) }
    {
        let (_, reply, _) = self.decide_with(handle, edges, true, false)?;
        match reply {
            Some(reply) => Ok(reply),
            None => unreachable!(),
        }
    }

    /// Decides as `decide` does, and tells only whether the transaction is committed. So of a refusal it makes one walk,
    /// which it keeps, and none to tell. It errs as `decide`.
    pub fn rule(&mut self, handle: Handle, edges: &EdgeList) -> Result<bool, CertifierFault>
        requires may { MayDecide self.old handle edges.now }
        ensures ok { IfOk result (λ told. Rules self.old handle edges.now told self.new) }
        ensures unnoted { OnOk result (self.new.installs ≡ []) }
        ensures err { OnErr result (self.new ≡ self.old) }
        ensures memory { IfErr result (λ f. f ≡ NoMemory) }
    {
        Ok(self.decide_with(handle, edges, false, false)?.0)
    }

    // Decides as `decide` does, and tells the reply twice: to who asks, and for a history.
    pub(crate) fn decide_twice(
        &mut self,
        handle: Handle,
        edges: &EdgeList,
    ) -> Result<(Decided, Decided), CertifierFault>
        requires may { MayDecide self.old handle edges.now }
        ensures ok { IfOk result
            (λ replies. Serves self.old (call.Decide handle edges.now replies.0) self.new) }
        ensures same { IfOk result (λ replies. replies.1 ≡ replies.0) }
        ensures unnoted { OnOk result (self.new.installs ≡ []) }
        ensures err { OnErr result (self.new ≡ self.old) }
        ensures memory { IfErr result (λ f. f ≡ NoMemory) }
    {
        let (_, reply, again) = self.decide_with(handle, edges, true, true)?;
        match (reply, again) {
            (Some(reply), Some(again)) => Ok((reply, again)),
            _ => unreachable!(),
        }
    }

    // Decides as `decide` does. It tells whether the transaction is committed; the reply, where that is wanted; and the
    // reply once more, where it is wanted twice.
    #[inline(always)]
    fn decide_with(
        &mut self,
        handle: Handle,
        edges: &EdgeList,
        is_wanted: bool,
        twice: bool,
    ) -> Result<(bool, Option<Decided>, Option<Decided>), CertifierFault>
        requires may { MayDecide self.old handle edges.now }
        ensures ok { IfOk result (λ told. (rules : Rules self.old handle edges.now told.0 self.new)
            × (is_wanted ≡ true → told.1 ≡ Some rules.reply)
            × (twice ≡ true → told.2 ≡ Some rules.reply)) }
        ensures unnoted { OnOk result (self.new.installs ≡ []) }
        ensures err { OnErr result (self.new ≡ self.old) }
        ensures memory { IfErr result (λ f. f ≡ NoMemory) }
    {
        self.rulings.reserve(1)?;
        self.noted.reserve(MAX_SITES as usize)?;
        let _order = self.graph.order();
        let tx = tx_of(self.before as u64, handle);
        let number = self.rulings.len() as u32;
        let cycle = match self.graph.admit(handle, edges) {
            Ok(()) => {
                self.step = Some(tx);
                self.rulings.push_reserved(Ruled::Committed(tx));
                let reply = Some(Decided::Committed { number });
                let again = Some(Decided::Committed { number });
                return Ok((true, reply, again));
            }
            Err(Admit::Cycle(cycle)) => cycle,
            Err(Admit::Memory) => return Err(CertifierFault::Memory),
            Err(Admit::Stale) => unreachable!(),
        };
        let alloc = *self.rulings.allocator();
        let walk = walk_of(alloc, self.before, cycle.as_slice())?;
        let reply = refusal_if(alloc, number, self.before, cycle.as_slice(), is_wanted)?;
        let again = refusal_if(alloc, number, self.before, cycle.as_slice(), twice)?;
        self.step = Some(tx);
        self.rulings.push_reserved(Ruled::Refused(tx, walk));
        Ok((false, reply, again))
    }

    // Whether the open step is that of the transaction, which it committed.
    fn is_installing(&self, tx: Tx) -> bool
        ensures { IsTrue result ↔ IsInstalling self.now tx }
    {
        let _order = self.graph.order();
        let Some(open) = self.step else {
            return false;
        };
        if open.number() != tx.number() {
            return false;
        }
        let index = tx.number() - self.before - 1;
        let generation = self.graph.generation();
        self.graph.is_admitted(Handle { index, generation })
    }

    // Whether an install of the open step's transaction was noted at the site.
    fn is_noted(&self, tx: Tx, site: SiteNo) -> bool
        requires { self.now.step ≡ Some tx }
        ensures { IsTrue result ↔ IsNoted self.now tx site }
    {
        is_among(self.noted.as_slice(), site)
    }

    /// Whether an install may be noted. It errs with C2 where the open step isn't that of this transaction, which it
    /// committed, or an install at this site was noted in it. It goes over the sites that are noted.
    pub fn may_note(&self, tx: Tx, site: SiteNo) -> Result<(), CertifierFault>
        ensures ok { OnOk result (IsAllowed self.now (installed tx site)) }
        ensures err { IfErr result (IsTold self.now (installed tx site)) }
        ensures takes_none { IfErr result (λ f. f ≡ CertifierFault.Unknown) }
    {
        if !self.is_installing(tx) {
            return Err(CertifierFault::Unknown);
        }
        if self.is_noted(tx, site) {
            return Err(CertifierFault::Unknown);
        }
        Ok(())
    }

    /// Notes that the writes of the transaction of the open step are installed at the site, where that may be noted.
    /// It takes no memory. Constant time.
    pub fn note(&mut self, tx: Tx, site: SiteNo)
        requires { IsAllowed self.old (installed tx site) }
        ensures notes { Notes self.old tx site self.new }
        ensures few { length self.new.installs ≤ max_sites }
    {
        self.noted.push_reserved(site);
    }

    /// Whether the window may be closed. It errs with C3 where a step is open, else with C4 where transactions are
    /// active, else with C7 in the last window. Constant time.
    pub fn may_close(&self) -> Result<(), CertifierFault>
        ensures ok { OnOk result (IsAllowed self.now close) }
        ensures err { IfErr result (IsTold self.now close) }
    {
        if let Some(tx) = self.step {
            return Err(CertifierFault::StepOpen(tx));
        }
        if self.running > 0 {
            return Err(CertifierFault::ActiveLeft(self.running as u64));
        }
        if self.graph.generation() == u32::MAX {
            return Err(CertifierFault::GenerationsSpent);
        }
        Ok(())
    }

    /// Closes the window: all nodes and edges go, and the ranks given stay. It answers how many ranks were given
    /// until now. It errs as `may_close`, else with C5 where memory is refused; after an Err the judge is as it was.
    /// It goes over the order.
    pub fn close(&mut self) -> Result<u64, CertifierFault>
        ensures ok { IfOk result (λ ranks. Serves self.old (call.Close ranks) self.new) }
        ensures err { IfErr result (λ f. Denies self.old close f self.new) }
    {
        self.may_close()?;
        self.past.reserve(self.graph.order().len())?;
        push_all(&mut self.past, self.before, self.graph.order());
        let Ok(()) = self.graph.close() else {
            unreachable!();
        };
        self.flags.clear();
        self.before = self.begun;
        Ok(self.past.len() as u64)
    }
}

// Whether an edge leads from there to an older window.
fn leads_back(from: Handle, generation: u32, edges: &[Edge]) -> bool
    ensures { IsTrue result
        ↔ Any (λ e. (e.from ≡ from) × (e.to.generation < generation)) edges.now }
{
    edges.iter().any(|edge| edge.from == from && edge.to.generation < generation)
}

// The steps along these edges.
fn walk_of(alloc: Global, before: u32, edges: &[Edge]) -> Result<Walk, AllocError>
    requires { (n : ℕ) (e : AnEdge) → slice_get edges.now n ≡ Some e → tx_at before e.to < 2 ^ 32 }
    ensures { IfOk result (λ walk. walk ≡ map (step_at before) edges.now) }
{
    let mut steps = Vec::with_capacity(alloc, edges.len())?;
    for edge in edges {
        let to = tx_of(before as u64, edge.to);
        steps.push(Step {
            label: edge.label,
            to,
        })?;
    }
    Walk::from_vec(alloc, steps)
}

// The refusal of this number with the steps along these edges, if it is wanted.
fn refusal_if(
    alloc: Global,
    number: u32,
    before: u32,
    edges: &[Edge],
    is_wanted: bool,
) -> Result<Option<Decided>, AllocError>
    requires { (n : ℕ) (e : AnEdge) → slice_get edges.now n ≡ Some e → tx_at before e.to < 2 ^ 32 }
    ensures { IfOk result (λ reply. is_wanted ≡ true
        → reply ≡ Some (decided.Refused number (map (step_at before) edges.now))) }
{
    if !is_wanted {
        return Ok(None);
    }
    let walk = walk_of(alloc, before, edges)?;
    Ok(Some(Decided::Refused { number, walk }))
}

// Adds the transactions under the handles.
fn push_all(past: &mut Vec<Tx>, before: u32, order: &[Handle])
    requires room { vec_len past.old + length order.now ≤ vec_capacity past.old }
    requires numbers { (n : ℕ) (h : AHandle) → slice_get order.now n ≡ Some h
        → tx_at before h < 2 ^ 32 }
    ensures { past.new.items ≡ past.old.items ++ map (tx_at before) order.now }
{
    for handle in order {
        past.push_reserved(tx_of(before as u64, *handle));
    }
}
