//! The end of a transaction: its commit, and its withdrawal.

ghost use Rattle.std.specs.Prelude.{◌≡◌};
ghost use Rattle.sgt_service_locks.specs.Stops.{back_of};

use crate::active::{Active, Back};
use crate::guarded::Guarded;
use crate::ledgers::Ledgers;
use crate::pledging::Lost;
use crate::seat::Seat;
use crate::service::Service;
use sgt_edges::EdgeList;
use sgt_names::SiteNo;
use sgt_service_agreement::ServiceFault;
use sgt_workers::{Ending, Gate, Place, Ticket};
use std::alloc::Global;
use std::sync::Wait;

// Why a transaction has no ticket.
#[derive(Clone, Copy)]
enum Stop {
    // It isn't decided.
    Undecided(ServiceFault),
    // It is decided so, and this site was found to have lost its pledge.
    Lost(Ending, SiteNo),
}

// What comes back.
fn back_of(active: Active, stop: Stop) -> Back
    ensures { result ≡ back_of active stop }
{
    match stop {
        Stop::Undecided(fault) => Back {
            active: Some(active),
            fault,
        },
        Stop::Lost(_, site) => Back {
            active: None,
            fault: ServiceFault::NotPledged(site),
        },
    }
}

impl<L: Ledgers, G: Gate> Service<L, G> {
    ghost use Rattle.std.specs.Prelude.{◌≡◌, ◌≢◌, Err, IfOk, IfErr, IfSome, OnOk, vec_len};
    ghost use Rattle.sgt_service_agreement.specs.declared.fault.ServiceFault.TheVariants.{NotPledged};
    ghost use Rattle.sgt_workers.specs.declared.ticket.Ending.TheVariants.{Withdrawn};
    ghost use Rattle.sgt_certifier.specs.History.{Replays};
    ghost use Rattle.sgt_service_locks.specs.Guarded.{TakesStep, TakesBack, IsDecidedBy, IsWithdrawnBy};
    ghost use Rattle.sgt_service_locks.specs.Stops.{ComesBackBy, IsStop, IsUndecidedBy, LeavesGuard};
    ghost use Rattle.sgt_service_locks.specs.Refused.{IsOfCommit, IsOfWithdraw};
    ghost use Rattle.sgt_service_locks.specs.Undecided.{IsToldOfCommit, IsToldOfWithdraw, IsUncommitted, IsNotWithdrawn};
    ghost use Rattle.sgt_service_locks.specs.declared.ending.Stop.TheVariants.{Undecided};
    ghost use Rattle.sgt_service_locks.specs.Seats.{CountsEnd, IsBack};
    ghost use Rattle.sgt_workers.specs.declared.gate.Place.TheVariants.{InStep};

    /// Commits or refuses a transaction, in one step under the certifier's lock: at each site that it touches the
    /// versions are asked for, its pledge is taken and its edges are gathered; it is decided on these; and its block
    /// is written at each of these sites, which are locked one after another.
    ///
    /// The transaction comes back, with its pledges given back and nothing changed:
    /// - V7: a site was found to have lost its pledge; or at the place of the site named stands another one, or one that has not the
    ///   versions that the certifier's history counts.
    /// - V4 with C2, C3 or C6, as the certifier refuses; with S1, where a site isn't there, or with S1, S3, S7 or S8, as a site refuses.
    /// - V3: there was no memory.
    ///
    /// Where a site has lost the pledge that was taken, the decision stands without a ticket, and V7 comes back
    /// alone; every later
    /// `begin`, `commit`, `withdraw` and `close` answers V7 with that site, as after the other V7.
    ///
    /// The gate is told of `InStep`, and of `InInstall` at each site.
    pub fn commit<R: Wait>(
        &self,
        rt: &R,
        alloc: Global,
        seat: &mut Seat<L>,
        active: Active,
    ) -> Result<Ticket, Back>
        ensures ok { IfOk result
            (λ t. (t.tx ≡ active.tx) × (t.verdict ≢ Withdrawn)
            × CountsEnd t.verdict active seat.old seat.new) }
        ensures begins { seat.new.begins ≡ seat.old.begins }
        ensures step { IfOk result (IsDecidedBy (vec_len self.now.sites) active) }
        ensures back { IfErr result
            (IsBack (λ verdict. verdict ≢ Withdrawn) active seat.old seat.new) }
        ensures fault { IfErr result (λ back. IsOfCommit back.fault) }
        ensures refused { IfErr result
            (ComesBackBy (IsToldOfCommit (vec_len self.now.sites) active)) }
        ensures told { OnOk result (G.lets_go self.now.gate seat.old.number InStep) }
    {
        let mut guard = self.certifier.lock(rt);
        let guarded = &mut *guard;
        match self.take_step(rt, alloc, guarded, seat, &active) {
            Ok(ticket) => {
                seat.spare = active.draft;
                Ok(ticket)
            }
            Err(stop) => Err(back_of(active, stop)),
        }
    }

    /// Withdraws a transaction, in one step under the certifier's lock: its end is written at each site that it
    /// touches.
    ///
    /// The transaction comes back, with its pledges given back and nothing changed:
    /// - V7: a site was found to have lost its pledge; or at the place of the site named stands another one.
    /// - V4 with C2 or C3, as the certifier refuses; with S1, where a site isn't there, or with S1, S3, S7 or S8, as a site refuses.
    /// - V3: there was no memory.
    ///
    /// Where a site has lost the pledge that was taken it is as for `commit`; and so where another stands in its place.
    ///
    /// The gate is told of `InInstall` at each site.
    pub fn withdraw<R: Wait>(
        &self,
        rt: &R,
        seat: &mut Seat<L>,
        active: Active,
    ) -> Result<Ticket, Back>
        ensures ok { IfOk result
            (λ t. (t.tx ≡ active.tx) × (t.verdict ≡ Withdrawn)
            × CountsEnd Withdrawn active seat.old seat.new) }
        ensures begins { seat.new.begins ≡ seat.old.begins }
        ensures step { IfOk result (IsWithdrawnBy active) }
        ensures back { IfErr result
            (IsBack (λ verdict. verdict ≡ Withdrawn) active seat.old seat.new) }
        ensures fault { IfErr result (λ back. IsOfWithdraw back.fault) }
        ensures refused { IfErr result
            (ComesBackBy (IsToldOfWithdraw (vec_len self.now.sites) active)) }
    {
        let mut guard = self.certifier.lock(rt);
        let guarded = &mut *guard;
        match self.end_withdrawn(rt, guarded, seat, &active) {
            Ok(ticket) => {
                seat.spare = active.draft;
                Ok(ticket)
            }
            Err(stop) => Err(back_of(active, stop)),
        }
    }

    // The step of a commit: gathered and decided, its blocks written, and closed.
    fn take_step<R: Wait>(
        &self,
        rt: &R,
        alloc: Global,
        guarded: &mut Guarded<L>,
        seat: &mut Seat<L>,
        active: &Active,
    ) -> Result<Ticket, Stop>
        ensures ok { IfOk result (λ t. (t.tx ≡ active.now.tx) × (t.verdict ≢ Withdrawn)
            × CountsEnd t.verdict active.now seat.old seat.new) }
        ensures begins { seat.new.begins ≡ seat.old.begins }
        ensures stop { IfErr result
            (IsStop (λ verdict. verdict ≢ Withdrawn) active.now seat.old seat.new) }
        ensures why { IfErr result (IsUndecidedBy
            (IsUncommitted
            (vec_len self.now.sites) guarded.old.lost guarded.old.certifier active.now)) }
        ensures replays { Replays guarded.old.certifier.history guarded.old.certifier.state }
        ensures step { IfOk result
            (λ t. TakesStep
            (vec_len self.now.sites) active.now t guarded.old.certifier guarded.new.certifier) }
        ensures first { IfSome guarded.old.lost
            (λ site. result ≡ Err (Undecided (NotPledged site))) }
        ensures kept { OnOk result (guarded.new.lost ≡ guarded.old.lost) }
        ensures leaves { IfErr result
            (LeavesGuard guarded.old.certifier guarded.new.certifier guarded.old.lost guarded.new.lost) }
        ensures told { OnOk result (G.lets_go self.now.gate seat.old.number InStep) }
    {
        let (edges, pledges) = match self.gathered(rt, alloc, guarded, active) {
            Ok(gathered) => gathered,
            Err(fault) => return Err(Stop::Undecided(fault)),
        };
        let ticket = match guarded.decide(active, edges, &mut seat.share) {
            Ok(ticket) => ticket,
            Err(fault) => {
                self.give_back(rt, active, pledges);
                return Err(Stop::Undecided(fault));
            }
        };
        let blocks = pledges.spend(guarded.certifier(), active.tx);
        self.gate.arrive(seat.number, Place::InStep);
        let ended = self.end_all(rt, guarded, seat, active, ticket.verdict, blocks);
        if let Err(Lost { site }) = ended {
            return Err(Stop::Lost(ticket.verdict, site));
        }
        guarded.finish(active.tx);
        Ok(ticket)
    }

    // The step of a withdrawal: pledged and decided, and its ends written.
    fn end_withdrawn<R: Wait>(
        &self,
        rt: &R,
        guarded: &mut Guarded<L>,
        seat: &mut Seat<L>,
        active: &Active,
    ) -> Result<Ticket, Stop>
        ensures ok { IfOk result (λ t. (t.tx ≡ active.now.tx) × (t.verdict ≡ Withdrawn)
            × CountsEnd Withdrawn active.now seat.old seat.new) }
        ensures begins { seat.new.begins ≡ seat.old.begins }
        ensures stop { IfErr result
            (IsStop (λ verdict. verdict ≡ Withdrawn) active.now seat.old seat.new) }
        ensures why { IfErr result (IsUndecidedBy
            (IsNotWithdrawn
            (vec_len self.now.sites) guarded.old.lost guarded.old.certifier active.now)) }
        ensures replays { Replays guarded.old.certifier.history guarded.old.certifier.state }
        ensures step { IfOk result
            (λ t. TakesBack active.now t guarded.old.certifier guarded.new.certifier) }
        ensures first { IfSome guarded.old.lost
            (λ site. result ≡ Err (Undecided (NotPledged site))) }
        ensures kept { OnOk result (guarded.new.lost ≡ guarded.old.lost) }
        ensures leaves { IfErr result
            (LeavesGuard guarded.old.certifier guarded.new.certifier guarded.old.lost guarded.new.lost) }
    {
        let pledges = match self.pledged(rt, guarded, active) {
            Ok(pledges) => pledges,
            Err(fault) => return Err(Stop::Undecided(fault)),
        };
        let number = match guarded.withdraw(active.handle, &mut seat.share) {
            Ok(number) => number,
            Err(fault) => {
                self.give_back(rt, active, pledges);
                return Err(Stop::Undecided(fault));
            }
        };
        let blocks = pledges.spend(guarded.certifier(), active.tx);
        let ended = self.end_all(rt, guarded, seat, active, Ending::Withdrawn, blocks);
        if let Err(Lost { site }) = ended {
            return Err(Stop::Lost(Ending::Withdrawn, site));
        }
        Ok(Ticket {
            number,
            tx: active.tx,
            verdict: Ending::Withdrawn,
        })
    }
}
