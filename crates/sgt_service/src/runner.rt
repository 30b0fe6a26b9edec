//! One worker's part of a run: a script, tried so often.

ghost use Rattle.std.specs.Prelude.{◌≡◌, ◌≤◌, []};

use sgt_names::{Item, SiteNo, Value};
use sgt_notation::{Op, Script};
use sgt_service_agreement::ServiceFault;
use sgt_service_locks::{Active, Ledgers, Seat, Service};
use sgt_site::SiteFault;
use sgt_workers::{Done, Ending, Gate, Job, Place, Ticket, Work};
use std::alloc::Global;
use std::sync::Wait;

/// What the workers of a run share.
#[derive(Drop)]
pub struct Runner<'a, L: Ledgers, G: Gate> {
    pub alloc: Global,
    pub service: &'a Service<L, G>,
    /// How often a script is tried at most.
    pub tries: u64,
    pub ghost some: { 1 ≤ tries },
}

fn is_read(op: &Op) -> bool {
    matches!(op, Op::Read { .. })
}

// No value yet, with room for one of each read of the script, as far as there is memory.
fn no_reads(alloc: Global, script: &Script) -> Vec<Value>
    ensures { result.items ≡ [] }
{
    let operations = script.operations.as_slice();
    let count = operations.iter().filter(|op| is_read(op)).count();
    let mut reads = Vec::new(alloc);
    let _room = reads.reserve(count);
    reads
}

impl<'a, L: Ledgers, G: Gate> Runner<'a, L, G> {
    ghost use Rattle.std.specs.Prelude.{◌≡◌, true, false, All, Ok, IfOk, IfErr, OnOk, OnErr};
    ghost use Rattle.sgt_service_locks.specs.Reads.{look_in, IsOfActive};
    ghost use Rattle.sgt_service_locks.specs.Refused.{IsOfCall, IsOfChange};
    ghost use Rattle.sgt_service.specs.Tries.{CountsOp, CountsReads, IsStopped, TriesAt};
    ghost use Rattle.sgt_service.specs.Operations.{op_fits, sum_fits, Does, DoesAll, IsOfOperation, PutsSum};
    ghost use Rattle.sgt_service.specs.Told.{IsToldBy, IsUndone, RefusesPutOfSum, RefusesOperation};
    ghost use Rattle.std.specs.Prelude.{vec_len};

    #[tactic(auto, using(crate::proofs::Faults::item_of_change))]
    // Keeps the sum of this value and of what the transaction sees at the source, as a private write. False where it
    // is too large.
    fn put_sum(
        &self,
        active: &mut Active,
        site: SiteNo,
        item: Item,
        seen: Option<Value>,
        value: Value,
    ) -> Result<bool, ServiceFault>
        ensures fits { IfOk result (λ fits. fits ≡ sum_fits seen value) }
        ensures sum { result ≡ Ok true
            → PutsSum site item seen value active.old.draft.touched active.new.draft.touched }
        ensures same { result ≡ Ok false → active.new.draft.touched ≡ active.old.draft.touched }
        ensures named { IsOfActive active.old active.new }
        ensures err { OnErr result (active.new.draft.touched ≡ active.old.draft.touched) }
        ensures refused { IfErr result
            (RefusesPutOfSum self.now.service.now.names.items site item seen) }
        ensures fault { IfErr result IsOfChange }
    {
        let Some(seen) = seen else {
            return Err(ServiceFault::Site(SiteFault::UnknownItem));
        };
        let Some(sum) = seen.checked_add(value) else {
            return Ok(false);
        };
        self.service.put(active, site, item, sum)?;
        Ok(true)
    }

    #[tactic(auto, using(crate::proofs::Faults::item_of_operation, crate::proofs::Faults::change_of_operation, crate::proofs::Faults::read_of_operation))]
    // Does what one operation says. False where its sum is too large.
    fn apply<R: Wait>(
        &self,
        rt: &R,
        seat: &mut Seat<L>,
        active: &mut Active,
        op: &Op,
        reads: &mut Vec<Value>,
    ) -> Result<bool, ServiceFault>
        ensures fits { IfOk result (λ fits. fits ≡ op_fits active.old.draft.touched op.now) }
        ensures does { result ≡ Ok true
            → Does op.now active.old.draft.touched active.new.draft.touched reads.old.items reads.new.items }
        ensures same { result ≡ Ok false
            → (active.new.draft.touched ≡ active.old.draft.touched)
            × (reads.new.items ≡ reads.old.items) }
        ensures named { IsOfActive active.old active.new }
        ensures share { (seat.new.share ≡ seat.old.share)
            × (seat.new.begun ≡ seat.old.begun) }
        ensures begins { seat.new.begins ≡ seat.old.begins }
        ensures counts { OnOk result
            (CountsOp op.now active.old.draft.touched seat.old.counts.items seat.new.counts.items) }
        ensures err { OnErr result ((active.new.draft.touched ≡ active.old.draft.touched)
            × (seat.new.counts.items ≡ seat.old.counts.items)) }
        ensures refused { IfErr result (RefusesOperation
            self.now.service.now.names.items active.old.tx active.old.draft.touched op.now) }
        ensures fault { IfErr result IsOfOperation }
    {
        match *op {
            Op::Read { site, item } => {
                reads.reserve(1)?;
                let value = self.service.read(rt, seat, active, site, item)?;
                reads.push_reserved(value);
                Ok(true)
            }
            Op::Put { site, item, value } => {
                self.service.put(active, site, item, value)?;
                Ok(true)
            }
            Op::Add { site, item, value } => {
                self.service.add(active, site, item, value)?;
                Ok(true)
            }
            Op::Sum {
                site,
                item,
                from_site,
                from_item,
                value,
            } => {
                let seen = active.draft().look(from_site, from_item);
                self.put_sum(active, site, item, seen, value)
            }
        }
    }

    // Does what the script says. False where a sum is too large: what stands behind it isn't done.
    fn apply_all<R: Wait>(
        &self,
        rt: &R,
        seat: &mut Seat<L>,
        active: &mut Active,
        script: &Script,
        reads: &mut Vec<Value>,
    ) -> Result<bool, ServiceFault>
        ensures does { IfOk result (λ all. DoesAll script.now.operations all
            active.old.draft.touched active.new.draft.touched reads.old.items reads.new.items) }
        ensures named { IsOfActive active.old active.new }
        ensures share { (seat.new.share ≡ seat.old.share)
            × (seat.new.begun ≡ seat.old.begun) }
        ensures begins { seat.new.begins ≡ seat.old.begins }
        ensures counts { CountsReads active.old.draft.touched active.new.draft.touched
            seat.old.counts.items seat.new.counts.items }
        ensures refused { IfErr result (IsUndone
            self.now.service.now.names.items active.old.tx script.now.operations
            active.old.draft.touched reads.old.items) }
        ensures fault { IfErr result IsOfOperation }
    {
        let operations = script.operations.as_slice();
        for op in operations {
            if !self.apply(rt, seat, active, op, reads)? {
                return Ok(false);
            }
            // That its items rise shows that a read is counted exactly where one more is kept.
            let _touched = active.draft().touched();
        }
        Ok(true)
    }

    #[tactic(auto, using(crate::proofs::Faults::begin_of_call, crate::proofs::Faults::operation_of_call, crate::proofs::Faults::commit_of_call, crate::proofs::Faults::withdraw_of_call))]
    // One try: a transaction of its own, whose reads' values it leaves in `reads`. It asks for the commit where all
    // sums fit, and else withdraws.
    fn try_once<R: Wait>(
        &self,
        rt: &R,
        seat: &mut Seat<L>,
        script: &Script,
        reads: &mut Vec<Value>,
    ) -> Result<Ticket, ServiceFault>
        ensures tries { IfOk result
            (λ t. TriesAt script.now.operations t reads.new.items seat.old seat.new) }
        ensures parts { seat.new.share.parts ≡ seat.old.share.parts }
        ensures begin_parts { seat.new.begins.parts ≡ seat.old.begins.parts }
        ensures halt { IfErr result (IsStopped seat.old seat.new) }
        ensures told { IfErr result (IsToldBy
            (vec_len self.now.service.now.sites) self.now.service.now.names.items script.now.operations) }
        ensures fault { IfErr result IsOfCall }
    {
        reads.clear();
        let mut active = self.service.begin(rt, self.alloc, seat)?;
        let fits = self.apply_all(rt, seat, &mut active, script, reads)?;
        if !fits {
            return match self.service.withdraw(rt, seat, active) {
                Ok(ticket) => Ok(ticket),
                Err(back) => Err(back.fault),
            };
        }
        match self.service.commit(rt, self.alloc, seat, active) {
            Ok(ticket) => Ok(ticket),
            Err(back) => Err(back.fault),
        }
    }
}

impl<'a, L: Ledgers, G: Gate> Work<Seat<L>, Script, ServiceFault> for Runner<'a, L, G> {
    ghost use Rattle.std.specs.Prelude.{◌≡◌, refl};
    ghost use Rattle.std.proofs.Common.{◌∙◌};
    ghost use Rattle.std.specs.Prelude.{vec_len};
    ghost use Rattle.sgt_service.specs.Told.{EndsTry};
    ghost use Rattle.sgt_service.specs.Tries.{IsDoneOf, TriesJob};

    ghost answers = { λ w number script done. IsDoneOf w.tries script done };

    ghost faults = { λ w number script fault.
        EndsTry (vec_len w.service.now.sites) w.service.now.names.items script fault };

    ghost keeps = { λ s t. (t.share.parts ≡ s.share.parts) × (t.begins.parts ≡ s.begins.parts) };

    ghost does = { λ w s number script done t. TriesJob s number script done t };

    #[tactic(auto, using(crate::proofs::Tries::tries_end, crate::proofs::Tries::tries_spent, crate::proofs::Tries::tries_more, crate::proofs::Tries::last_more))]
    // Tries the script until it isn't refused, or until no try is left.
    fn work<R: Wait>(
        &self,
        rt: &R,
        seat: &mut Seat<L>,
        job: Job<&Script>,
    ) -> Result<Done, ServiceFault> {
        self.service.gate.arrive(seat.number(), Place::Taken);
        let mut tickets = Vec::new(self.alloc);
        let mut reads = no_reads(self.alloc, job.script);
        for _ in 0..self.tries {
            tickets.reserve(1)?;
            let ticket = self.try_once(rt, seat, job.script, &mut reads)?;
            tickets.push_reserved(ticket);
            if ticket.verdict != Ending::Refused {
                return Ok(Done {
                    job: job.number,
                    tickets,
                    reads,
                });
            }
        }
        Ok(Done {
            job: job.number,
            tickets,
            reads,
        })
    }

    ghost keeps_same = { λ s. (refl, refl) };

    ghost keeps_on = { λ r s t a b. (b.0 ∙ a.0, b.1 ∙ a.1) };
}
