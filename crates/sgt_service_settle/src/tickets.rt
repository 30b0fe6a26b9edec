//! Whether the tickets are the decisions of the history, each once and those of each script in order.

ghost use Rattle.std.specs.Prelude.{◌≡◌, ◌↔◌, ◌<◌, ◌≤◌, ◌+◌, ◌^◌, ◌++◌, [], ℕ, min, List, IsTrue, count_by, AllPairs, OnOk, IfErr, IfNone, IfSome, ◌==◌};
ghost use Rattle.sgt_workers.specs.declared.ticket.Ticket.{Ticket as ATicket};
ghost use Rattle.sgt_workers.specs.declared.ticket.Done.{Done as ADone};
ghost use Rattle.sgt_certifier.specs.Kept.{rulings_from};
ghost use Rattle.sgt_service_settle.specs.Settled.{AreTickets, IsGood, Rises, Run, count_of, tickets_of};
ghost use Rattle.sgt_service_settle.specs.Fault.{IsUnsettled};
ghost use Rattle.sgt_service_settle.specs.private.Words.{IsLeastOf};
ghost use Rattle.sgt_service_settle.specs.private.Tickets.{AreTallies, AreVerdicts, IsRunOf, IsStray, is_decision};

use crate::decisions::{Verdict, decisions_in, is_good, verdicts};
use crate::least::lesser;
use crate::tallies::{tallies, tally};
use sgt_certifier::Call;
use sgt_service_agreement::ServiceFault;
use sgt_workers::{Done, Ticket};
use std::alloc::Global;

// The least number of a ticket that is not good, of these and those before.
fn least_stray(
    history: &[Call],
    verdicts: &[Verdict],
    tickets: &[Ticket],
    least: Option<u64>,
) -> Option<u64>
    requires { AreVerdicts (rulings_from 0 0 history.now) verdicts.now }
    ensures { (seen : List ATicket)
        → IsLeastOf (λ (t : ATicket). t.number) (IsStray history.now) seen least
        → IsLeastOf (λ (t : ATicket). t.number) (IsStray history.now) (seen ++ tickets.now) result }
{
    let mut least = least;
    for ticket in tickets {
        if !is_good(history, verdicts, *ticket) {
            least = Some(lesser(least, ticket.number));
        }
    }
    least
}

// The least number of a ticket that is not good.
fn first_stray(history: &[Call], verdicts: &[Verdict], dones: &[Done]) -> Option<u64>
    requires { AreVerdicts (rulings_from 0 0 history.now) verdicts.now }
    ensures { IsLeastOf (λ (t : ATicket). t.number) (IsStray history.now)
        (tickets_of dones.now) result }
{
    let mut least = None;
    for done in dones {
        least = least_stray(history, verdicts, done.tickets.as_slice(), least);
    }
    least
}

// The least number of two tickets, below that of the decisions.
fn first_doubled(dones: &[Done], tallies: &[u8], decisions: usize) -> Option<u64>
    requires { AreTallies tallies.now (tickets_of dones.now) }
    ensures none { IfNone result ((k : ℕ) → k < decisions → count_of k (tickets_of dones.now) ≤ 1) }
    ensures some { IfSome result (λ k. (2 ≤ count_of k (tickets_of dones.now))
        × ((j : ℕ) → j < k → count_of j (tickets_of dones.now) ≤ 1)) }
{
    for number in 0..decisions {
        if tally(dones, tallies, number as u64) == 2 {
            return Some(number as u64);
        }
    }
    None
}

// The least number of a decision without a ticket.
fn first_missing(dones: &[Done], tallies: &[u8], decisions: usize) -> Option<u64>
    requires { AreTallies tallies.now (tickets_of dones.now) }
    ensures none { IfNone result ((k : ℕ) → k < decisions → 1 ≤ count_of k (tickets_of dones.now)) }
    ensures some { IfSome result (λ k. (k < decisions) × (count_of k (tickets_of dones.now) ≡ 0)
        × ((j : ℕ) → j < k → 1 ≤ count_of j (tickets_of dones.now))) }
{
    for number in 0..decisions {
        if tally(dones, tallies, number as u64) == 0 {
            return Some(number as u64);
        }
    }
    None
}

// Whether the numbers of the tickets rise.
fn rise(tickets: &[Ticket]) -> bool
    ensures { IsTrue result ↔ AllPairs (λ (t u : ATicket). t.number < u.number) tickets.now }
{
    for i in 1..tickets.len() {
        if tickets[i].number <= tickets[i - 1].number {
            return false;
        }
    }
    true
}

// The least job whose tickets don't rise.
fn first_unordered(dones: &[Done]) -> Option<u64>
    ensures { IsLeastOf (λ (d : ADone). d.job) (λ (d : ADone). Rises d → ⊥) dones.now result }
{
    let mut least = None;
    for done in dones {
        if !rise(done.tickets.as_slice()) {
            least = Some(lesser(least, done.job));
        }
    }
    least
}

/// Whether the tickets are the decisions of the history, each once and those of each script in order.
///
/// Linear in the history and the tickets, in time and memory. Where there is no memory for a table, each ticket or
/// each decision costs a walk over the history or the tickets.
pub(crate) fn check_tickets(
    alloc: Global,
    history: &[Call],
    dones: &[Done],
) -> Result<(), ServiceFault>
    ensures ok { OnOk result (AreTickets (rulings_from 0 0 history.now) dones.now) }
    ensures err { IfErr result
        (λ f. (r : Run) → IsRunOf r history.now dones.now → IsUnsettled r f) }
{
    let decisions = decisions_in(history);
    let verdicts = verdicts(alloc, history);
    if let Some(number) = first_stray(history, verdicts.as_slice(), dones) {
        return Err(ServiceFault::StrayTicket(number));
    }
    let tallies = tallies(alloc, dones, decisions);
    if let Some(number) = first_doubled(dones, tallies.as_slice(), decisions) {
        return Err(ServiceFault::TwoTickets(number));
    }
    if let Some(number) = first_missing(dones, tallies.as_slice(), decisions) {
        return Err(ServiceFault::MissingTicket(number));
    }
    if let Some(job) = first_unordered(dones) {
        return Err(ServiceFault::TicketOrder(job));
    }
    Ok(())
}
