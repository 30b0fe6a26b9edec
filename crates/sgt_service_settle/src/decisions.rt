//! The decisions of a history: call by call, and in a table.

ghost use Rattle.std.specs.Prelude.{◌≡◌, ◌↔◌, ◌<◌, ◌+◌, ◌^◌, IsTrue, count_by};
ghost use Rattle.sgt_certifier.specs.Kept.{rulings_from, windows_after, tx_at};
ghost use Rattle.sgt_service_settle.specs.Settled.{IsGood};
ghost use Rattle.sgt_service_settle.specs.private.Tickets.{AreVerdicts, IsToldBy, ending_of, is_decision, verdict_of};

use sgt_arena::Handle;
use sgt_certifier::{Call, Decided};
use sgt_workers::{Ending, Ticket};
use std::alloc::Global;

/// A decision: how the transaction under the handle ended, and how many were begun before its window.
#[derive(Clone, Copy, Debug, PartialEq, Eq)]
pub struct Verdict {
    pub before: u64,
    pub handle: Handle,
    pub ending: Ending,
}

// How the transaction of a decision ended.
fn ending_of(reply: &Decided) -> Ending
    ensures { result ≡ ending_of reply.now }
{
    match reply {
        Decided::Committed { .. } => Ending::Committed,
        Decided::Refused { .. } => Ending::Refused,
    }
}

// Whether the ticket has this verdict, and the transaction under the handle of the window before which so many were
// begun.
fn is_told(ticket: Ticket, before: u64, handle: Handle, verdict: Ending) -> bool
    ensures { IsTrue result ↔ ((ticket.tx ≡ tx_at before handle) × (ticket.verdict ≡ verdict)) }
{
    let tx = ticket.tx.number() as u64;
    tx > before && tx - before - 1 == handle.index as u64 && ticket.verdict == verdict
}

// Whether the call is a decision that the ticket tells.
fn tells(ticket: Ticket, before: u64, call: &Call) -> bool
    ensures { IsTrue result ↔ IsToldBy ticket before call.now }
{
    match call {
        Call::Decide { handle, reply, .. } => is_told(ticket, before, *handle, ending_of(reply)),
        Call::Withdraw { handle, .. } => is_told(ticket, before, *handle, Ending::Withdrawn),
        _ => false,
    }
}

fn is_decision(call: &Call) -> bool
    ensures { result ≡ is_decision call.now }
{
    matches!(call, Call::Decide { .. } | Call::Withdraw { .. })
}

/// How many decisions the history has.
pub(crate) fn decisions_in(history: &[Call]) -> usize
    ensures { result ≡ count_by is_decision history.now }
{
    history.iter().filter(|call| is_decision(call)).count()
}

// How many transactions were begun after a call, and how many of them before its window.
fn windows_after(begun: u64, before: u64, call: &Call) -> (u64, u64)
    requires { begun + 1 < 2 ^ 64 }
    ensures { result ≡ windows_after begun before call.now }
{
    match call {
        Call::Begin { .. } => (begun + 1, before),
        Call::Close { .. } => (begun, begun),
        _ => (begun, before),
    }
}

// Whether the ticket tells the decision of its number, by a walk over the history.
fn is_good_in(history: &[Call], ticket: Ticket) -> bool
    ensures { IsTrue result ↔ IsGood (rulings_from 0 0 history.now) ticket }
{
    let mut begun = 0;
    let mut before = 0;
    let mut number = 0;
    for call in history {
        if is_decision(call) {
            if number == ticket.number {
                return tells(ticket, before, call);
            }
            number += 1;
        }
        (begun, before) = windows_after(begun, before, call);
    }
    false
}

// The decision of the call, if it is one, where so many transactions were begun before the window.
fn verdict_of(before: u64, call: &Call) -> Option<Verdict>
    ensures { result ≡ verdict_of before call.now }
{
    match call {
        Call::Decide { handle, reply, .. } => Some(Verdict {
            before,
            handle: *handle,
            ending: ending_of(reply),
        }),
        Call::Withdraw { handle, .. } => Some(Verdict {
            before,
            handle: *handle,
            ending: Ending::Withdrawn,
        }),
        _ => None,
    }
}

/// The decisions of the history by their numbers, as far as there is memory for them. Linear in the history.
pub(crate) fn verdicts(alloc: Global, history: &[Call]) -> Vec<Verdict>
    ensures { AreVerdicts (rulings_from 0 0 history.now) result.items }
{
    let mut verdicts = Vec::new(alloc);
    let mut begun = 0;
    let mut before = 0;
    for call in history {
        if let Some(verdict) = verdict_of(before, call) {
            if verdicts.reserve(1).is_err() {
                return verdicts;
            }
            verdicts.push_reserved(verdict);
        }
        (begun, before) = windows_after(begun, before, call);
    }
    verdicts
}

/// Whether the ticket tells the decision of its number. What the table doesn't have, the history tells.
pub(crate) fn is_good(history: &[Call], verdicts: &[Verdict], ticket: Ticket) -> bool
    requires { AreVerdicts (rulings_from 0 0 history.now) verdicts.now }
    ensures { IsTrue result ↔ IsGood (rulings_from 0 0 history.now) ticket }
{
    match verdicts.get(ticket.number as usize) {
        Some(verdict) => is_told(ticket, verdict.before, verdict.handle, verdict.ending),
        None => is_good_in(history, ticket),
    }
}
