//! How many tickets have each number.

ghost use Rattle.std.specs.Prelude.{◌≡◌, ◌+◌, ◌++◌, ◌==◌, List, count_by, min};
ghost use Rattle.sgt_workers.specs.declared.ticket.Ticket.{Ticket as ATicket};
ghost use Rattle.sgt_service_settle.specs.Settled.{count_of, tickets_of};
ghost use Rattle.sgt_service_settle.specs.private.Tickets.{AreTallies};

use sgt_workers::{Done, Ticket};
use std::alloc::Global;

// One more, 2 standing for more.
fn one_more(tally: u8) -> u8
    ensures { result ≡ min 2 (tally + 1) }
{
    if tally == 0 { 1 } else { 2 }
}

// Counts these tickets.
fn add_tickets(tallies: &mut [u8], tickets: &[Ticket])
    ensures { (seen : List ATicket) → AreTallies tallies.old seen
        → AreTallies tallies.new (seen ++ tickets.now) }
{
    for ticket in tickets {
        let number = ticket.number as usize;
        if number < tallies.len() {
            tallies[number] = one_more(tallies[number]);
        }
    }
}

/// How many tickets have each number below that of the decisions, 2 standing for more; none where there is no memory.
/// Linear in the tickets and the decisions.
pub(crate) fn tallies(alloc: Global, dones: &[Done], decisions: usize) -> Vec<u8>
    ensures { AreTallies result.items (tickets_of dones.now) }
{
    let Ok(mut tallies) = Vec::from_elem(alloc, 0, decisions) else {
        return Vec::new(alloc);
    };
    for done in dones {
        add_tickets(tallies.as_mut_slice(), done.tickets.as_slice());
    }
    tallies
}

// How many tickets of a script have the number.
fn count_in(tickets: &[Ticket], number: u64) -> usize
    ensures { result ≡ count_of number tickets.now }
{
    tickets
        .iter()
        .filter(|ticket| ticket.number == number)
        .count()
}

// How many tickets have the number, 2 standing for more, by a walk over them.
fn tally_in(dones: &[Done], number: u64) -> usize
    ensures { result ≡ min 2 (count_of number (tickets_of dones.now)) }
{
    let mut tally = 0;
    for done in dones {
        tally = (tally + count_in(done.tickets.as_slice(), number).min(2)).min(2);
    }
    tally
}

/// How many tickets have the number, 2 standing for more. What the table doesn't have, the tickets tell.
pub(crate) fn tally(dones: &[Done], tallies: &[u8], number: u64) -> usize
    requires { AreTallies tallies.now (tickets_of dones.now) }
    ensures { result ≡ min 2 (count_of number (tickets_of dones.now)) }
{
    match tallies.get(number as usize) {
        Some(tally) => *tally as usize,
        None => tally_in(dones, number),
    }
}
