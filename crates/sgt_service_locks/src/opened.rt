//! A service taken apart, once all its callers are done.

ghost use Rattle.std.specs.Prelude.{◌≡◌, ◌+◌, IfOk, vec_len};
ghost use Rattle.std.specs.List.{AllZip};
ghost use Rattle.sgt_service_locks.specs.Together.{added, both, parts_of, amount_of, begin_parts_of, begins_of, counts_of};

use crate::ledgers::{Begins, Ledgers};
use crate::seat::Seat;
use crate::service::Service;
use sgt_certifier::Certifier;
use sgt_service_agreement::EntryCounts;
use sgt_site::Site;
use sgt_workers::Gate;
use std::alloc::{AllocError, Global};
use std::sync::Mutex;
use std::sync::ledger::Share;

/// What lay behind the locks of a service, with what its seats counted together at each site.
#[derive(Drop)]
pub struct Opened {
    pub certifier: Certifier,
    pub sites: Vec<Site>,
    pub counts: Vec<EntryCounts>,
}

impl<L: Ledgers, G: Gate> Service<L, G> {
    ghost use Rattle.std.specs.Prelude.{◌≡◌, IfOk, IfErr, vec_len};
    ghost use Rattle.sgt_service_locks.specs.Guarded.{decision_count};
    ghost use Rattle.sgt_service_locks.specs.Together.{parts_of, amount_of, begin_parts_of, begins_of, counts_of};

    /// Takes the locks apart, and puts together what the seats counted. Where the seats are all that there are, the
    /// history has as many decisions as their shares together, and as many begins. It waits for nobody. Where there
    /// was no memory, the certifier alone is handed out.
    pub fn open(self, alloc: Global, seats: Vec<Seat<L>>) -> Result<Opened, Certifier>
        ensures decisions { IfOk result (λ o. parts_of seats.items ≡ L.parts
            → decision_count o.certifier ≡ amount_of seats.items) }
        ensures begins { IfOk result (λ o. begin_parts_of seats.items ≡ L.parts
            → o.certifier.state.begun ≡ begins_of seats.items) }
        ensures sites { IfOk result (λ o. vec_len o.sites ≡ vec_len self.names) }
        ensures counts { IfOk result
            (λ o. o.counts.items ≡ counts_of (vec_len self.names) seats.items) }
        ensures unopened { IfErr result (λ certifier. parts_of seats.items ≡ L.parts
            → decision_count certifier ≡ amount_of seats.items) }
        ensures unopened_begins { IfErr result (λ certifier. begin_parts_of seats.items ≡ L.parts
            → certifier.state.begun ≡ begins_of seats.items) }
    {
        let Service {
            certifier,
            sites,
            gate: _,
            names: _,
        } = self;
        let (certifier, decisions, begins) = certifier.into_inner().into_parts();
        let (mut book, none) = decisions;
        let (mut begun, nobody) = begins;
        let counts = counted(alloc, seats.as_slice(), sites.len());
        let (mut all, mut beginning) = merged(none, nobody, seats);
        book.audit(&mut all);
        begun.audit(&mut beginning);
        let Ok(sites) = unlocked(alloc, sites) else {
            return Err(certifier);
        };
        let Ok(counts) = counts else {
            return Err(certifier);
        };
        Ok(Opened {
            certifier,
            sites,
            counts,
        })
    }
}

// All shares as one of each ledger.
fn merged<L: Ledgers>(
    mut all: Share<L>,
    mut beginning: Share<Begins<L>>,
    seats: Vec<Seat<L>>,
) -> (Share<L>, Share<Begins<L>>)
    ensures parts { result.0.parts ≡ all.parts + parts_of seats.items }
    ensures amount { result.0.amount ≡ all.amount + amount_of seats.items }
    ensures begin_parts { result.1.parts ≡ beginning.parts + begin_parts_of seats.items }
    ensures begins { result.1.amount ≡ beginning.amount + begins_of seats.items }
{
    for seat in seats {
        let Seat { share, begins, .. } = seat;
        all.merge(share);
        beginning.merge(begins);
    }
    (all, beginning)
}

// What the seats counted together at each site.
fn counted<L: Ledgers>(
    alloc: Global,
    seats: &[Seat<L>],
    sites: usize,
) -> Result<Vec<EntryCounts>, AllocError>
    ensures { IfOk result (λ counts. counts.items ≡ counts_of sites seats.now) }
{
    let nothing = EntryCounts {
        reads: 0,
        others: 0,
    };
    let mut counts = Vec::from_elem(alloc, nothing, sites)?;
    for seat in seats {
        add_counts(&mut counts, seat.counts());
    }
    Ok(counts)
}

// What each of them is, taken out, in their order.
fn taken_out<T: Drop, U: Drop, F: Fn(T) -> U>(
    alloc: Global,
    all: Vec<T>,
    take: F,
) -> Result<Vec<U>, AllocError>
    requires { F.IsAlwaysCallable take }
    ensures { IfOk result (λ out. AllZip (λ one it. F.post take one it) all.items out.items) }
{
    let mut out = Vec::new(alloc);
    for one in all {
        out.push(take(one))?;
    }
    Ok(out)
}

// The sites, each out of its lock, in the order of the locks.
fn unlocked(alloc: Global, sites: Vec<Mutex<Site>>) -> Result<Vec<Site>, AllocError>
    ensures { IfOk result (λ all. vec_len all ≡ vec_len sites) }
{
    taken_out(alloc, sites, |site| site.into_inner())
}

// Adds what one seat counted at each site.
fn add_counts(counts: &mut Vec<EntryCounts>, theirs: &[EntryCounts])
    ensures { counts.new.items ≡ added counts.old.items theirs.now }
{
    for site in 0..counts.len() {
        if site >= theirs.len() {
            return;
        }
        counts[site] = both(counts[site], theirs[site]);
    }
}

fn both(mine: EntryCounts, theirs: EntryCounts) -> EntryCounts
    ensures { result ≡ both mine theirs }
{
    EntryCounts {
        reads: mine.reads.saturating_add(theirs.reads),
        others: mine.others.saturating_add(theirs.others),
    }
}
