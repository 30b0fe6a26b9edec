//! A run that is over, checked as a whole, and its bundle.

ghost use Rattle.std.specs.Prelude.{◌≡◌, ◌≤◌, ◌↔◌, List, Err, IsTrue, IfOk, IfErr, MatchResult, length, vec_len};
ghost use Rattle.std.specs.List.{AllZip};
ghost use Rattle.sgt_service_agreement.specs.declared.fault.ServiceFault.TheVariants.{Memory};
ghost use Rattle.sgt_site.specs.State.{IsSite};
ghost use Rattle.sgt_certifier.specs.History.{Replays};
ghost use Rattle.sgt_certifier.specs.Kept.{Kept};
ghost use Rattle.sgt_service_locks.specs.Guarded.{decision_count};
ghost use Rattle.sgt_service_locks.specs.Together.{parts_of, amount_of, begin_parts_of, begins_of, counts_of};
ghost use Rattle.sgt_service_settle.specs.Settled.{AreTickets, IsSettled};
ghost use Rattle.sgt_workers.specs.Answers.{JobsRise};
ghost use Rattle.sgt_workers.specs.declared.ticket.Done.{Done as ADone};
ghost use Rattle.sgt_service.specs.Bundle.{ArePutInOrder, IsBundleOf, IsLogOf, IsRefused};

use sgt_bundle::{Bundle, SiteLog};
use sgt_certifier::Certifier;
use sgt_names::Listed;
use sgt_service_agreement::{EntryCounts, ServiceFault};
use sgt_service_locks::{Ledgers, Opened, Seat, Service};
use sgt_service_settle::{check_settled, check_told};
use sgt_site::Site;
use sgt_workers::{Done, Gate};
use std::alloc::{AllocError, Global};
use std::marker::Model;

/// What lay behind the locks of a service, what its seats counted, and what its callers were told: a settled run.
#[derive(Drop)]
pub struct Settled {
    certifier: Certifier,
    sites: Vec<Site>,
    counts: Vec<EntryCounts>,
    dones: Vec<Done>,
}

impl Model for Settled {
    ghost use Rattle.std.specs.Prelude.{◌≤◌, length};
    ghost use Rattle.sgt_names.specs.Limits.{max_sites};
    ghost use Rattle.sgt_service_settle.specs.Settled.{IsSettled, Run};

    ghost Value = { Run };

    ghost view = { λ s. record {
      certifier = s.certifier;
      sites = s.sites.items;
      counts = s.counts.items;
      dones = s.dones.items;
    } };

    ghost invariant = { λ s. IsSettled (record {
      certifier = s.certifier;
      sites = s.sites.items;
      counts = s.counts.items;
      dones = s.dones.items;
    }) × (1 ≤ length s.sites.items) × (length s.sites.items ≤ max_sites) };
}

impl Settled {
    ghost use Rattle.std.specs.Prelude.{◌≡◌, ◌≤◌, IfOk, IfErr, vec_len};
    ghost use Rattle.sgt_names.specs.Limits.{max_sites};
    ghost use Rattle.sgt_service_settle.specs.Settled.{AreKept, IsSettled};
    ghost use Rattle.sgt_service_settle.specs.Fault.{IsUnsettled};
    ghost use Rattle.sgt_service.specs.Bundle.{run_of};

    /// What each script was told, by rising job.
    pub fn dones(&self) -> &[Done]
        ensures dones { result.now ≡ self.now.dones }
        ensures settled { IsSettled self.now }
    {
        self.dones.as_slice()
    }

    /// The same, of which all else is let go.
    pub fn into_dones(self) -> Vec<Done>
        ensures dones { result.items ≡ self.dones }
        ensures settled { IsSettled self }
    {
        let Settled { dones, .. } = self;
        dones
    }

    /// The run of which this was left behind the locks and counted, and whose callers were told this, where it is
    /// settled. Else the fault that `check_settled` tells of it.
    pub fn of_opened(
        alloc: Global,
        opened: Opened,
        dones: Vec<Done>,
    ) -> Result<Settled, ServiceFault>
        requires sites { (1 ≤ vec_len opened.sites) × (vec_len opened.sites ≤ max_sites) }
        requires counts { vec_len opened.counts ≡ vec_len opened.sites }
        ensures settled { IfOk result (λ s. (s ≡ run_of opened dones.items) × IsSettled s) }
        ensures refused { IfErr result (IsUnsettled (run_of opened dones.items)) }
        ensures kept { AreKept (run_of opened dones.items) }
    {
        let Opened {
            certifier,
            sites,
            counts,
        } = opened;
        check_settled(
            alloc,
            &certifier,
            sites.as_slice(),
            counts.as_slice(),
            dones.as_slice(),
        )?;
        Ok(Settled {
            certifier,
            sites,
            counts,
            dones,
        })
    }

    /// The sites with their logs, by number.
    pub fn sites(&self) -> &[Site]
        ensures { result.now ≡ self.now.sites }
    {
        self.sites.as_slice()
    }

    /// The certifier with its history.
    pub fn certifier(&self) -> &Certifier
        ensures { result.now ≡ self.now.certifier }
    {
        &self.certifier
    }
}

/// Takes a service apart, once all its callers are done, and checks what was left against what they were told. Where
/// the seats are all that there are, the history has as many decisions as their shares together, and as many begins.
/// It waits for nobody. The Dones come back by rising job, in whatever order they were given.
///
/// A run that isn't settled is refused as `Settled::of_opened` refuses it: V1, V2, V6, V8, V9, V10 and V4 with C4, in
/// this order, each with the least number of its kind. V3: there was no memory, and the tickets are the decisions.
/// Where there is none for the sites, the certifier and the tickets alone are looked at.
#[tactic(auto, using(crate::proofs::Counts::counts_many))]
pub fn settle<L: Ledgers, G: Gate>(
    alloc: Global,
    service: Service<L, G>,
    dones: Vec<Done>,
    seats: Vec<Seat<L>>,
) -> Result<Settled, ServiceFault>
    ensures settled { IfOk result IsSettled }
    ensures dones { IfOk result (λ s. ArePutInOrder dones.items s.dones) }
    ensures counts { IfOk result (λ s. s.counts ≡ counts_of (vec_len service.names) seats.items) }
    ensures sites { IfOk result (λ s. length s.sites ≡ vec_len service.names) }
    ensures decisions { IfOk result (λ s. parts_of seats.items ≡ L.parts
        → decision_count s.certifier ≡ amount_of seats.items) }
    ensures begins { IfOk result (λ s. begin_parts_of seats.items ≡ L.parts
        → s.certifier.state.begun ≡ begins_of seats.items) }
    ensures refused { IfErr result (λ f. (told : List ADone) × ArePutInOrder dones.items told
        × IsRefused (vec_len service.names) L.parts seats.items told f) }
    ensures memory { result ≡ Err Memory
        → (c : Kept) × (told : List ADone) × Replays c.history c.state
        × ArePutInOrder dones.items told × AreTickets c.state.rulings told }
{
    let told = put_in_order(dones);
    match service.open(alloc, seats) {
        Ok(opened) => Settled::of_opened(alloc, opened, told),
        Err(certifier) => Err(told_alone(check_told(alloc, &certifier, told.as_slice()))),
    }
}

// The Dones by rising job.
fn put_in_order(dones: Vec<Done>) -> Vec<Done>
    ensures { ArePutInOrder dones.items result.items }
{
    let mut dones = dones;
    let rises = rise(dones.as_slice());
    if rises {
        return dones;
    }
    dones.sort_unstable_by_key(|done| done.job);
    dones
}

// Whether the jobs rise.
fn rise(dones: &[Done]) -> bool
    ensures { IsTrue result ↔ JobsRise dones.now }
{
    for i in 1..dones.len() {
        if dones[i].job <= dones[i - 1].job {
            return false;
        }
    }
    true
}

// The fault of a run whose sites there is no memory for.
fn told_alone(told: Result<(), ServiceFault>) -> ServiceFault
    ensures { MatchResult told (λ done. result ≡ Memory) (λ fault. result ≡ fault) }
{
    match told {
        Ok(()) => ServiceFault::Memory,
        Err(fault) => fault,
    }
}

/// The certificate and the logs that were found behind the locks. It errs where there is no memory.
pub fn bundle(alloc: Global, settled: &Settled) -> Result<Bundle, AllocError>
    ensures { IfOk result (IsBundleOf settled.now) }
{
    let count = settled.sites.len() as u8;
    let _history = settled.certifier.history();
    let certificate = settled.certifier.certificate(alloc, count)?;
    let logs = logs_of(alloc, settled.sites.as_slice())?;
    match Bundle::new(certificate, logs) {
        Some(bundle) => Ok(bundle),
        None => unreachable!(),
    }
}

// The log of a site, with the last values of its items.
fn log_of(alloc: Global, site: &Site) -> Result<SiteLog, AllocError>
    ensures log { IfOk result (IsLogOf site.now) }
    ensures site { IsSite site.now }
{
    let items = Vec::from_slice(alloc, site.items())?;
    let entries = site.log().to_vec(alloc)?;
    let Ok(finals) = site.final_values(alloc) else {
        return Err(AllocError);
    };
    Ok(SiteLog {
        items: Listed::new(items),
        entries: Listed::new(entries),
        finals: Listed::new(finals),
    })
}

// The logs of the sites, by number.
fn logs_of(alloc: Global, sites: &[Site]) -> Result<Vec<SiteLog>, AllocError>
    ensures { IfOk result
        (λ logs. AllZip (λ s log. IsLogOf s log × IsSite s) sites.now logs.items) }
{
    let mut logs = Vec::new(alloc);
    logs.reserve(sites.len())?;
    for site in sites {
        let log = log_of(alloc, site)?;
        logs.push_reserved(log);
    }
    Ok(logs)
}
