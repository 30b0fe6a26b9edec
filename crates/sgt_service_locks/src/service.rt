//! The locks of a certifier and its sites, and the calls that take one of them.

ghost use Rattle.std.specs.Prelude.{◌≡◌, ◌↔◌, ◌≤◌, ◌++◌, [], ◌∷◌, Some, length, map, All, Contains, IsTrue, IfOk, IfErr, IfSome, OnOk, vec_len};
ghost use Rattle.std.specs.List.{range_with_len};
ghost use Rattle.sgt_names.specs.Limits.{max_sites};
ghost use Rattle.sgt_names.specs.Log.{names};
ghost use Rattle.sgt_site.specs.State.{SiteState, AreItems, opened};
ghost use Rattle.sgt_site.specs.declared.fault.SiteFault.TheVariants.{BadItems};
ghost use Rattle.sgt_service_agreement.specs.declared.fault.ServiceFault.TheVariants.{Site as AtSite};
ghost use Rattle.sgt_service_locks.specs.Opened.{sites_from};
ghost use Rattle.sgt_service_locks.specs.Refused.{NamesRise, RefusesSites};
ghost use Rattle.sgt_service_locks.specs.Seats.{IsNew, HasBegunNone};

use crate::active::Active;
use crate::guarded::Guarded;
use crate::ledgers::{Begins, Blanks, Ledgers};
use crate::seat::Seat;
use sgt_names::{Draft, Holding, Item, Listed, SiteNo, Value};
use sgt_service_agreement::{EntryCounts, ServiceFault};
use sgt_site::{Site, SiteFault};
use sgt_workers::Gate;
use std::alloc::{AllocError, Global};
use std::mem;
use std::sync::ledger::Share;
use std::sync::{Mutex, Wait};

/// A certifier and its sites, each under a lock of its own. A thread that holds the certifier's lock may take a
/// site's, one after another; one that holds a site's takes none.
#[derive(Drop)]
pub struct Service<L: Ledgers, G: Gate> {
    /// The certifier with its book, under its lock.
    pub(crate) certifier: Mutex<Guarded<L>>,
    /// The sites, by number, each under its lock. Of what somebody does to one behind the service's back V7, V9 and
    /// V10 tell as far as it shows in a pledge, a count, an edge or a version.
    pub sites: Vec<Mutex<Site>>,
    /// Is told where each worker stands, by its seat's number.
    pub gate: G,
    /// The names of the sites' items, which never change.
    pub(crate) names: Vec<Listed<Item>>,
    pub ghost named: { vec_len names ≡ vec_len sites },
    pub ghost some: { 1 ≤ vec_len sites },
    pub ghost few: { vec_len sites ≤ max_sites },
    pub ghost rising: { All NamesRise names.items },
}

impl<L: Ledgers, G: Gate> Service<L, G> {
    ghost use Rattle.std.specs.Prelude.{◌≡◌, ◌↔◌, ◌≤◌, ◌+◌, [], Some, length, map, replicate, All, IsTrue, IfOk, IfErr, OnOk, OnErr, vec_len};
    ghost use Rattle.std.specs.List.{range_with_len};
    ghost use Rattle.sgt_names.specs.Limits.{max_sites};
    ghost use Rattle.sgt_names.specs.Log.{names};
    ghost use Rattle.sgt_names.specs.Draft.{seen_at, change_at, added_to, ChangesOnly};
    ghost use Rattle.sgt_names.specs.declared.entry.Change.TheVariants.{Put};
    ghost use Rattle.sgt_site.specs.State.{AreItems};
    ghost use Rattle.sgt_service_locks.specs.Seats.{IsNew, HasBegunNone, SameSeat, CountsBegin};
    ghost use Rattle.sgt_service_locks.specs.Ledgers.{AreOf};
    ghost use Rattle.sgt_certifier.specs.History.{begin, close};
    ghost use Rattle.sgt_certifier.specs.declared.call.Call.TheVariants as call;
    ghost use Rattle.sgt_service_locks.specs.Guarded.{HasAdded};
    ghost use Rattle.sgt_service_locks.specs.Refused.{HasItem, RefusesItem, RefusesSites, IsOfBegin, IsToldOf};

    /// A service of these sites, at least one, none of which has an entry yet, and all its seats, numbered from 0.
    /// The blanks of the ledgers have a part for each seat. A site is named by its place.
    ///
    /// - V4 with S6: the names of a site's items don't rise, or there are more than 1,024.
    /// - V3: there was no memory.
    pub fn new(
        alloc: Global,
        blanks: Blanks,
        sites: &[Listed<Holding>],
        seats: u64,
        gate: G,
    ) -> Result<(Service<L, G>, Vec<Seat<L>>), ServiceFault>
        requires ledgers { AreOf L.name L.begins L.parts blanks × (L.parts ≡ seats) }
        requires sites { (1 ≤ length sites.now) × (length sites.now ≤ max_sites) }
        ensures seats { IfOk result
            (λ r. (vec_len r.1 ≡ seats) × All (IsNew (length sites.now)) r.1.items) }
        ensures begins { IfOk result (λ r. All HasBegunNone r.1.items) }
        ensures numbers { IfOk result
            (λ r. map (λ s. s.number) r.1.items ≡ range_with_len 0 seats) }
        ensures names { IfOk result (λ r. r.0.names.items ≡ map names sites.now) }
        ensures gate { IfOk result (λ r. r.0.gate ≡ gate) }
        ensures allowed { OnOk result (All AreItems sites.now) }
        ensures refused { IfErr result (RefusesSites sites.now) }
    {
        let Blanks { decisions, begins } = blanks;
        let (book, mut share) = decisions.open::<L>();
        let (begun, mut beginning) = begins.open::<Begins<L>>();
        let guarded = Guarded::new(alloc, book, share.empty(), begun, beginning.empty());
        let opened = open_sites(alloc, sites)?;
        let locks = locked(alloc, opened)?;
        let names = rising_names(alloc, sites)?;
        let seats = new_seats(alloc, share, beginning, seats, sites.len())?;
        let service = Service {
            certifier: Mutex::new(guarded),
            sites: locks,
            gate,
            names,
        };
        Ok((service, seats))
    }

    /// How many sites there are.
    pub fn sites(&self) -> usize
        ensures { result ≡ vec_len self.now.names }
    {
        self.sites.len()
    }

    // Whether the site has an item of this name.
    pub(crate) fn has_item(&self, site: SiteNo, item: Item) -> bool
        ensures { IsTrue result ↔ HasItem self.now.names.items site item }
    {
        let place = site.number() as usize;
        if place >= self.names.len() {
            return false;
        }
        contains(self.names[place].as_slice(), item)
    }

    #[tactic(auto, using(crate::proofs::Faults::begin_told))]
    /// Begins the next transaction, with an empty draft, and counts it at the seat. It takes the certifier's lock.
    ///
    /// - V7: a site was found to have lost its pledge.
    /// - V4 with C1, C3 or C8, as the certifier refuses.
    /// - V3: there was no memory.
    pub fn begin<R: Wait>(
        &self,
        rt: &R,
        alloc: Global,
        seat: &mut Seat<L>,
    ) -> Result<Active, ServiceFault>
        ensures seat { OnOk result (CountsBegin seat.old seat.new) }
        ensures err { OnErr result (SameSeat seat.old seat.new) }
        ensures counted { OnOk result
            (seat.new.begins.amount ≡ seat.old.begins.amount + 1) }
        ensures parts { seat.new.begins.parts ≡ seat.old.begins.parts }
        ensures uncounted { OnErr result (seat.new.begins ≡ seat.old.begins) }
        ensures draft { IfOk result (λ a. a.draft.touched ≡ []) }
        ensures begun { IfOk result (λ a. HasAdded (call.Begin a.tx a.handle)) }
        ensures refused { IfErr result (IsToldOf begin) }
        ensures fault { IfErr result IsOfBegin }
    {
        let (tx, handle) = self.certifier.lock(rt).begin(&mut seat.begins)?;
        seat.count_begin();
        let mut draft = mem::replace(&mut seat.spare, Draft::new(alloc));
        draft.clear();
        Ok(Active { tx, handle, draft })
    }

    /// Keeps a private write. Nobody else sees it before the transaction is committed. It takes no lock.
    ///
    /// - V4 with S1: the site or the item isn't there.
    /// - V3: there was no memory.
    pub fn put(
        &self,
        active: &mut Active,
        site: SiteNo,
        item: Item,
        value: Value,
    ) -> Result<(), ServiceFault>
        ensures ok { OnOk result
            (ChangesOnly active.old.draft.touched active.new.draft.touched (record {
              site = site;
              item = item;
              seen = seen_at active.old.draft.touched (site, item);
              change = Some (Put value);
            })) }
        ensures named { (active.new.tx ≡ active.old.tx) × (active.new.handle ≡ active.old.handle) }
        ensures err { OnErr result (active.new ≡ active.old) }
        ensures allowed { OnOk result (HasItem self.now.names.items site item) }
        ensures refused { IfErr result (RefusesItem self.now.names.items site item) }
    {
        if !self.has_item(site, item) {
            return Err(ServiceFault::Site(SiteFault::UnknownItem));
        }
        active.draft.put(site, item, value)?;
        Ok(())
    }

    /// Keeps a private increment, which becomes one with an earlier write or increment. It takes no lock.
    ///
    /// - V4 with S1: the site or the item isn't there.
    /// - V3: there was no memory.
    pub fn add(
        &self,
        active: &mut Active,
        site: SiteNo,
        item: Item,
        value: Value,
    ) -> Result<(), ServiceFault>
        ensures ok { OnOk result
            (ChangesOnly active.old.draft.touched active.new.draft.touched (record {
              site = site;
              item = item;
              seen = seen_at active.old.draft.touched (site, item);
              change = Some (added_to (change_at active.old.draft.touched (site, item)) value);
            })) }
        ensures named { (active.new.tx ≡ active.old.tx) × (active.new.handle ≡ active.old.handle) }
        ensures err { OnErr result (active.new ≡ active.old) }
        ensures allowed { OnOk result (HasItem self.now.names.items site item) }
        ensures refused { IfErr result (RefusesItem self.now.names.items site item) }
    {
        if !self.has_item(site, item) {
            return Err(ServiceFault::Site(SiteFault::UnknownItem));
        }
        active.draft.add(site, item, value)?;
        Ok(())
    }

    /// Closes the window, in which no transaction may be active, and answers how many ranks were given until now. It
    /// takes the certifier's lock.
    ///
    /// - V7: a site was found to have lost its pledge.
    /// - V4 with C3, C4 or C7, as the certifier refuses.
    /// - V3: there was no memory.
    pub fn close<R: Wait>(&self, rt: &R) -> Result<u64, ServiceFault>
        ensures closed { IfOk result (λ ranks. HasAdded (call.Close ranks)) }
        ensures refused { IfErr result (IsToldOf close) }
    {
        self.certifier.lock(rt).close()
    }
}

// Seats with nothing counted, numbered from 0, one for each part of the shares.
fn new_seats<L: Ledgers>(
    alloc: Global,
    mut rest: Share<L>,
    mut beginning: Share<Begins<L>>,
    count: u64,
    sites: usize,
) -> Result<Vec<Seat<L>>, AllocError>
    requires rest { (rest.parts ≡ count) × (rest.amount ≡ 0) }
    requires beginning { (beginning.parts ≡ count) × (beginning.amount ≡ 0) }
    ensures seats { IfOk result
        (λ seats. (vec_len seats ≡ count) × All (IsNew sites) seats.items) }
    ensures begins { IfOk result (λ seats. All HasBegunNone seats.items) }
    ensures numbers { IfOk result
        (λ seats. map (λ s. s.number) seats.items ≡ range_with_len 0 count) }
{
    let nothing = EntryCounts {
        reads: 0,
        others: 0,
    };
    let mut seats = Vec::new(alloc);
    for number in 0..count {
        let counts = Vec::from_elem(alloc, nothing, sites)?;
        let share = rest.split_off(1, 0);
        let begins = beginning.split_off(1, 0);
        seats.push(Seat {
            number: number as usize,
            share,
            begins,
            counts,
            begun: 0,
            spare: Draft::new(alloc),
        })?;
    }
    Ok(seats)
}

// The sites with these items, by their numbers, none with an entry.
fn open_sites(alloc: Global, sites: &[Listed<Holding>]) -> Result<Vec<Site>, ServiceFault>
    requires { length sites.now ≤ max_sites }
    ensures sites { IfOk result (λ all. all.items ≡ sites_from 0 sites.now) }
    ensures many { IfOk result (λ all. vec_len all ≡ length sites.now) }
    ensures allowed { OnOk result (All AreItems sites.now) }
    ensures refused { IfErr result (RefusesSites sites.now) }
{
    let mut all = Vec::new(alloc);
    let mut has_room = true;
    for place in 0..sites.len() {
        let Ok(number) = SiteNo::new(place as u64) else {
            unreachable!()
        };
        let opened = open_site(alloc, number, sites[place].as_slice())?;
        if !add_site(&mut all, opened) {
            has_room = false;
        }
    }
    if !has_room {
        return Err(ServiceFault::Memory);
    }
    Ok(all)
}

// A site with these items. None where there was no memory.
fn open_site(alloc: Global, number: SiteNo, items: &[Holding]) -> Result<Option<Site>, ServiceFault>
    ensures ok { IfOk result (λ site. IfSome site (λ s. s ≡ opened number items.now)) }
    ensures allowed { OnOk result (AreItems items.now) }
    ensures refused { IfErr result (λ f. (f ≡ AtSite BadItems) × (AreItems items.now → ⊥)) }
{
    match Site::new(alloc, number, items) {
        Ok(site) => Ok(Some(site)),
        Err(SiteFault::Memory) => Ok(None),
        Err(fault) => Err(ServiceFault::Site(fault)),
    }
}

// Adds the site, and says whether it is there and there was memory.
fn add_site(all: &mut Vec<Site>, site: Option<Site>) -> bool
    ensures { IsTrue result
        → (s : SiteState) × (site ≡ Some s) × (all.new.items ≡ all.old.items ++ s ∷ []) }
{
    match site {
        Some(site) => all.push(site).is_ok(),
        None => false,
    }
}

// Each under a lock of its own, in their order.
fn locked(alloc: Global, sites: Vec<Site>) -> Result<Vec<Mutex<Site>>, AllocError>
    ensures { IfOk result (λ locks. vec_len locks ≡ vec_len sites) }
{
    let mut locks = Vec::new(alloc);
    for site in sites {
        locks.push(Mutex::new(site))?;
    }
    Ok(locks)
}

// Whether the name is among these.
fn contains(names: &[Item], name: Item) -> bool
    requires { NamesRise names.now }
    ensures { IsTrue result ↔ Contains names.now name }
{
    names.binary_search(&name).is_ok()
}

// The names of each site's items, which rise.
#[tactic(auto, using(crate::proofs::Items::all_rise))]
fn rising_names(alloc: Global, sites: &[Listed<Holding>]) -> Result<Vec<Listed<Item>>, AllocError>
    requires { All AreItems sites.now }
    ensures names { IfOk result (λ all. all.items ≡ map names sites.now) }
    ensures rise { IfOk result (λ all. All NamesRise all.items) }
{
    names_of_all(alloc, sites)
}

// The names of each site's items.
fn names_of_all(alloc: Global, sites: &[Listed<Holding>]) -> Result<Vec<Listed<Item>>, AllocError>
    ensures { IfOk result (λ all. all.items ≡ map names sites.now) }
{
    let mut all = Vec::new(alloc);
    for items in sites {
        all.push(names_of(alloc, items.as_slice())?)?;
    }
    Ok(all)
}

fn names_of(alloc: Global, items: &[Holding]) -> Result<Listed<Item>, AllocError>
    ensures { IfOk result (λ all. all ≡ names items.now) }
{
    let mut all = Vec::new(alloc);
    for held in items {
        all.push(held.item)?;
    }
    Ok(Listed::new(all))
}
