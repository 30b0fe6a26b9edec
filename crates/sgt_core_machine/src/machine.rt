//! The parts of the core: its sites, its certifier, the drafts of its active transactions, and the open step.

ghost use Rattle.std.specs.Prelude.{◌≡◌, ◌↔◌, ◌++◌, ◌∷◌, [], ℕ, ◌<◌, ◌≤◌, true, None, Some, length, slice_get, All, IsTrue, IfOk, IfErr, OnOk, OnErr};
ghost use Rattle.sgt_names.specs.Draft.{added_to, seen_at, Touches};
ghost use Rattle.sgt_names.specs.Name.{Name};
ghost use Rattle.sgt_names.specs.declared.entry.Change.TheVariants as change;
ghost use Rattle.sgt_notation.specs.declared.event.Event.{Event as AnEvent};
ghost use Rattle.sgt_notation.specs.declared.event.Event.TheVariants as event;
ghost use Rattle.sgt_names.specs.Limits.{max_sites};
ghost use Rattle.sgt_site.specs.State.{AreItems, opened};
ghost use Rattle.sgt_site.specs.Refused.{IsHere, MayRead};
ghost use Rattle.sgt_site.specs.declared.fault.SiteFault.TheVariants.{BadItems};
ghost use Rattle.sgt_core_machine.specs.declared.machine.Part.TheVariants.{Idle};
ghost use Rattle.sgt_core_machine.specs.declared.machine.Place.{Place as APlace};
ghost use Rattle.sgt_core_model.specs.Core.{CoreState, fresh};
ghost use Rattle.sgt_core_machine.specs.Gathered.{GathersAt, MayPledgeAt, AreReleased};
ghost use Rattle.sgt_core_model.specs.Step.{IsOwnOpen, IsOtherOpen, IsOfSite, tx_in, IsRefused, IsAllowed, MayStep};
ghost use Rattle.sgt_core_machine.specs.Machine.{parts_of, StandsFor, Stands, GoesOn, IsSlotOf, RefusesItem, RefusesSites, AreOpened, Redrafts, ChangesTo, ReadsTo, ReadsAt, HasRoomAt, IsOfClose, close_fault};
ghost use Rattle.sgt_core_machine.specs.private.Looked.{IsItemAt, IsWhy, IsOfRead, read_fault};
ghost use Rattle.sgt_core_machine.specs.declared.machine.Running.{Running as ARunning};

use crate::gathering::{add_edges, gather_there, give_back_at, is_gathered, make_due, release_all};
use crate::looking::{Found, find_at};
use sgt_arena::{Handle, MAX_PLACES};
use sgt_certifier::{CertifierFault, Judge};
use sgt_core_model::{CoreFault, Reply};
use sgt_edges::EdgeList;
use sgt_names::{Draft, Holding, Item, Listed, Seen, SiteNo, Tx, Value};
use sgt_site::{Site, SiteFault};
use std::alloc::{AllocError, Global};

/// The part of the open step at a site.
#[derive(Clone, Copy)]
pub enum Part {
    /// There is none.
    Idle,
    /// It is gathered there, and its block is still to be written.
    Due,
    /// Its block is written.
    Written,
}

/// A site, with the part of the open step there.
#[derive(Drop)]
pub struct Place {
    pub site: Site,
    pub part: Part,
}

/// An active transaction: the handle that the certifier gave it, and what it has read and is to change.
#[derive(Drop)]
pub struct Running {
    pub handle: Handle,
    pub draft: Draft,
}

/// How far a step has come.
#[derive(Drop)]
pub enum Phase {
    /// It is being gathered, with these edges so far.
    Gathering(EdgeList),
    /// Its transaction is committed.
    Committed,
    /// Its transaction is refused.
    Refused,
}

/// The open step.
#[derive(Drop)]
pub struct Open {
    pub tx: Tx,
    pub phase: Phase,
}

/// What a core consists of.
#[derive(Drop)]
pub struct Machine {
    pub alloc: Global,
    /// The sites, by number.
    pub places: Vec<Place>,
    pub certifier: Judge,
    /// How many transactions were begun, and how many of them before this window.
    pub begun: u32,
    pub before: u32,
    /// The transactions of this window, by number. `None` for those that have ended.
    pub running: Vec<Option<Running>>,
    pub step: Option<Open>,
    /// Lists whose room is used again: for the edges at a site, for those of a step, and for the sites of a commit.
    pub more: EdgeList,
    pub spare: EdgeList,
    pub sites: Vec<SiteNo>,
    /// Drafts of transactions that were decided and have ended, whose room is used again: `DRAFTS` at most.
    pub drafts: Vec<Draft>,
}

impl Machine {
    /// A machine over sites with these items, to which nothing has happened.
    pub(crate) fn new(alloc: Global, sites: &[Listed<Holding>]) -> Result<Machine, SiteFault>
        requires some { 1 ≤ length sites.now }
        requires few { length sites.now ≤ max_sites }
        ensures ok { IfOk result (λ m. StandsFor (parts_of m) (fresh sites.now)) }
        ensures allowed { OnOk result (All AreItems sites.now) }
        ensures refused { IfErr result (RefusesSites sites.now) }
    {
        let places = opened_places(alloc, sites)?;
        Ok(Machine {
            alloc,
            places,
            certifier: Judge::new(alloc),
            begun: 0,
            before: 0,
            running: Vec::new(alloc),
            step: None,
            more: EdgeList::new(alloc),
            spare: EdgeList::new(alloc),
            sites: Vec::new(alloc),
            drafts: Vec::new(alloc),
        })
    }

    /// The place of an active transaction in the window's table.
    pub(crate) fn slot_of(&self, tx: Tx) -> Result<usize, CoreFault>
        requires { Stands (parts_of self.now) }
        ensures ok { IfOk result (λ slot. IsSlotOf (parts_of self.now) tx slot) }
        ensures err { IfErr result (λ f. (c : CoreState) → StandsFor (parts_of self.now) c
            → (e : AnEvent) → tx_in e ≡ Some tx → IsRefused c e f) }
    {
        let number = tx.number();
        if number > self.begun {
            return Err(CoreFault::Unknown);
        }
        if number <= self.before {
            return Err(CoreFault::Ended);
        }
        let slot = (number - self.before - 1) as usize;
        match &self.running[slot] {
            Some(_) => Ok(slot),
            None => Err(CoreFault::Ended),
        }
    }

    // Whether the open step is that of the transaction.
    fn owns_step(&self, tx: Tx) -> bool
        ensures { (c : CoreState) → StandsFor (parts_of self.now) c
            → IsTrue result ↔ IsOwnOpen c tx }
    {
        match &self.step {
            Some(open) => open.tx == tx,
            None => false,
        }
    }

    // Whether the open step is that of another transaction.
    pub(crate) fn other_step(&self, tx: Tx) -> bool
        ensures { (c : CoreState) → StandsFor (parts_of self.now) c
            → IsTrue result ↔ IsOtherOpen c tx }
    {
        match &self.step {
            Some(open) => open.tx != tx,
            None => false,
        }
    }

    // Whether the item is at the site.
    fn has_item(&self, site: SiteNo, item: Item) -> bool
        ensures { (c : CoreState) → StandsFor (parts_of self.now) c
            → IsTrue result ↔ IsOfSite c site item }
    {
        let at = site.number() as usize;
        if at >= self.places.len() {
            return false;
        }
        let place = &self.places[at];
        place.site.writers(item).is_ok()
    }

    // The place of a transaction whose step isn't open.
    fn unopened_slot(&self, tx: Tx) -> Result<usize, CoreFault>
        requires { Stands (parts_of self.now) }
        ensures ok { IfOk result (λ slot. IsSlotOf (parts_of self.now) tx slot) }
        ensures closed { OnOk result
            ((c : CoreState) → StandsFor (parts_of self.now) c → IsOwnOpen c tx → ⊥) }
        ensures err { IfErr result
            (λ f. (c : CoreState) → StandsFor (parts_of self.now) c
            → (site : ℕ) (x : Name) → RefusesItem c tx site x f) }
    {
        let slot = match self.slot_of(tx) {
            Ok(slot) => slot,
            Err(fault) => return Err(fault),
        };
        if self.owns_step(tx) {
            return Err(CoreFault::StepOpen);
        }
        Ok(slot)
    }

    // The place of a transaction that may change the item now.
    #[inline(always)]
    fn free_slot(&self, tx: Tx, site: SiteNo, item: Item) -> Result<usize, CoreFault>
        requires { Stands (parts_of self.now) }
        ensures ok { IfOk result (λ slot. IsSlotOf (parts_of self.now) tx slot) }
        ensures closed { OnOk result
            ((c : CoreState) → StandsFor (parts_of self.now) c → IsOwnOpen c tx → ⊥) }
        ensures known { OnOk result
            ((c : CoreState) → StandsFor (parts_of self.now) c → IsOfSite c site item) }
        ensures err { IfErr result
            (λ f. (c : CoreState) → StandsFor (parts_of self.now) c
            → RefusesItem c tx site item f) }
    {
        let slot = match self.unopened_slot(tx) {
            Ok(slot) => slot,
            Err(fault) => return Err(fault),
        };
        if !self.has_item(site, item) {
            return Err(CoreFault::UnknownItem);
        }
        Ok(slot)
    }

    // Why the item isn't read, where there was no memory.
    #[inline(never)]
    fn unread(&self, site: SiteNo, item: Item) -> CoreFault
        ensures { (c : CoreState) → StandsFor (parts_of self.now) c
            → IsWhy (IsOfSite c site item) result }
    {
        if self.has_item(site, item) {
            CoreFault::Memory
        } else {
            CoreFault::UnknownItem
        }
    }

    /// The transaction is to write the value.
    pub(crate) fn put(&mut self, tx: Tx, site: SiteNo, item: Item, value: Value) -> Reply
        requires { Stands (parts_of self.old) }
        ensures { GoesOn (λ c d. MayStep c (event.Put tx site item value) result d)
            (parts_of self.old) (parts_of self.new) }
    {
        let slot = match self.free_slot(tx, site, item) {
            Ok(slot) => slot,
            Err(fault) => return refused(fault),
        };
        match put_at(&mut self.running, slot, site, item, value) {
            Ok(()) => Reply::Kept,
            Err(_) => refused(CoreFault::Memory),
        }
    }

    /// The transaction is to add the value.
    pub(crate) fn add(&mut self, tx: Tx, site: SiteNo, item: Item, value: Value) -> Reply
        requires { Stands (parts_of self.old) }
        ensures { GoesOn (λ c d. MayStep c (event.Add tx site item value) result d)
            (parts_of self.old) (parts_of self.new) }
    {
        let slot = match self.free_slot(tx, site, item) {
            Ok(slot) => slot,
            Err(fault) => return refused(fault),
        };
        match add_at(&mut self.running, slot, site, item, value) {
            Ok(()) => Reply::Kept,
            Err(_) => refused(CoreFault::Memory),
        }
    }

    /// The next transaction begins.
    pub(crate) fn begin(&mut self) -> Reply
        requires { Stands (parts_of self.old) }
        ensures { GoesOn (λ c d. MayStep c event.Begin result d) (parts_of self.old)
            (parts_of self.new) }
    {
        if self.step.is_some() {
            return refused(CoreFault::StepOpen);
        }
        if self.running.len() >= MAX_PLACES {
            return refused(CoreFault::WindowFull);
        }
        if self.begun == u32::MAX {
            return refused(CoreFault::NumbersSpent);
        }
        if self.running.reserve(1).is_err() {
            return refused(CoreFault::Memory);
        }
        let begun = match self.certifier.begin() {
            Ok(begun) => begun,
            Err(fault) => match fault {
                CertifierFault::Memory => return refused(CoreFault::Memory),
                _ => unreachable!(),
            },
        };
        let draft = empty_draft(self.alloc, &mut self.drafts);
        let handle = begun.1;
        self.running.push_reserved(Some(Running { handle, draft }));
        self.begun += 1;
        Reply::Begun { tx: begun.0 }
    }

    /// The transaction is gathered at the site: its pledge there, and its edges.
    pub(crate) fn gather(&mut self, tx: Tx, site: SiteNo) -> Reply
        requires { Stands (parts_of self.old) }
        ensures { GoesOn (λ c d. MayStep c (event.Gather tx site) result d) (parts_of self.old)
            (parts_of self.new) }
    {
        let slot = match self.slot_of(tx) {
            Ok(slot) => slot,
            Err(fault) => return refused(fault),
        };
        if self.other_step(tx) {
            return refused(CoreFault::StepOpen);
        }
        let at = site.number() as usize;
        if at >= self.places.len() {
            return refused(CoreFault::UnknownItem);
        }
        if is_gathered(self.places.as_slice(), at) {
            return refused(CoreFault::AlreadyDone);
        }
        if !touches(self.running.as_slice(), slot, site) {
            return refused(CoreFault::NotTouched);
        }
        self.gather_allowed(tx, slot, site)
    }

    // Gathers a transaction at a site where it may be gathered.
    #[inline(always)]
    pub(crate) fn gather_allowed(&mut self, tx: Tx, slot: usize, site: SiteNo) -> Reply
        requires stands { Stands (parts_of self.old) }
        requires slot { IsSlotOf (parts_of self.old) tx slot }
        requires allowed { (c : CoreState) → StandsFor (parts_of self.old) c
            → IsAllowed c (event.Gather tx site) }
        ensures goes { GoesOn (λ c d. MayStep c (event.Gather tx site) result d)
            (parts_of self.old) (parts_of self.new) }
        ensures slot { IsSlotOf (parts_of self.new) tx slot }
    {
        match self.gather_at(tx, slot, site.number() as usize) {
            Ok(()) => Reply::Gathered,
            Err(_) => {
                self.give_up(tx);
                refused(CoreFault::Memory)
            }
        }
    }

    // Gathers a transaction at a site that it touches and where it isn't gathered. It errs for want of memory alone.
    fn gather_at(&mut self, tx: Tx, slot: usize, at: usize) -> Result<(), AllocError>
        requires site { at < length self.old.places.items }
        requires slot { (r : ARunning) × (slice_get self.old.running.items slot ≡ Some (Some r)) }
        requires may { MayPledgeAt self.old.places.items self.old.running.items at slot tx }
        ensures ok { OnOk result (GathersAt (parts_of self.old) (parts_of self.new) tx slot at) }
        ensures err { OnErr result
            (parts_of self.new ≡ record (parts_of self.old) { step = self.new.step }) }
    {
        match gather_there(
            &mut self.places,
            at,
            &self.running[slot],
            tx,
            &mut self.more,
        ) {
            Ok(()) => {}
            Err(SiteFault::Memory) => return Err(AllocError),
            Err(_) => unreachable!(),
        }
        match add_edges(
            self.alloc,
            &mut self.step,
            tx,
            &mut self.more,
            &mut self.spare,
        ) {
            Ok(()) => {
                make_due(&mut self.places, at);
                Ok(())
            }
            Err(refused) => {
                give_back_at(&mut self.places, at, tx);
                Err(refused)
            }
        }
    }

    // Closes the transaction's step as if it had never been opened.
    pub(crate) fn give_up(&mut self, tx: Tx)
        ensures places { AreReleased tx self.old.places.items self.new.places.items }
        ensures rest { parts_of self.new
            ≡ record (parts_of self.old) { places = self.new.places.items; step = None } }
    {
        release_all(&mut self.places, tx);
        self.step = None;
    }

    /// The transaction reads the item.
    pub(crate) fn read(&mut self, tx: Tx, site: SiteNo, item: Item) -> Reply
        requires { Stands (parts_of self.old) }
        ensures { GoesOn (λ c d. MayStep c (event.Read tx site item) result d) (parts_of self.old)
            (parts_of self.new) }
    {
        let slot = match self.unopened_slot(tx) {
            Ok(slot) => slot,
            Err(fault) => return refused(fault),
        };
        let found = find_at(self.running.as_slice(), slot, site, item);
        if let Found::Value(value) = found {
            return Reply::Value { value };
        }
        if room_at(&mut self.running, slot).is_err() {
            return refused(self.unread(site, item));
        }
        let seen = match read_at(&mut self.places, tx, site, item) {
            Ok(seen) => seen,
            Err(fault) => return refused(fault),
        };
        keep_at(&mut self.running, slot, site, item, seen);
        if let Found::Nothing = found {
            return Reply::Value { value: seen.value };
        }
        match find_at(self.running.as_slice(), slot, site, item) {
            Found::Value(value) => Reply::Value { value },
            _ => unreachable!(),
        }
    }

    /// The window is closed.
    pub(crate) fn close(&mut self) -> Reply
        requires { Stands (parts_of self.old) }
        ensures { GoesOn (λ c d. MayStep c event.Close result d) (parts_of self.old)
            (parts_of self.new) }
    {
        if self.step.is_some() {
            return refused(CoreFault::StepOpen);
        }
        match self.certifier.close() {
            Ok(ranks) => {
                self.running.clear();
                self.before = self.begun;
                Reply::Closed { ranks }
            }
            Err(fault) => refused(fault_of_close(fault)),
        }
    }
}

/// How many drafts of transactions that have ended are kept at most.
pub(crate) const DRAFTS: usize = 16;

// A draft without reads and changes, in the room of an older one if there is one. Where there is none, room is made
// to keep drafts later, when no memory may be taken; none are kept if it is refused.
fn empty_draft(alloc: Global, drafts: &mut Vec<Draft>) -> Draft
    ensures { result.touched ≡ [] }
{
    match drafts.pop() {
        Some(mut draft) => {
            draft.clear();
            draft
        }
        None => {
            let _room = drafts.reserve(DRAFTS);
            Draft::new(alloc)
        }
    }
}

pub(crate) fn refused(fault: CoreFault) -> Reply
    ensures { result ≡ Reply.Fault fault }
{
    Reply::Fault { fault }
}

// How the core tells that the certifier doesn't close the window, while no step is open.
fn fault_of_close(fault: CertifierFault) -> CoreFault
    requires { IsOfClose fault }
    ensures { result ≡ close_fault fault }
{
    match fault {
        CertifierFault::ActiveLeft(_) => CoreFault::ActiveLeft,
        CertifierFault::GenerationsSpent => CoreFault::GenerationsSpent,
        CertifierFault::Memory => CoreFault::Memory,
        _ => unreachable!(),
    }
}

// Keeps a private write in a draft of the table.
fn put_at(
    table: &mut Vec<Option<Running>>,
    slot: usize,
    site: SiteNo,
    item: Item,
    value: Value,
) -> Result<(), AllocError>
    requires { (r : ARunning) × (slice_get table.old.items slot ≡ Some (Some r)) }
    ensures ok { OnOk result
        (Redrafts table.old.items table.new.items slot
        (ChangesTo site item (λ c. change.Put value))) }
    ensures err { OnErr result (table.new.items ≡ table.old.items) }
{
    match &mut table[slot] {
        Some(running) => {
            let kept = running.draft.put(site, item, value);
            let _touched = running.draft.touched();
            kept
        }
        None => unreachable!(),
    }
}

// Keeps a private increment in a draft of the table.
fn add_at(
    table: &mut Vec<Option<Running>>,
    slot: usize,
    site: SiteNo,
    item: Item,
    value: Value,
) -> Result<(), AllocError>
    requires { (r : ARunning) × (slice_get table.old.items slot ≡ Some (Some r)) }
    ensures ok { OnOk result
        (Redrafts table.old.items table.new.items slot
        (ChangesTo site item (λ c. added_to c value))) }
    ensures err { OnErr result (table.new.items ≡ table.old.items) }
{
    match &mut table[slot] {
        Some(running) => {
            let kept = running.draft.add(site, item, value);
            let _touched = running.draft.touched();
            kept
        }
        None => unreachable!(),
    }
}

// Makes room in a draft of the table for one more item.
fn room_at(table: &mut Vec<Option<Running>>, slot: usize) -> Result<(), AllocError>
    requires { (r : ARunning) × (slice_get table.old.items slot ≡ Some (Some r)) }
    ensures ok { OnOk result (HasRoomAt table.old.items table.new.items slot) }
    ensures err { OnErr result (table.new.items ≡ table.old.items) }
{
    match &mut table[slot] {
        Some(running) => running.draft.room(),
        None => unreachable!(),
    }
}

// Reads an item at its site. It errs where the item isn't there, and for want of memory.
fn read_at(places: &mut Vec<Place>, tx: Tx, site: SiteNo, item: Item) -> Result<Seen, CoreFault>
    requires { (p : APlace) → slice_get places.old.items site ≡ Some p → IsHere p.site item
        → MayRead p.site tx item }
    ensures ok { IfOk result (λ seen. ReadsAt places.old.items places.new.items tx site item seen) }
    ensures known { OnOk result (IsItemAt places.old.items site item) }
    ensures err { OnErr result (places.new.items ≡ places.old.items) }
    ensures why { IfErr result (IsWhy (IsItemAt places.old.items site item)) }
{
    let at = site.number() as usize;
    if at >= places.len() {
        return Err(CoreFault::UnknownItem);
    }
    let place = &mut places[at];
    match place.site.read(tx, item) {
        Ok(seen) => Ok(seen),
        Err(fault) => Err(fault_of_read(fault)),
    }
}

// How the core tells that a site doesn't answer a read that it may answer where the item is there.
fn fault_of_read(fault: SiteFault) -> CoreFault
    requires { IsOfRead fault }
    ensures { result ≡ read_fault fault }
{
    match fault {
        SiteFault::UnknownItem => CoreFault::UnknownItem,
        SiteFault::Memory => CoreFault::Memory,
        _ => unreachable!(),
    }
}

// Keeps a read in a draft of the table that has room for it.
fn keep_at(table: &mut Vec<Option<Running>>, slot: usize, site: SiteNo, item: Item, seen: Seen)
    requires { (r : ARunning) × (slice_get table.old.items slot ≡ Some (Some r))
        × (r.draft.has_room ≡ true)
        × (seen_at r.draft.touched (site, item) ≡ None) }
    ensures { Redrafts table.old.items table.new.items slot (ReadsTo site item seen) }
{
    match &mut table[slot] {
        Some(running) => {
            let kept = running.draft.seen(site, item, seen.value, seen.version);
            let _touched = running.draft.touched();
            match kept {
                Ok(()) => {}
                Err(_) => unreachable!(),
            }
        }
        None => unreachable!(),
    }
}

// Whether the transaction at a place of the table touches the site.
pub(crate) fn touches(table: &[Option<Running>], slot: usize, site: SiteNo) -> bool
    requires { slot < length table.now }
    ensures { (r : ARunning) → slice_get table.now slot ≡ Some (Some r)
        → IsTrue result ↔ Touches r.draft.touched site }
{
    match &table[slot] {
        Some(running) => running.draft.touches(site),
        None => false,
    }
}

// A site with these items, to which nothing has happened. None where there was no memory.
fn opened_place(alloc: Global, number: usize, items: &[Holding]) -> Result<Option<Place>, SiteFault>
    requires { number < max_sites }
    ensures ok { IfOk result
        (λ o. (p : APlace) → o ≡ Some p
        → p ≡ record { site = opened number items.now; part = Idle }) }
    ensures allowed { OnOk result (AreItems items.now) }
    ensures refused { IfErr result (λ f. (f ≡ BadItems) × (AreItems items.now → ⊥)) }
{
    let Ok(number) = SiteNo::new(number as u64) else {
        unreachable!();
    };
    match Site::new(alloc, number, items) {
        Ok(site) => Ok(Some(Place {
            site,
            part: Part::Idle,
        })),
        Err(SiteFault::Memory) => Ok(None),
        Err(fault) => Err(fault),
    }
}

// Adds a site, and says whether it is there and there was memory.
fn add_place(places: &mut Vec<Place>, place: Option<Place>) -> bool
    ensures { IsTrue result
        → (p : APlace) × (place ≡ Some p) × (places.new.items ≡ places.old.items ++ p ∷ []) }
{
    match place {
        Some(place) => places.push(place).is_ok(),
        None => false,
    }
}

// Sites with these items, to which nothing has happened.
fn opened_places(alloc: Global, sites: &[Listed<Holding>]) -> Result<Vec<Place>, SiteFault>
    requires { length sites.now ≤ max_sites }
    ensures ok { IfOk result (λ places. AreOpened sites.now places.items) }
    ensures allowed { OnOk result (All AreItems sites.now) }
    ensures refused { IfErr result (RefusesSites sites.now) }
{
    let mut places = Vec::new(alloc);
    let mut has_room = true;
    for i in 0..sites.len() {
        let opened = opened_place(alloc, i, sites[i].as_slice())?;
        has_room = add_place(&mut places, opened) && has_room;
    }
    if !has_room {
        return Err(SiteFault::Memory);
    }
    Ok(places)
}
