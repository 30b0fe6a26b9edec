//! The core: a machine of one thread that serves events.

ghost use Rattle.std.specs.Prelude.{◌≡◌, ◌≢◌, ◌≤◌, [], length, IfOk, IfErr, OnOk, OnErr, option_map};
ghost use Rattle.sgt_names.specs.Limits.{max_sites};
ghost use Rattle.sgt_bundle.specs.Text.{text_of};
ghost use Rattle.sgt_bundle.specs.Valid.{IsValid};
ghost use Rattle.sgt_core_model.specs.Core.{CoreState, OpenStep, fresh, bundle_of};
ghost use Rattle.sgt_core_machine.specs.Cut.{last_values};
ghost use Rattle.sgt_core_model.specs.Step.{MayStep, MayDecide, Run};
ghost use Rattle.sgt_core_model.specs.Runs.{AreSites};
ghost use Rattle.sgt_core_machine.specs.Machine.{StandsFor, Stands, GoesOn, RefusesSites, RefusesBundle};

use crate::machine::Machine;
use sgt_bundle::Bundle;
use sgt_core_model::{CoreFault, Reply};
use sgt_names::{Holding, Listed, Tx};
use sgt_notation::Event;
use sgt_site::SiteFault;
use std::alloc::{AllocError, Global};
use std::marker::Model;

/// Runs transactions over sites, event after event. What it does is what some run of the model does (`StandsFor`):
/// the model may have edges that the certifier wasn't handed, since neighbours carry them.
#[derive(Drop)]
pub struct Core {
    machine: Machine,
}

impl Model for Core {
    ghost use Rattle.sgt_core_machine.specs.Machine.{Parts, parts_of, Stands};

    ghost Value = { Parts };

    ghost view = { λ c. parts_of c.machine };

    ghost invariant = { λ c. Stands (parts_of c.machine) };
}

/// What a cut gives: the text of the bundle of all that was logged, and a core over the last values.
#[derive(Drop)]
pub struct Cut {
    pub text: Vec<u8>,
    pub next: Core,
}

impl Core {
    /// A core over sites with these items, from site 0 on, to which nothing has happened.
    ///
    /// - S6: the names of a site's items don't rise, or there are more than 1,024.
    /// - S4: there was no memory.
    pub fn new(alloc: Global, sites: &[Listed<Holding>]) -> Result<Core, SiteFault>
        requires some { 1 ≤ length sites.now }
        requires few { length sites.now ≤ max_sites }
        ensures ok { IfOk result (λ core. StandsFor core (fresh sites.now)) }
        ensures allowed { OnOk result (AreSites sites.now) }
        ensures refused { IfErr result (RefusesSites sites.now) }
    {
        let machine = Machine::new(alloc, sites)?;
        Ok(Core { machine })
    }

    /// Serves an event, or refuses it: E1 to E12, the least number first, and E9 last. What is refused leaves the
    /// core as it was; after E9 of a gather, a decision or a commit the step is closed as if it had never been
    /// opened.
    pub fn step(&mut self, event: Event) -> Reply
        ensures { GoesOn (λ c d. MayStep c event result d) self.old self.new }
    {
        match event {
            Event::Begin => self.machine.begin(),
            Event::Read { tx, site, item } => self.machine.read(tx, site, item),
            Event::Put {
                tx,
                site,
                item,
                value,
            } => self.machine.put(tx, site, item, value),
            Event::Add {
                tx,
                site,
                item,
                value,
            } => self.machine.add(tx, site, item, value),
            Event::Gather { tx, site } => self.machine.gather(tx, site),
            Event::Decide { tx } => self.machine.decide(tx),
            Event::Install { tx, site } => self.machine.install(tx, site),
            Event::Commit { tx } => self.machine.commit(tx),
            Event::Withdraw { tx } => self.machine.withdraw(tx),
            Event::Close => self.machine.close(),
        }
    }

    /// Gathers a transaction at each site that it touches, and decides it. It is refused as its commit is.
    pub fn to_decide(&mut self, tx: Tx) -> Reply
        ensures { GoesOn (λ c d. MayDecide c tx result d) self.old self.new }
    {
        self.machine.to_decide(tx)
    }

    /// Serves the events, one after another. It errs where there is no memory for the replies, and then nothing was
    /// served.
    pub fn run(&mut self, alloc: Global, events: &[Event]) -> Result<Vec<Reply>, AllocError>
        ensures run { IfOk result
            (λ replies. GoesOn (λ c d. Run c events.now replies.items d) self.old self.new) }
        ensures err { OnErr result (self.new ≡ self.old) }
    {
        let mut replies = Vec::new(alloc);
        replies.reserve(events.len())?;
        for event in events {
            replies.push_reserved(self.step(*event));
        }
        Ok(replies)
    }

    /// How many transactions are active. Constant time.
    pub fn active(&self) -> u64
        ensures active { (c : CoreState) → StandsFor self.now c
            → result ≡ length c.certifier.active }
        ensures stands { Stands self.now }
    {
        self.machine.certifier.active()
    }

    /// The logs with the certificate. It errs with E8 where a transaction is active, and else with E9 where there is
    /// no memory. Linear in the decisions and the logs.
    pub fn bundle(&self, alloc: Global) -> Result<Bundle, CoreFault>
        ensures ok { IfOk result (λ b. (c : CoreState) → StandsFor self.now c → b ≡ bundle_of c) }
        ensures valid { IfOk result IsValid }
        ensures idle { OnOk result
            ((c : CoreState) → StandsFor self.now c → c.certifier.active ≡ []) }
        ensures refused { IfErr result
            (λ f. (c : CoreState) → StandsFor self.now c → RefusesBundle c f) }
    {
        let certifier = &self.machine.certifier;
        if certifier.active() > 0 {
            return Err(CoreFault::ActiveLeft);
        }
        self.machine.bundle(alloc)
    }

    /// The text of the bundle of a core that is given up, also where it errs. Of each site its items, its log and its
    /// last values are kept and no more, and they are let go once they are written; the decisions go once line 2 is
    /// written. It errs as `bundle` does.
    pub fn into_text(self, alloc: Global) -> Result<Vec<u8>, CoreFault>
        ensures text { IfOk result
            (λ text. (c : CoreState) → StandsFor self c → text.items ≡ text_of (bundle_of c)) }
        ensures valid { OnOk result ((c : CoreState) → StandsFor self c → IsValid (bundle_of c)) }
        ensures idle { OnOk result ((c : CoreState) → StandsFor self c → c.certifier.active ≡ []) }
        ensures refused { IfErr result
            (λ f. (c : CoreState) → StandsFor self c → RefusesBundle c f) }
    {
        let Core { machine } = self;
        if machine.certifier.active() > 0 {
            return Err(CoreFault::ActiveLeft);
        }
        machine.into_text(alloc)
    }

    /// What a cut gives here: the text of the bundle, and a core over the last values, to which nothing has happened.
    /// It errs as `bundle` does. The core itself stays as it is, so a cut is made by putting the new one in its
    /// place. The logs are not copied. Linear in the decisions and the logs.
    pub fn cut(&self, alloc: Global) -> Result<Cut, CoreFault>
        ensures text { IfOk result
            (λ cut. (c : CoreState) → StandsFor self.now c
            → cut.text.items ≡ text_of (bundle_of c)) }
        ensures next { IfOk result
            (λ cut. (c : CoreState) → StandsFor self.now c
            → StandsFor cut.next (fresh (last_values c))) }
        ensures idle { OnOk result
            ((c : CoreState) → StandsFor self.now c → c.certifier.active ≡ []) }
        ensures refused { IfErr result
            (λ f. (c : CoreState) → StandsFor self.now c → RefusesBundle c f) }
    {
        if self.machine.certifier.active() > 0 {
            return Err(CoreFault::ActiveLeft);
        }
        let Ok(written) = self.machine.written(alloc) else {
            return Err(CoreFault::Memory);
        };
        match Machine::new(alloc, written.finals.as_slice()) {
            Ok(machine) => Ok(Cut {
                text: written.text,
                next: Core { machine },
            }),
            Err(fault) => match fault {
                SiteFault::Memory => Err(CoreFault::Memory),
                _ => unreachable!(),
            },
        }
    }

    /// How many transactions were begun.
    pub fn begun(&self) -> u32
        ensures { (c : CoreState) → StandsFor self.now c → result ≡ c.certifier.begun }
    {
        self.machine.begun
    }

    /// How many sites there are.
    pub fn sites(&self) -> usize
        ensures sites { (c : CoreState) → StandsFor self.now c → result ≡ length c.items }
        ensures few { result ≤ max_sites }
    {
        self.machine.places.len()
    }

    /// The transaction whose step is open.
    pub fn open_step(&self) -> Option<Tx>
        ensures { (c : CoreState) → StandsFor self.now c
            → result ≡ option_map (λ (step : OpenStep). step.tx) c.step }
    {
        self.machine.step.as_ref().map(|open| open.tx)
    }
}
