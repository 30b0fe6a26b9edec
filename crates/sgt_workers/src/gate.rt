//! Where a worker stands, and who may hold it there.

use sgt_names::SiteNo;

/// A place that a worker arrives at as it runs a script.
#[derive(Clone, Copy, Debug, PartialEq, Eq)]
pub enum Place {
    /// It has taken a job.
    Taken,
    /// It is about to read at this site, under the site's lock.
    InRead(SiteNo),
    /// It has read at this site, and let go of the site's lock.
    AfterRead(SiteNo),
    /// Its transaction is decided, and it holds the certifier's lock.
    InStep,
    /// It is about to write its block at this site, under the locks of the certifier and the site.
    InInstall(SiteNo),
}

/// Is told where each worker stands, and may hold it there for a while. A read that is answered from the draft arrives
/// nowhere.
pub trait Gate: Drop {
    ghost use Rattle.std.specs.Prelude.{ℕ};
    ghost use Rattle.sgt_workers.specs.declared.gate.Place.{Place};

    /// What is so once the worker of this number, which arrived at this place, is let go on.
    ghost lets_go: { Self → ℕ → Place → Type 0 };

    /// The worker of this number stands at this place. It goes on once this returns.
    fn arrive(&self, worker: usize, place: Place)
        ensures { lets_go self.now worker place };
}

/// Holds nobody.
#[derive(Clone, Copy, Debug)]
pub struct NoGate;

impl Gate for NoGate {
    ghost lets_go = { λ gate worker place. Unit {0} };

    fn arrive(&self, _worker: usize, _place: Place) {}
}

/// The gate itself is told.
impl<G: Gate> Gate for &G {
    ghost lets_go = { λ gate worker place. G.lets_go gate.now worker place };

    fn arrive(&self, worker: usize, place: Place) {
        (**self).arrive(worker, place);
    }
}
