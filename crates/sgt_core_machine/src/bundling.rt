//! The logs of the sites with the certificate.

ghost use Rattle.std.specs.Prelude.{◌≡◌, IfOk, IfErr, map, vec_len, vec_capacity};
ghost use Rattle.sgt_core_model.specs.declared.reply.CoreFault.TheVariants.{Memory as NoMemory};
ghost use Rattle.sgt_core_model.specs.Core.{CoreState, site_log, bundle_of};
ghost use Rattle.sgt_core_machine.specs.Machine.{parts_of, StandsFor, Stands};

use crate::machine::{Machine, Place};
use sgt_bundle::{Bundle, SiteLog};
use sgt_core_model::CoreFault;
use sgt_names::Listed;
use sgt_site::{Site, SiteFault};
use std::alloc::Global;

impl Machine {
    /// The logs with the certificate. It errs where there is no memory.
    pub(crate) fn bundle(&self, alloc: Global) -> Result<Bundle, CoreFault>
        requires { Stands (parts_of self.now) }
        ensures ok { IfOk result
            (λ b. (c : CoreState) → StandsFor (parts_of self.now) c → b ≡ bundle_of c) }
        ensures refused { IfErr result (λ f. f ≡ NoMemory) }
    {
        let count = self.places.len() as u8;
        let Ok(certificate) = self.certifier.certificate(alloc, count) else {
            return Err(CoreFault::Memory);
        };
        let Ok(logs) = logs_of(alloc, self.places.as_slice()) else {
            return Err(CoreFault::Memory);
        };
        match Bundle::new(certificate, logs) {
            Some(bundle) => Ok(bundle),
            None => unreachable!(),
        }
    }
}

// The log of a site with its items, before and after it.
fn log_of(alloc: Global, site: &Site) -> Result<SiteLog, SiteFault>
    ensures { IfOk result (λ log. log ≡ site_log site.now.items site.now.entries) }
{
    let Ok(items) = Vec::from_slice(alloc, site.items()) else {
        return Err(SiteFault::Memory);
    };
    let Ok(entries) = site.log().to_vec(alloc) else {
        return Err(SiteFault::Memory);
    };
    match site.final_values(alloc) {
        Ok(finals) => Ok(SiteLog {
            items: Listed::new(items),
            entries: Listed::new(entries),
            finals: Listed::new(finals),
        }),
        Err(fault) => Err(fault),
    }
}

// The logs of the sites, by number.
fn logs_of(alloc: Global, places: &[Place]) -> Result<Vec<SiteLog>, SiteFault>
    ensures { IfOk result
        (λ logs. logs.items ≡ map (λ p. site_log p.site.items p.site.entries) places.now) }
{
    let mut logs = Vec::new(alloc);
    if logs.reserve(places.len()).is_err() {
        return Err(SiteFault::Memory);
    }
    for place in places {
        match log_of(alloc, &place.site) {
            Ok(log) => logs.push_reserved(log),
            Err(fault) => return Err(fault),
        }
    }
    Ok(logs)
}
