//! A certificate with logs whose entries are held small.

ghost use Rattle.std.specs.Prelude.{◌≡◌, IfOk};

use crate::log::CompactLog;
use sgt_bundle::{Bundle, Certificate, SiteLog};
use std::alloc::{AllocError, Global};
use std::marker::Model;

/// A certificate and the logs of its sites, as in a `Bundle`. Contracts see them.
#[derive(Drop)]
pub struct CompactBundle {
    certificate: Certificate,
    logs: Vec<CompactLog>,
}

impl Model for CompactBundle {
    ghost use Rattle.sgt_bundle.specs.Parts.{FitTogether, Parts};

    ghost Value = { Parts };

    ghost view = { λ b. record { certificate = b.certificate; sites = b.logs.items } };

    ghost invariant = { λ b. FitTogether (record { certificate = b.certificate; sites = b.logs.items }) };
}

impl CompactBundle {
    ghost use Rattle.std.specs.Prelude.{◌≡◌, IfOk};
    ghost use Rattle.sgt_bundle.specs.Parts.{FitTogether};

    /// The bundle of these parts.
    pub fn new(certificate: Certificate, logs: Vec<CompactLog>) -> CompactBundle
        requires { FitTogether (record { certificate = certificate; sites = logs.items }) }
        ensures { result ≡ record { certificate = certificate; sites = logs.items } }
    {
        CompactBundle { certificate, logs }
    }

    /// What was decided.
    pub fn certificate(&self) -> &Certificate
        ensures { result.now ≡ self.now.certificate }
    {
        &self.certificate
    }

    /// The logs of the sites, from site 0 on.
    pub fn logs(&self) -> &[CompactLog]
        ensures logs { result.now ≡ self.now.sites }
        ensures fit { FitTogether self.now }
    {
        self.logs.as_slice()
    }

    /// The certificate and the logs.
    pub fn into_parts(self) -> (Certificate, Vec<CompactLog>)
        ensures certificate { result.0 ≡ self.certificate }
        ensures logs { result.1.items ≡ self.sites }
    {
        let CompactBundle { certificate, logs } = self;
        (certificate, logs)
    }

    /// The bundle, with entries of 32 bytes each. Err: memory ran out.
    pub fn into_bundle(self, alloc: Global) -> Result<Bundle, AllocError>
        ensures { IfOk result (λ bundle. bundle ≡ self) }
    {
        let CompactBundle { certificate, logs } = self;
        match Bundle::new(certificate, site_logs(alloc, logs)?) {
            Some(bundle) => Ok(bundle),
            None => unreachable!(),
        }
    }
}

/// The logs, with entries of 32 bytes each. Err: memory ran out.
pub fn site_logs(alloc: Global, logs: Vec<CompactLog>) -> Result<Vec<SiteLog>, AllocError>
    ensures { IfOk result (λ r. r.items ≡ logs.items) }
{
    let mut whole = Vec::new(alloc);
    for log in logs {
        whole.push(log.into_log(alloc)?)?;
    }
    Ok(whole)
}
