//! A certificate with the logs of its sites.

use crate::certificate::Certificate;
use crate::fits::parts_fit;
use crate::text::{given_text, text};
use sgt_names::{Entry, Holding, Listed};
use std::alloc::{AllocError, Global};
use std::marker::Model;

/// The log of a site: its items with their initial values, its entries, its items with their final values.
#[derive(Drop)]
pub struct SiteLog {
    pub items: Listed<Holding>,
    pub entries: Listed<Entry>,
    pub finals: Listed<Holding>,
}

/// A certificate and the logs of its sites: as many as it says, each with its items by rising name and its final values
/// in the order of the items.
#[derive(Drop)]
pub struct Bundle {
    certificate: Certificate,
    sites: Vec<SiteLog>,
}

impl Model for Bundle {
    ghost use Rattle.sgt_bundle.specs.Parts.{FitTogether, Parts};

    ghost Value = { Parts };

    ghost view = { λ b. record { certificate = b.certificate; sites = b.sites.items } };

    ghost invariant = { λ b. FitTogether (record { certificate = b.certificate; sites = b.sites.items }) };
}

impl Bundle {
    ghost use Rattle.std.specs.Prelude.{◌≡◌, IfOk, SomeIff};
    ghost use Rattle.sgt_bundle.specs.Parts.{FitTogether};
    ghost use Rattle.sgt_bundle.specs.Text.{Spells, text_of};

    /// The bundle of these parts. `None` where there are not as many logs as the certificate says, or more than
    /// `MAX_SITES` or none; where a step of a walk is at no such site; where a log's items are more than `MAX_ITEMS` or
    /// don't rise; or where its finals aren't those of its items. The parts are then dropped.
    pub fn new(certificate: Certificate, sites: Vec<SiteLog>) -> Option<Bundle>
        ensures { SomeIff result
            (FitTogether (record { certificate = certificate; sites = sites.items }))
            (record { certificate = certificate; sites = sites.items }) }
    {
        if parts_fit(&certificate, sites.as_slice()) {
            Some(Bundle { certificate, sites })
        } else {
            None
        }
    }

    /// What was decided.
    pub fn certificate(&self) -> &Certificate
        ensures { result.now ≡ self.now.certificate }
    {
        &self.certificate
    }

    /// The logs of the sites, from site 0 on.
    pub fn sites(&self) -> &[SiteLog]
        ensures logs { result.now ≡ self.now.sites }
        ensures fit { FitTogether self.now }
    {
        self.sites.as_slice()
    }

    /// The text of the bundle: line 1 is `sgt 2` exactly where an entry is an increment or asks for one, and else
    /// `sgt 1`. Err: memory ran out.
    pub fn to_text(&self, alloc: Global) -> Result<Vec<u8>, AllocError>
        ensures text { IfOk result (λ bytes. bytes.items ≡ text_of self.now) }
        ensures spells { IfOk result (λ bytes. Spells bytes.items self.now) }
    {
        text(alloc, &self.certificate, self.sites.as_slice())
    }

    /// The text, as `to_text` has it, of a bundle that is given up: each log is let go once it is written. Err:
    /// memory ran out.
    pub fn into_text(self, alloc: Global) -> Result<Vec<u8>, AllocError>
        ensures text { IfOk result (λ bytes. bytes.items ≡ text_of self) }
        ensures spells { IfOk result (λ bytes. Spells bytes.items self) }
    {
        let Bundle { certificate, sites } = self;
        given_text(alloc, certificate, sites)
    }

    /// The certificate and the logs.
    pub fn into_parts(self) -> (Certificate, Vec<SiteLog>)
        ensures certificate { result.0 ≡ self.certificate }
        ensures sites { result.1.items ≡ self.sites }
    {
        let Bundle { certificate, sites } = self;
        (certificate, sites)
    }
}
