//! An auditor of a chain, which is given its bundles one after another.

use crate::counts::Counts;
use crate::faults::ChainFault;
use crate::going_on::{first_break, values_left};
use sgt_audit::{Audited, audit_bundle};
use sgt_compact::CompactBundle;
use sgt_names::{EngineFail, Holding, Listed, Source};
use std::alloc::{AllocError, Global};

/// What is kept of the bundles of a chain that were audited: the counts of their decisions, and the final values of
/// the last.
#[derive(Drop)]
pub struct ChainAuditor {
    alloc: Global,
    counts: Counts,
    left: Option<Vec<Listed<Holding>>>,
}

impl ChainAuditor {
    ghost use Rattle.std.specs.Prelude.{◌≡◌, ◌≢◌, ◌-◌, ◌<◌, ◌∷◌, ◌++◌, [], ℕ, List, Option, Err, IfOk, IfNone, IfSome, OnErr, OnSome, length, string_bytes};
    ghost use Rattle.sgt_bundle.specs.Parts.{FitTogether, Parts};
    ghost use Rattle.sgt_bundle.specs.Valid.{IsValid};
    ghost use Rattle.sgt_devices.specs.Devices.{LeavesReader};
    ghost use Rattle.sgt_audit.specs.Faults.{BeginsNoneBehind, ReadsNoFurther};
    ghost use Rattle.sgt_audit_chain.specs.Audited.{FollowsIn, HasAudited, HasFault, HoldsHeadline, IsYes, KeepsOf};

    /// Before the first bundle.
    pub fn new(alloc: Global) -> ChainAuditor
        ensures { HasAudited result [] }
    {
        ChainAuditor {
            alloc,
            counts: Counts::none(),
            left: None,
        }
    }

    /// One more bundle, which is valid, where it goes on; else its first line that doesn't.
    fn follow(&mut self, bundle: CompactBundle) -> Result<Option<u64>, AllocError>
        ensures follows { IsValid bundle → (bundles : List Parts) → KeepsOf self.old bundles
            → IfOk result (λ found. FollowsIn self.new bundles bundle found) }
        ensures same { IfOk result (λ found. OnSome found (self.new ≡ self.old)) }
        ensures err { OnErr result (self.new ≡ self.old) }
    {
        let logs = bundle.logs();
        if let Some(left) = &self.left {
            if let Some(line) = first_break(left.as_slice(), logs) {
                return Ok(Some(line));
            }
        }
        let (certificate, logs) = bundle.into_parts();
        let left = values_left(self.alloc, logs)?;
        self.counts = self.counts.with(certificate.decisions());
        self.left = Some(left);
        Ok(None)
    }

    /// Audits all that the reader gives as the next bundle of the chain: `None` where it is a valid bundle that goes
    /// on where the one before it ended, else its first fault with the line, counted from 1. The reader is read once,
    /// and no further than the first line with a fault of a bundle.
    ///
    /// With a fault or an Err what is kept is as before. An Err is ReadFault, where a read failed or too many were
    /// needed (`MOST_READS` of sgt_names), or Memory.
    pub fn next<R: Source>(
        &mut self,
        reader: &mut R,
    ) -> Result<Option<(u64, ChainFault)>, EngineFail>
        ensures goes_on { (told : List (Option (List ℕ))) → HasAudited self.old told
            → IfOk result (λ found. IfNone found
            (HasAudited self.new (told ++ R.tells reader.old ∷ []))) }
        ensures fault { (told : List (Option (List ℕ))) → HasAudited self.old told
            → IfOk result (λ found. IfSome found (λ first. IfSome (R.tells reader.old)
            (λ text. HasFault told text first.0 first.1))) }
        ensures same { IfOk result (λ found. OnSome found (self.new ≡ self.old)) }
        ensures err { OnErr result (self.new ≡ self.old) }
        ensures no_further { IfOk result (λ found. IfSome (R.tells reader.old) (λ bytes.
            ReadsNoFurther bytes (R.asked reader.new - R.asked reader.old))) }
        ensures none_behind { IfOk result (λ _. IfSome (R.tells reader.old) (λ bytes. IfSome (R.tells reader.new)
            (λ left. BeginsNoneBehind bytes (length left) (R.last reader.new)))) }
        ensures reader { LeavesReader R.tells R.failures R.asked result reader.old reader.new }
        ensures write_fault { result ≢ Err EngineFail.WriteFault }
    {
        match audit_bundle(self.alloc, reader) {
            Ok(Audited::Valid(bundle)) => match self.follow(bundle) {
                Ok(Some(line)) => Ok(Some((line, ChainFault::Broken))),
                Ok(None) => Ok(None),
                Err(_) => Err(EngineFail::Memory),
            },
            Ok(Audited::No { line, fault }) => Ok(Some((line, ChainFault::Invalid(fault)))),
            Err(fail) => Err(fail),
        }
    }

    /// The line of the chain, with the LF: `yes C committed R refused W withdrawn`, with the counts of the decisions
    /// of all bundles as far as numbers of 64 bits go. An Err is want of memory.
    pub fn to_line(&self, alloc: Global) -> Result<String, AllocError>
        ensures yes { (told : List (Option (List ℕ))) → HasAudited self.now told
            → IfOk result (λ line. IsYes told (string_bytes line)) }
        ensures headline { (told : List (Option (List ℕ))) → HasAudited self.now told
            → HoldsHeadline told }
    {
        let Counts {
            committed,
            refused,
            withdrawn,
        } = self.counts;
        format!(in alloc; "yes {committed} committed {refused} refused {withdrawn} withdrawn\n")
    }
}
