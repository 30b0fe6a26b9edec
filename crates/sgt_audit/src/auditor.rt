//! An auditor that is fed the lines of a bundle one by one.

ghost use Rattle.std.specs.Prelude.{◌≡◌, ℕ, ◌+◌, ◌<◌, ◌^◌, List, [], ◌∷◌, ◌++◌, length, Bool, true, false, Err, IfOk, IfErr, OnOk, OnErr};
ghost use Rattle.sgt_notation.specs.Spelling.{HasNoLf, text_of_lines};
ghost use Rattle.sgt_bundle.specs.declared.certificate.Certificate.{Certificate};
ghost use Rattle.sgt_audit.specs.Verdict.{IsVerdict};
ghost use Rattle.sgt_audit.specs.declared.faults.Fault.{Fault};

use crate::faults;
use crate::faults::Fault;
use crate::machine::{Machine, Progress};
use crate::verdict::{Verdict, verdict_on};
use sgt_bundle::{Certificate, to_line};
use sgt_names::EngineFail;
use std::alloc::Global;

/// How an auditor stands.
#[derive(Drop)]
pub enum Standing {
    /// The lines so far have no fault; the next one has this number.
    Going(Machine, u64),
    /// The first fault was found.
    Found(faults::FirstFault),
    /// A growth was refused.
    Spent,
}

/// An auditor of a bundle whose lines come one by one, from line 3 on. It answers as `audit` does on the format line,
/// the certificate's line and the lines fed, each with its LF.
#[derive(Drop)]
pub struct Auditor {
    standing: Standing,
}

impl Auditor {
    ghost use Rattle.std.specs.Prelude.{Some, IfSome, IfNone};
    ghost use Rattle.sgt_audit.specs.Faults.{FirstFault};
    ghost use Rattle.sgt_audit.specs.Fed.{HasFed, HasFailed, HaveNoFault, bundle_lines, known_fault};

    /// An auditor of a bundle in the first format, `sgt 1`, with this certificate, which it judges. A fault of the
    /// certificate is no Err: `end` answers it. An Err is Memory.
    pub fn new(alloc: Global, certificate: Certificate) -> Result<Auditor, EngineFail>
        ensures read { IfOk result (λ a. HasFed a false certificate []) }
        ensures going { IfOk result (λ a. HasFailed a → ⊥) }
        ensures err { IfErr result (λ e. e ≡ EngineFail.Memory) }
    {
        Auditor::begin(alloc, false, certificate)
    }

    /// The same in the second format, `sgt 2`, which has increments. There need be none.
    pub fn new_2(alloc: Global, certificate: Certificate) -> Result<Auditor, EngineFail>
        ensures read { IfOk result (λ a. HasFed a true certificate []) }
        ensures going { IfOk result (λ a. HasFailed a → ⊥) }
        ensures err { IfErr result (λ e. e ≡ EngineFail.Memory) }
    {
        Auditor::begin(alloc, true, certificate)
    }

    /// The same in the second format or in the first.
    fn begin(alloc: Global, second: bool, certificate: Certificate) -> Result<Auditor, EngineFail>
        ensures read { IfOk result (λ a. HasFed a second certificate []) }
        ensures going { IfOk result (λ a. HasFailed a → ⊥) }
        ensures err { IfErr result (λ e. e ≡ EngineFail.Memory) }
    {
        let Ok(line) = to_line(alloc, &certificate) else {
            return Err(EngineFail::Memory);
        };
        let mut machine = Machine {
            alloc,
            keeps: false,
            progress: Progress::Headed(second),
        };
        match machine.line(line.as_slice()) {
            Ok(None) => Ok(Auditor {
                standing: Standing::Going(machine, 3),
            }),
            Ok(Some(fault)) => Ok(Auditor {
                standing: Standing::Found(faults::FirstFault { line: 2, fault }),
            }),
            Err(_) => Err(EngineFail::Memory),
        }
    }

    /// One more line, without its LF; it must have no byte `\n` in it (`line.contains(&b'\n')` tests that). A fault
    /// is no Err: `end` answers it. An Err is Memory, and every later call answers Memory then.
    pub fn feed(&mut self, line: &[u8]) -> Result<(), EngineFail>
        requires { HasNoLf line.now }
        ensures read { (second : Bool) (c : Certificate) (fed : List (List ℕ))
            → HasFed self.old second c fed
            → HasFed self.new second c (fed ++ line.now ∷ []) }
        ensures going { OnOk result (HasFailed self.new → ⊥) }
        ensures err { IfErr result (λ e. (e ≡ EngineFail.Memory) × HasFailed self.new) }
        ensures spent { HasFailed self.old → result ≡ Err EngineFail.Memory }
        ensures stays { (found : ℕ × Fault) → known_fault self.old ≡ Some found
            → known_fault self.new ≡ Some found }
        ensures same { OnErr result (known_fault self.new ≡ known_fault self.old) }
    {
        match &mut self.standing {
            Standing::Going(machine, number) => match machine.line(line) {
                Ok(None) => {
                    *number = number.saturating_add(1);
                    Ok(())
                }
                Ok(Some(fault)) => {
                    self.standing = Standing::Found(faults::FirstFault {
                        line: *number,
                        fault,
                    });
                    Ok(())
                }
                Err(_) => {
                    self.standing = Standing::Spent;
                    Err(EngineFail::Memory)
                }
            },
            Standing::Found(_) => Ok(()),
            Standing::Spent => Err(EngineFail::Memory),
        }
    }

    /// The first fault of the certificate's line and the lines fed, with its line, whatever follows: it doesn't
    /// change. That more lines are wanted is no fault. After Memory it answers as before.
    pub fn fault(&self) -> Option<(u64, Fault)>
        ensures known { result ≡ known_fault self.now }
        ensures first { (second : Bool) (c : Certificate) (fed : List (List ℕ))
            → HasFed self.now second c fed → length fed + 3 < 2 ^ 64
            → IfSome result
            (λ found. (rest : List ℕ)
            → FirstFault (text_of_lines (bundle_lines second c fed) ++ rest) found.0 found.1) }
        ensures none { (second : Bool) (c : Certificate) (fed : List (List ℕ))
            → HasFed self.now second c fed → (HasFailed self.now → ⊥)
            → IfNone result (HaveNoFault (bundle_lines second c fed)) }
    {
        match &self.standing {
            Standing::Found(first) => Some((first.line, first.fault)),
            Standing::Going(_, _) => None,
            Standing::Spent => None,
        }
    }

    /// The verdict on the lines fed, which are all. An Err is Memory, and comes only where `feed` answered it.
    pub fn end(self) -> Result<Verdict, EngineFail>
        ensures verdict { (second : Bool) (c : Certificate) (fed : List (List ℕ))
            → HasFed self second c fed → length fed + 3 < 2 ^ 64
            → IfOk result (IsVerdict (text_of_lines (bundle_lines second c fed))) }
        ensures err { IfErr result (λ e. (e ≡ EngineFail.Memory) × HasFailed self) }
        ensures spent { HasFailed self → result ≡ Err EngineFail.Memory }
    {
        let Auditor { standing } = self;
        match standing {
            Standing::Going(machine, line) => Ok(verdict_on(machine.end(&[], line))),
            Standing::Found(first) => Ok(verdict_on(Err(first))),
            Standing::Spent => Err(EngineFail::Memory),
        }
    }
}
