//! Bundles in a row, file by file.

ghost use Rattle.std.specs.Prelude.{◌≡◌, ◌≢◌, ◌<◌, ◌≤◌, ◌∷◌, ◌++◌, [], ℕ, List, Option, Err, Some, IfOk, IfSome, IsErrOf, IsNone, OnErr, length};
ghost use Rattle.std.specs.Io.KnownBytes.{Appends};
ghost use Rattle.sgt_devices.specs.Devices.{LeavesWriter};
ghost use Rattle.sgt_audit.specs.Faults.{BeginsNoneBehind};
ghost use Rattle.sgt_audit_chain.specs.Audited.{HasAudited, HoldsHeadline, IsYes, no_text};
ghost use Rattle.sgt_program.specs.Chains.{SaysBroken, SaysChain, WroteBrokenFront, WroteChainFront};
ghost use Rattle.sgt_program.specs.Ending.{LeavesDevices, ReadFailed, TellsErrors, WroteOrFailed, status_of};
ghost use Rattle.sgt_program.specs.declared.ending.Ending.{Ending};

use crate::commands::{finish, give_up};
use sgt_audit_chain::{ChainAuditor, ChainFault};
use sgt_names::{EngineFail, Outcome, Sink, Source, write_all};
use std::alloc::Global;

// Writes the line of a text that doesn't go on.
fn tell_broken<W: Sink>(
    alloc: Global,
    fault: ChainFault,
    name: &str,
    line: u64,
    writer: &mut W,
) -> Result<Outcome, EngineFail>
    ensures no { IfOk result (λ outcome. (outcome ≡ Outcome.No)
        × Appends (W.holds writer.old) (W.holds writer.new) (no_text name.now line fault)) }
    ensures front { OnErr result
        (WroteBrokenFront name.now (W.holds writer.old) (W.holds writer.new)) }
    ensures read_fault { result ≢ Err EngineFail.ReadFault }
    ensures writer { LeavesWriter W.failures result writer.old writer.new }
{
    let Ok(text) = fault.to_line(alloc, name, line) else {
        return Err(EngineFail::Memory);
    };
    match write_all(writer, text.as_bytes()) {
        Ok(()) => Ok(Outcome::No),
        Err(_) => Err(EngineFail::WriteFault),
    }
}

/// Audits what the reader gives as the next bundle of a chain. None: it is a valid bundle, which goes on where the
/// one before ended. Else the exit status: 1 it doesn't, and its line was written, which has the file's name; 3 and 4
/// as in `program`.
pub fn audit_next<R: Source, W: Sink, E: Sink>(
    auditor: &mut ChainAuditor,
    alloc: Global,
    name: &str,
    reader: &mut R,
    writer: &mut W,
    errors: &mut E,
) -> Option<u8>
    ensures goes_on { IsNone result → (told : List (Option (List ℕ))) → HasAudited auditor.old told
        → HasAudited auditor.new (told ++ (R.tells reader.old ∷ [])) }
    ensures silent { IsNone result → (writer.new ≡ writer.old) × (errors.new ≡ errors.old)
        × (R.failures reader.new ≡ R.failures reader.old) }
    ensures no { result ≡ Some 1 → SaysBroken auditor.old name.now (R.tells reader.old)
        (W.holds writer.old) (W.holds writer.new) }
    ensures known { IfSome result (λ status. (status ≢ 0) × (status ≢ 2)) }
    ensures front { IfSome result (λ status. 3 ≤ status
        → WroteBrokenFront name.now (W.holds writer.old) (W.holds writer.new)) }
    // where the bundle was judged, no read began once the line with its first fault was whole
    ensures none_behind { IfSome result (λ status. status < 3) → IfSome (R.tells reader.old) (λ bytes.
        IfSome (R.tells reader.new) (λ left. BeginsNoneBehind bytes (length left) (R.last reader.new))) }
    ensures ends { IfSome result (λ status. (ending : Ending) × (status ≡ status_of ending)
        × LeavesDevices ending
        ((R.failures reader.new ≡ R.failures reader.old)
        × (W.failures writer.new ≡ W.failures writer.old))
        (ReadFailed ⊥ (R.tells reader.old) (R.failures reader.old)
        (R.failures reader.new) (R.asked reader.old) (R.asked reader.new))
        (W.failures writer.old < W.failures writer.new)
        (writer.new ≡ writer.old)
        × TellsErrors ending (errors.new ≡ errors.old)
        (WroteOrFailed (E.holds errors.old) (E.holds errors.new) (E.failures errors.old)
        (E.failures errors.new))) }
{
    match auditor.next(reader) {
        Ok(None) => None,
        Ok(Some((line, fault))) => {
            let told = tell_broken(alloc, fault, name, line, writer);
            Some(finish(errors, told))
        }
        Err(fail) => Some(give_up(errors, fail)),
    }
}

// Writes the line of a chain.
fn tell_chain<W: Sink>(
    auditor: &ChainAuditor,
    alloc: Global,
    writer: &mut W,
) -> Result<Outcome, EngineFail>
    ensures yes { IfOk result (λ outcome. (outcome ≡ Outcome.Yes)
        × SaysChain auditor.now (W.holds writer.old) (W.holds writer.new)) }
    ensures front { IsErrOf result EngineFail.WriteFault
        → WroteChainFront auditor.now (W.holds writer.old) (W.holds writer.new) }
    ensures read_fault { result ≢ Err EngineFail.ReadFault }
    ensures writer { LeavesWriter W.failures result writer.old writer.new }
{
    let Ok(text) = auditor.to_line(alloc) else {
        return Err(EngineFail::Memory);
    };
    match write_all(writer, text.as_bytes()) {
        Ok(()) => Ok(Outcome::Yes),
        Err(_) => Err(EngineFail::WriteFault),
    }
}

/// Writes the line of a chain whose bundles were all audited, and gives the exit status: 0, or 3 and 4 as in `program`.
pub fn end_chain<W: Sink, E: Sink>(
    auditor: &ChainAuditor,
    alloc: Global,
    writer: &mut W,
    errors: &mut E,
) -> u8
    ensures yes { result ≡ 0
        → SaysChain auditor.now (W.holds writer.old) (W.holds writer.new) }
    ensures known { (result ≢ 1) × (result ≢ 2) }
    ensures front { result ≡ 4
        → WroteChainFront auditor.now (W.holds writer.old) (W.holds writer.new) }
    ensures ends { (ending : Ending) × (result ≡ status_of ending)
        × LeavesDevices ending (W.failures writer.new ≡ W.failures writer.old) ⊥
        (W.failures writer.old < W.failures writer.new) (writer.new ≡ writer.old)
        × TellsErrors ending (errors.new ≡ errors.old)
        (WroteOrFailed (E.holds errors.old) (E.holds errors.new) (E.failures errors.old)
        (E.failures errors.new)) }
{
    let told = tell_chain(auditor, alloc, writer);
    finish(errors, told)
}
