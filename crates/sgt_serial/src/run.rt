//! The serial run.

ghost use Rattle.std.specs.Prelude.{◌≡◌, ◌⊎◌, ℕ, ◌≤◌, length, map, All, Some, Ok, Err, IfOk, OnOk, Option};
ghost use Rattle.sgt_names.specs.Limits.{max_sites};
ghost use Rattle.sgt_names.specs.Name.{Name};
ghost use Rattle.sgt_bundle.specs.Serial.{SerialAgrees};
ghost use Rattle.sgt_bundle.specs.Valid.{IsValid};
ghost use Rattle.sgt_serial.specs.Difference.{Has, Knows, DiffersFrom, DiffersIn, AllRunOn, store_after_all, IsFirstDifference};
ghost use Rattle.sgt_serial.specs.Report.{run_of, report_of};
ghost use Rattle.sgt_serial.specs.private.Values.{store_of, with_all};

use crate::finals::finals;
use crate::operations::Operations;
use crate::order::serial_order;
use crate::report::{SerialFail, SerialReport, SerialTx};
use crate::store::Store;
use sgt_bundle::{Bundle, SiteLog};
use sgt_compact::CompactLog;
use sgt_names::{Listed, Tx};
use std::alloc::{AllocError, Global};

/// Compares the transaction's reads with the store, and makes its changes.
fn run_one(store: &mut Store, run: &SerialTx) -> Result<(), SerialFail>
    ensures reads { OnOk result (All (Has (store_of store.old)) run.now.reads) }
    ensures writes { OnOk result (All (Knows (store_of store.old)) run.now.writes) }
    ensures after { OnOk result
        ((s : ℕ) (x : Name)
        → store_of store.new s x ≡ with_all run.now.writes (store_of store.old) s x) }
    ensures differs { (tx : Option ℕ) (s : ℕ) (x : Name) → result ≡ Err (SerialFail.Differs tx s x)
        → (tx ≡ Some run.now.tx)
        × DiffersFrom (store_of store.old) run.now.reads run.now.writes s x }
{
    if let Some(read) = store.first_other(run.reads.as_slice()) {
        return Err(SerialFail::Differs(Some(run.tx), read.site, read.item));
    }
    if let Some(write) = store.change_all(run.writes.as_slice()) {
        return Err(SerialFail::Differs(Some(run.tx), write.site, write.item));
    }
    Ok(())
}

/// Runs these transactions one after another.
fn run_all(
    alloc: Global,
    sites: &[CompactLog],
    order: &[Tx],
    store: &mut Store,
) -> Result<Vec<SerialTx>, SerialFail>
    requires { length sites.now ≤ max_sites }
    ensures runs { IfOk result (λ runs. runs.items ≡ map (run_of sites.now) order.now) }
    ensures as_logged { OnOk result (AllRunOn sites.now order.now (store_of store.old)) }
    ensures after { OnOk result ((s : ℕ) (x : Name)
        → store_of store.new s x ≡ store_after_all sites.now order.now (store_of store.old) s x) }
    ensures differs { (tx : Option ℕ) (s : ℕ) (x : Name) → result ≡ Err (SerialFail.Differs tx s x)
        → (i : ℕ) × (tx ≡ Some i) × DiffersIn sites.now order.now (store_of store.old) i s x }
{
    let operations = Operations::new(alloc, sites)?;
    let mut runs = Vec::new(alloc);
    for tx in order {
        let run = operations.run(alloc, sites, *tx)?;
        run_one(store, &run)?;
        runs.push(run)?;
    }
    Ok(runs)
}

/// The logs, as the auditor hands them out.
fn compact_logs(alloc: Global, sites: &[SiteLog]) -> Result<Vec<CompactLog>, AllocError>
    ensures { IfOk result (λ logs. logs.items ≡ sites.now) }
{
    let mut logs = Vec::new(alloc);
    for log in sites {
        logs.push(CompactLog::of(alloc, log)?)?;
    }
    Ok(logs)
}

/// Runs the bundle's committed transactions, and compares the final values.
fn run_bundle(alloc: Global, bundle: &Bundle) -> Result<SerialReport, SerialFail>
    ensures agrees { OnOk result (SerialAgrees bundle.now) }
    ensures report { IfOk result (λ report. report ≡ report_of bundle.now) }
    ensures differs { (tx : Option ℕ) (s : ℕ) (x : Name) → result ≡ Err (SerialFail.Differs tx s x)
        → IsFirstDifference bundle.now tx s x }
{
    let logs = compact_logs(alloc, bundle.sites())?;
    let sites = logs.as_slice();
    let order = serial_order(alloc, bundle.certificate().decisions.as_slice())?;
    let mut store = Store::initial(alloc, sites)?;
    let runs = run_all(alloc, sites, order.as_slice(), &mut store)?;
    let finals = finals(alloc, sites)?;
    if let Some(other) = store.first_other(finals.as_slice()) {
        return Err(SerialFail::Differs(None, other.site, other.item));
    }
    Ok(SerialReport {
        runs: Listed::new(runs),
        finals: Listed::new(finals),
    })
}

/// Runs the committed transactions of the bundle alone, one after another by rank (those of one rank in the order of
/// their decisions), from the initial values: of each its logged reads are compared with the values so far, and then
/// its logged writes are put into them and its increments added, modulo 2^64. At the end the recorded final values
/// are compared. Z1 names the first difference: in a transaction, or with `None` among the final values. Z2 comes
/// only where a growth was refused.
pub fn serial_run(alloc: Global, bundle: &Bundle) -> Result<SerialReport, SerialFail>
    // What is said is so.
    ensures agrees { OnOk result (SerialAgrees bundle.now) }
    ensures report { IfOk result (λ report. report ≡ report_of bundle.now) }
    ensures differs { (tx : Option ℕ) (s : ℕ) (x : Name) → result ≡ Err (SerialFail.Differs tx s x)
        → IsFirstDifference bundle.now tx s x }

    // What is so is said, unless memory runs out.
    ensures ok { SerialAgrees bundle.now
        → (result ≡ Ok (report_of bundle.now)) ⊎ (result ≡ Err SerialFail.Memory) }
    ensures valid { IsValid bundle.now
        → (result ≡ Ok (report_of bundle.now)) ⊎ (result ≡ Err SerialFail.Memory) }
    ensures first { (tx : Option ℕ) (s : ℕ) (x : Name) → IsFirstDifference bundle.now tx s x
        → (result ≡ Err (SerialFail.Differs tx s x)) ⊎ (result ≡ Err SerialFail.Memory) }
{
    run_bundle(alloc, bundle)
}
