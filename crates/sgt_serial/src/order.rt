//! The order of the serial run.

ghost use Rattle.std.specs.Prelude.{◌≡◌, List, map, IfOk};
ghost use Rattle.std.specs.List.{filter_map};
ghost use Rattle.sgt_bundle.specs.Certificate.{by_rank};
ghost use Rattle.sgt_bundle.specs.Parts.{FitTogether};
ghost use Rattle.sgt_bundle.specs.declared.certificate.Decision.{Decision as AnyDecision};
ghost use Rattle.sgt_serial.specs.private.Order.{ranked_in};

use sgt_bundle::Decision;
use sgt_compact::{CompactBundle, CompactLog};
use sgt_names::Tx;
use std::alloc::{AllocError, Global};

/// A committed transaction with its rank.
#[derive(Clone, Copy)]
struct Ranked {
    tx: Tx,
    rank: u32,
}

fn commit_in(decision: &Decision) -> Option<Ranked>
    ensures { result ≡ ranked_in decision.now }
{
    match decision {
        Decision::Commit { tx, rank } => Some(Ranked {
            tx: *tx,
            rank: *rank,
        }),
        _ => None,
    }
}

/// The committed transactions in the order of their decisions.
fn commits(alloc: Global, decisions: &[Decision]) -> Result<Vec<Ranked>, AllocError>
    ensures { IfOk result (λ commits. commits.items ≡ filter_map ranked_in decisions.now) }
{
    decisions.iter().filter_map(commit_in).collect(alloc)
}

/// The committed transactions by rank; those of one rank in the order of their decisions.
pub fn serial_order(alloc: Global, decisions: &[Decision]) -> Result<Vec<Tx>, AllocError>
    ensures { IfOk result (λ order. order.items ≡ by_rank decisions.now) }
{
    let ranked = commits(alloc, decisions)?;
    in_order(alloc, ranked)
}

/// The transactions by rank; those of one rank in the order in which they stand.
fn in_order(alloc: Global, ranked: Vec<Ranked>) -> Result<Vec<Tx>, AllocError>
    ensures { IfOk result (λ order. (decisions : List AnyDecision)
        → ranked.items ≡ filter_map ranked_in decisions → order.items ≡ by_rank decisions) }
{
    let mut commits = ranked;
    commits.sort_by_key(|commit| commit.rank)?;
    transactions(alloc, commits.as_slice())
}

/// The logs of the bundle. Its certificate is let go.
fn into_sites(bundle: CompactBundle) -> Vec<CompactLog>
    ensures { result.items ≡ bundle.sites }
{
    let (_certificate, sites) = bundle.into_parts();
    sites
}

/// The committed transactions of the bundle by rank, as `serial_order` has them, and its logs. Its
/// certificate is let go before they are sorted.
pub fn order_and_sites(
    alloc: Global,
    bundle: CompactBundle,
) -> Result<(Vec<Tx>, Vec<CompactLog>), AllocError>
    ensures order { IfOk result (λ r. r.0.items ≡ by_rank bundle.certificate.decisions) }
    ensures sites { IfOk result (λ r. r.1.items ≡ bundle.sites) }
    ensures fit { IfOk result (λ r. FitTogether bundle) }
{
    let ranked = commits(alloc, bundle.certificate().decisions())?;
    let _logs = bundle.logs();
    let sites = into_sites(bundle);
    let order = in_order(alloc, ranked)?;
    Ok((order, sites))
}

fn transactions(alloc: Global, commits: &[Ranked]) -> Result<Vec<Tx>, AllocError>
    ensures { IfOk result (λ txs. txs.items ≡ map (λ commit. commit.tx) commits.now) }
{
    commits.iter().map(|commit| commit.tx).collect(alloc)
}
