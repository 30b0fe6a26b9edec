//! Whether a history is serializable.

ghost use Rattle.std.specs.Prelude.{◌≡◌, ◌≤◌, ◌^◌, ◌↔◌, ℕ, List, IfOk, length};
ghost use Rattle.sgt_history.specs.History.{closed_of};
ghost use Rattle.sgt_history.specs.Serial.{IsSerializable};
ghost use Rattle.sgt_history.specs.Transaction.{Transaction};
ghost use Rattle.sgt_history_faults.specs.Judged.{IsFaultlessBy};
ghost use Rattle.sgt_history_verdict.specs.Decided.{IsDecidedFrom, IsFoundIn};
ghost use Rattle.sgt_history_verdict.specs.Verdict.{IsCyclic, IsLeastGraph, IsSerial, IsVerdict};

use crate::cyclic::Cyclic;
use sgt_graph::{Ordered, order, shown_cycle};
use sgt_history::{Graph, History, Line};
use sgt_history_conflicts::{Parts, edges_in, edges_of, pairs_of};
use sgt_history_faults::{Fault, Judged, Touch, judge};
use std::alloc::{AllocError, Global};

/// What a history is.
#[derive(Drop)]
pub enum Verdict {
    /// It is serializable: those of the lines that commit, in this order, serve.
    Serial(Vec<u32>),
    /// It has this fault, and none that is told before it.
    Faulty(Fault),
    /// It has no fault, and conflicts form a cycle.
    Cyclic(Cyclic),
}

/// What a history is, and its lines.
#[derive(Drop)]
pub struct Decided {
    pub verdict: Verdict,
    pub lines: Vec<Line>,
}

/// The least graph that has a cycle, where the whole one has one.
fn least_graph(alloc: Global, nodes: usize, edges: &Parts) -> Result<Graph, AllocError>
    requires few { nodes ≤ 2 ^ 32 }
    requires found { (h : List (Transaction ℕ ℕ)) × IsFoundIn h nodes edges.now }
    ensures { IfOk result (λ graph. (h : List (Transaction ℕ ℕ)) → IsFoundIn h nodes edges.now → IsLeastGraph h graph) }
{
    match order(alloc, nodes, edges_in(edges, Graph::WriteWrite))? {
        Ordered::Cycle(_) => Ok(Graph::WriteWrite),
        Ordered::Order(_) => match order(alloc, nodes, edges_in(edges, Graph::WithReads))? {
            Ordered::Cycle(_) => Ok(Graph::WithReads),
            Ordered::Order(_) => Ok(Graph::Whole),
        },
    }
}

/// What is told of a cycle of the least graph that has one.
fn cyclic(
    alloc: Global,
    nodes: usize,
    touches: Vec<Touch>,
    edges: Parts,
    graph: Graph,
) -> Result<Cyclic, AllocError>
    requires few { nodes ≤ 2 ^ 32 }
    requires found { (h : List (Transaction ℕ ℕ)) × IsFoundIn h nodes edges × IsLeastGraph h graph }
    ensures { IfOk result (λ c. (h : List (Transaction ℕ ℕ)) → IsFaultlessBy h touches.items → IsFoundIn h nodes edges
        → IsLeastGraph h graph → IsCyclic h c) }
{
    let Some(cycle) = shown_cycle(alloc, nodes, edges_in(&edges, graph))? else {
        unreachable!()
    };
    drop(edges);
    let pairs = pairs_of(alloc, touches.as_slice())?;
    Ok(Cyclic {
        graph,
        cycle,
        touches,
        pairs,
    })
}

/// What a history without faults is, of so many lines, by its touches.
pub fn decide_faultless(
    alloc: Global,
    nodes: usize,
    touches: Vec<Touch>,
) -> Result<Verdict, AllocError>
    requires few { nodes ≤ 2 ^ 32 }
    requires from { (h : List (Transaction ℕ ℕ)) × IsDecidedFrom h nodes touches.items }
    ensures { IfOk result (λ verdict. (h : List (Transaction ℕ ℕ)) → IsDecidedFrom h nodes touches.items
        → IsVerdict h verdict) }
{
    let pairs = pairs_of(alloc, touches.as_slice())?;
    let edges = edges_of(touches.as_slice(), pairs);
    match order(alloc, nodes, edges_in(&edges, Graph::Whole))? {
        Ordered::Order(order) => Ok(Verdict::Serial(order)),
        Ordered::Cycle(_) => {
            let graph = least_graph(alloc, nodes, &edges)?;
            Ok(Verdict::Cyclic(cyclic(alloc, nodes, touches, edges, graph)?))
        }
    }
}

/// Decides whether a history that was judged to have no fault is serializable, by its touches.
pub fn decide_judged(
    alloc: Global,
    history: History,
    touches: Vec<Touch>,
) -> Result<Decided, AllocError>
    requires { IsFaultlessBy (closed_of history) touches.items }
    ensures verdict { IfOk result (λ decided. IsVerdict (closed_of history) decided.verdict) }
    ensures exact { IfOk result (λ decided. IsSerial decided.verdict ↔ IsSerializable (closed_of history)) }
    ensures lines { IfOk result (λ decided. decided.lines ≡ history.lines) }
{
    let History { operations, lines } = history;
    drop(operations);
    let verdict = decide_faultless(alloc, lines.len(), touches)?;
    Ok(Decided { verdict, lines })
}

/// Decides whether a history is serializable.
pub fn decide(alloc: Global, history: History) -> Result<Decided, AllocError>
    ensures verdict { IfOk result (λ decided. IsVerdict (closed_of history) decided.verdict) }
    // So want of memory aside the verdict is that an order serves exactly where the history is serializable.
    ensures exact { IfOk result (λ decided. IsSerial decided.verdict ↔ IsSerializable (closed_of history)) }
    ensures lines { IfOk result (λ decided. decided.lines ≡ history.lines) }
{
    let judged = judge(alloc, &history)?;
    match judged {
        Judged::Faulty(fault) => Ok(Decided {
            verdict: Verdict::Faulty(fault),
            lines: history.lines,
        }),
        Judged::Faultless(touches) => decide_judged(alloc, history, touches),
    }
}
