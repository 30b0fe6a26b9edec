//! A node admitted with its edges, or refused.

ghost use Rattle.std.specs.Prelude.{◌≡◌, ◌+◌, ◌^◌, ◌<◌, ◌≤◌, IsSome, IfErr, OnOk, OnErr, length, drop, vec_len};
ghost use Rattle.sgt_arena.specs.Arena.{get};
ghost use Rattle.sgt_order.specs.Graph.{IsAcyclic, IsPlaced};
ghost use Rattle.sgt_order.specs.SerializationGraph.{Joins};
ghost use Rattle.sgt_order.specs.private.Parts.{IsSound};
ghost use Rattle.sgt_order.specs.private.Rows.{RowsCover};
ghost use Rattle.sgt_order.specs.private.Search.{AreAmong, IsAdmissible, IsAtRest, in_window};
ghost use Rattle.sgt_order.specs.private.Growth.{KeepsRoom, SameNodes};
ghost use Rattle.sgt_order.specs.private.Admission.{LeadsToOlder, RefusesAdmission, edges_with};

use crate::dag::Dag;
use crate::fault::Admit;
use crate::growth::extend;
use crate::hints::note_edges;
use crate::offer::leads_to_older;
use crate::region::Region;
use crate::rows::{add_edges, open_rows};
use crate::search::{closing_if, search, walk_back};
use sgt_arena::Handle;
use sgt_edges::Edge;
use std::alloc::Global;

// Where the region begins, or the order's end where no node has a row, so that none has many edges.
fn hinted_from(dag: &Dag, region: &Region) -> usize {
    if dag.rows.is_empty() {
        dag.order.len()
    } else {
        region.first
    }
}

/// Admits the node with the edges of the window, or says why not. The marks of its search stay.
pub(crate) fn admit_in(
    alloc: Global,
    dag: &mut Dag,
    region: &mut Region,
    new: Handle,
    offered: &[Edge],
) -> Result<(), Admit>
    requires rest { IsAtRest dag.old region.old.marks.items }
    requires node { IsSome (get dag.old.nodes new) }
    requires admissible { IsAdmissible dag.old.nodes.generation dag.old.order.items new
        (in_window new offered.now) }
    requires members { vec_len dag.old.order + 1 < 2 ^ 64 }
    ensures sound { IsSound dag.new }
    ensures rows { RowsCover dag.new.rows.items dag.new.edges.items }
    ensures same { SameNodes dag.old.nodes dag.new.nodes }
    ensures first { region.new.first ≤ vec_len dag.new.order }
    ensures among { AreAmong (drop region.new.first dag.new.order.items) region.new.marks.items }
    ensures long { length region.new.marks.items ≡ length dag.new.nodes.items }
    ensures acyclic { OnOk result (IsAcyclic (Joins (edges_with dag.old new offered.now))) }
    ensures forward { OnOk result (LeadsToOlder new offered.now → ⊥) }
    ensures order { OnOk result
        (IsPlaced (Joins
        (edges_with dag.old new offered.now)) dag.old.order.items new dag.new.order.items) }
    ensures edges { OnOk result (dag.new.edges.items ≡ edges_with dag.old new offered.now) }
    ensures keeps { OnErr result (KeepsRoom dag.old dag.new region.old.next region.new.next) }
    ensures fault { IfErr result (RefusesAdmission dag.old region.old.next new offered.now) }
{
    search(dag, region, new, offered);
    let first = hinted_from(dag, region);
    note_edges(
        &mut dag.hints,
        &dag.nodes,
        dag.edges.as_slice(),
        dag.order.as_slice(),
        first,
    );
    let any = region.first < dag.order.len();
    if let Some(last) = closing_if(any, new, offered, region.marks.as_slice()) {
        let walk = walk_back(
            alloc,
            dag.order.as_slice(),
            region.marks.as_slice(),
            new,
            last,
        )?;
        return Err(Admit::Cycle(walk));
    }
    if leads_to_older(new, offered) {
        return Err(Admit::Stale);
    }
    let wide = extend(dag, region, new, offered)?;
    add_edges(dag.rows.as_mut_slice(), new.generation, offered);
    open_rows(
        &mut dag.rows,
        &dag.nodes,
        dag.edges.as_slice(),
        offered,
        wide,
    );
    Ok(())
}
