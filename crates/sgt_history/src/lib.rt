//! Histories whose operations name versions: what makes one serializable, and what excludes it.
#![tactic(auto)]

mod history;
mod laws;
mod named;

pub use history::{History, Kind, Line, Operation};
pub use laws::{
    conflicts_go_forward, cycles_exclude_every_order, faults_exclude_every_order,
    names_do_not_matter, orders_serve_exactly_where_conflicts_go_forward,
};
pub use named::{Conflict, Flaw, Graph};
