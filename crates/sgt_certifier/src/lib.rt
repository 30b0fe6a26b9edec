//! The certifier of all sites.
#![tactic(auto)]

mod call;
mod certifier;
mod counts;
mod handed;
mod install;
mod judge;
mod laws;
mod ranking;
mod row;

pub use call::{Call, CertifierFault, Decided};
pub use certifier::Certifier;
pub use handed::{HandedEdges, Incident};
pub use judge::Judge;
pub use laws::{
    histories_are_sound, installs_are_counted, installs_are_noted_once,
    serial_orders_are_topological,
};
pub use row::ItemCount;
