//! Whether the tickets of a run, the history of its certifier and the logs of its sites hold together.
#![tactic(auto)]

mod acts;
mod begins;
mod beyond;
mod carried;
mod check;
mod committed;
mod counts;
mod course;
mod decisions;
mod deeds;
mod handed;
mod index;
mod joined;
mod laws;
mod least;
mod link;
mod logged;
mod names;
mod places;
mod points;
mod rows;
mod search;
mod sited;
mod sites;
mod tallies;
mod tickets;
mod ties;
mod told;
mod versions;

pub use check::check_settled;
pub use handed::Handed;
pub use laws::settled_has_no_fault;
pub use told::check_told;
