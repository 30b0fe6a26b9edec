//! What is kept of the site whose section is open, in place of its entries, and the rules of a line judged by it.
#![tactic(auto)]

mod act;
mod cell;
mod chain;
mod record;
mod record_table;
mod row;
mod state;

pub use act::item_in;
pub use state::SiteState;
