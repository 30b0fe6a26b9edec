//! The names of a certifier: transactions, sites, items and the entries of a site's log; and the readers and writers
//! that the engines are generic over.
#![tactic(auto)]

mod asks;
mod bytes;
mod draft;
mod draft_parts;
mod entry;
mod item;
mod laws;
mod limits;
mod listed;
mod memory;
mod number;
mod outcome;
mod sink;
mod site_no;
mod source;
mod standard;
mod touch_list;

pub use asks::Asks;
pub use bytes::{Bytes, Nowhere, Written};
pub use draft::{Draft, Seen, Touch};
pub use draft_parts::Part;
pub use entry::{Change, Entry, Holding, Kind, Label};
pub use item::{BadName, Item};
pub use laws::{
    additions_sum_up, changes_show_at_their_place, increments_commute,
    increments_conflict_with_others, increments_do_not_conflict, value_is_of_the_last_write,
};
pub use limits::{
    BUFFER, MAX_ITEMS, MAX_LINE, MAX_SCRIPTS, MAX_SITES, MAX_TRIES, MAX_WORKERS, MOST_READS,
};
pub use listed::Listed;
pub use memory::{MemSink, MemSource};
pub use number::{BadNumber, Tx};
pub use outcome::{EngineFail, Outcome};
pub use sink::{Sink, write_all};
pub use site_no::SiteNo;
pub use source::{Failed, Flow, Source};
pub use standard::{FromRead, ToWrite};

/// The value of an item.
pub type Value = u64;
