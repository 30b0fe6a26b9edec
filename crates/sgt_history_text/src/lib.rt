//! Histories, read: which text spells which history, its names as numbers, and the first line that can't be read.
#![tactic(auto)]

mod adding;
mod building;
mod escapes;
mod fault;
mod ids;
mod line;
mod members;
mod moment;
mod moments;
mod names;
mod operations;
mod plain;
mod putting;
mod reading;
mod shallow;
mod table;
mod values;
mod wanted;
mod whole;

pub use fault::{LineFault, MAX_HISTORY_LINE, MOST_ID_BYTES, MOST_ITEM_BYTES};
pub use ids::Ids;
pub use names::Names;
pub use reading::{HistoryText, Reading, read_history};
pub use wanted::Wanted;
