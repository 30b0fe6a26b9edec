//! What the logs of sites without a certificate say, and searches over it: the order of the ends, ranks, and cycles
//! of conflicts. What they find is checked by who asks for it.
#![tactic(auto)]

mod conflicts;
mod ends;
mod groups;
mod history;
mod lists;
mod logs;
mod numbers;
mod ranks;
mod ready;
mod sides;
mod sorting;
mod targets;
mod waiting;
mod walks;

pub use conflicts::{Conflict, kind_of, least_conflict};
pub use ends::{Before, Front};
pub use groups::Groups;
pub use history::{Act, End, Ending, Fate, History, Life, Named, Operation, Place, Said, said_by};
pub use lists::{clear_mark, is_marked, number_at, set_mark, set_number, short};
pub use logs::Logs;
pub use ranks::rank_order;
pub use sides::{Bounds, Spread};
pub use targets::Targets;
pub use waiting::Waiting;
pub use walks::{Asked, Link, Marks, ask, met_from, walk_of};
