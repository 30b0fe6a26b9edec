//! Whether a history is serializable, with what shows it: an order that serves, a fault, or a cycle of conflicts.
#![tactic(auto)]

mod along;
mod anomaly;
mod between;
mod cyclic;
mod deciding;
mod laws;
mod quick;
mod step;
mod steps;

pub use along::line_behind;
pub use anomaly::{Anomaly, anomaly_of};
pub use between::conflicts_along;
pub use cyclic::Cyclic;
pub use deciding::{Decided, Verdict, decide, decide_faultless, decide_judged};
pub use laws::steps_exclude_every_order;
pub use step::Step;
pub use steps::steps_of;
