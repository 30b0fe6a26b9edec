//! Scripts run by the threads of a service.
#![tactic(auto)]

mod audited;
mod begun;
mod engine;
mod input;
mod laws;
mod reading;
mod report;
mod runner;
mod running;
mod settled;
mod taking;

pub use engine::run_scripts;
pub use input::{Input, Reading};
pub use laws::{inputs_have_one_reading, unreadable_lines_are_determined};
pub use reading::read_input;
pub use running::run;
pub use settled::{Settled, bundle, settle};
pub use sgt_service_agreement::{EntryCounts, ServiceFault, agrees, gather_agreed};
pub use sgt_service_locks::{Active, Back, Opened, Seat, Service};
