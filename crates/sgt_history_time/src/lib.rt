//! Strict and session serializability: what an order keeps besides what transactions read and wrote.
#![tactic(auto)]

mod laws;
mod order_checks;
mod times;

pub use laws::{
    cycles_exclude_orders_that_keep, orders_keep_exactly_where_steps_go_forward, steps_go_forward,
};
pub use order_checks::{
    is_before, is_earlier, keeps_real_time, keeps_sessions, session_at, times_at,
};
pub use times::Times;
