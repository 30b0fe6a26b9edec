//! What a command line asks of files and streams, done: which is read, which is written, in which form, and what is
//! told on standard error.
#![tactic(auto)]

mod against;
mod chain;
mod devices;
mod driver;
mod expected;
mod folder;
mod front;
mod host;
mod object;
mod ordinary;
mod output;
mod page;
mod progress;
mod same;
mod shell;
mod streams;
mod svg;
mod talk;
mod unreadable;
mod why;

pub use driver::{NoWords, drive};
pub use streams::Streams;
