//! Memory that is let go in a thread of its own.

use std::thread;
use std::thread::Threads;

/// Lets the value go, in a thread of its own if one can be made: a caller that waits for others need not wait for this.
pub fn let_go<H: Threads, T: Send + Drop + 'static>(rt: &H, value: T) {
    drop(thread::spawn(rt, move || drop(value)));
}
