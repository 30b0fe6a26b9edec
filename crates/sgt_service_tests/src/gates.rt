//! Gates that hold whoever arrives at a place until somebody arrived at another.

use sgt_workers::{Gate, Place};
use std::sync::atomic::{AtomicBool, AtomicU64, Ordering};
use std::thread;

const MOST_TURNS: u64 = 1_000_000;

/// It holds for at most 1,000,000 turns that yield, and then notes a failure.
#[derive(Drop)]
pub struct HoldUntil {
    at: Place,
    until: Place,
    arrived: AtomicBool,
    failed: AtomicBool,
}

impl HoldUntil {
    pub fn new(at: Place, until: Place) -> HoldUntil {
        HoldUntil {
            at,
            until,
            arrived: AtomicBool::new(false),
            failed: AtomicBool::new(false),
        }
    }

    pub fn failed(&self) -> bool {
        self.failed.load(Ordering::SeqCst)
    }

    // Notes that somebody arrived at the place that is waited for.
    fn tell(&self, place: &Place) {
        if *place == self.until {
            self.arrived.store(true, Ordering::SeqCst);
        }
    }

    // Holds whoever arrived at its place.
    fn hold(&self, place: &Place) {
        if *place != self.at {
            return;
        }
        for _ in 0..MOST_TURNS {
            if self.arrived.load(Ordering::SeqCst) {
                return;
            }
            thread::yield_now();
        }
        self.failed.store(true, Ordering::SeqCst);
    }
}

impl Gate for HoldUntil {
    ghost lets_go = { λ gate worker place. Unit {0} };

    fn arrive(&self, _worker: usize, place: Place) {
        self.tell(&place);
        self.hold(&place);
    }
}

/// Three that hold one after another. Each is told before one holds.
#[derive(Drop)]
pub struct HoldThree {
    first: HoldUntil,
    second: HoldUntil,
    third: HoldUntil,
}

impl HoldThree {
    pub fn new(first: HoldUntil, second: HoldUntil, third: HoldUntil) -> HoldThree {
        HoldThree {
            first,
            second,
            third,
        }
    }

    pub fn failed(&self) -> bool {
        self.first.failed() || self.second.failed() || self.third.failed()
    }
}

impl Gate for HoldThree {
    ghost lets_go = { λ gate worker place. Unit {0} };

    fn arrive(&self, _worker: usize, place: Place) {
        self.first.tell(&place);
        self.second.tell(&place);
        self.third.tell(&place);
        self.first.hold(&place);
        self.second.hold(&place);
        self.third.hold(&place);
    }
}

/// Holds each of sixteen workers once it has taken a job, until all sixteen have, each with a number of its own from
/// 0 to 15.
#[derive(Drop)]
pub struct SixteenTake {
    // the sum of the powers of two to the numbers of those that arrived
    arrived: AtomicU64,
    failed: AtomicBool,
}

impl SixteenTake {
    pub fn new() -> SixteenTake {
        SixteenTake {
            arrived: AtomicU64::new(0),
            failed: AtomicBool::new(false),
        }
    }

    pub fn failed(&self) -> bool {
        self.failed.load(Ordering::SeqCst)
    }
}

impl Gate for SixteenTake {
    ghost lets_go = { λ gate worker place. Unit {0} };

    fn arrive(&self, worker: usize, place: Place) {
        if place != Place::Taken {
            return;
        }
        if worker < 16 {
            self.arrived.fetch_add(1 << worker, Ordering::SeqCst);
        }
        for _ in 0..MOST_TURNS {
            if self.arrived.load(Ordering::SeqCst) == 65_535 {
                return;
            }
            thread::yield_now();
        }
        self.failed.store(true, Ordering::SeqCst);
    }
}
