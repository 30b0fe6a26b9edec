//! The work of a pool's tests.

ghost use Rattle.std.specs.Prelude.{◌≡◌};

use crate::gates::HoldUntil;
use sgt_names::SiteNo;
use sgt_workers::{Done, Gate, Job, Place, Work};
use std::alloc::{AllocError, Global};
use std::sync::Wait;
use std::sync::atomic::{AtomicU64, Ordering};
use std::thread;

/// A script of the tests.
#[derive(Clone, Copy)]
pub enum Errand {
    /// Answers this value as a read at the site.
    Read(SiteNo, u64),
    /// Fails after it arrived behind a read of this site.
    Fail(SiteNo),
    /// Asks for more memory than there is.
    Grow,
}

/// How an errand fails.
#[derive(Clone, Copy, Debug, PartialEq, Eq)]
pub enum Mishap {
    Failed(u64),
    Memory,
}

/// Runs errands, and counts the calls that began and those that ended.
#[derive(Drop)]
pub struct Clerk<'a> {
    alloc: Global,
    gate: &'a HoldUntil,
    begun: AtomicU64,
    ended: AtomicU64,
}

impl<'a> Clerk<'a> {
    pub fn new(alloc: Global, gate: &'a HoldUntil) -> Clerk<'a> {
        Clerk {
            alloc,
            gate,
            begun: AtomicU64::new(0),
            ended: AtomicU64::new(0),
        }
    }

    /// How many calls began, and how many ended.
    pub fn calls(&self) -> (u64, u64) {
        (
            self.begun.load(Ordering::SeqCst),
            self.ended.load(Ordering::SeqCst),
        )
    }

    fn reads(&self, worker: usize, script: Errand, number: u64) -> Result<Vec<u64>, Mishap> {
        match script {
            Errand::Read(site, value) => {
                self.gate.arrive(worker, Place::InRead(site));
                self.gate.arrive(worker, Place::AfterRead(site));
                one_read(self.alloc, value).map_err(|_| Mishap::Memory)
            }
            Errand::Fail(site) => {
                self.gate.arrive(worker, Place::AfterRead(site));
                Err(Mishap::Failed(number))
            }
            Errand::Grow => Vec::with_capacity(self.alloc, 1 << 58).map_err(|_| Mishap::Memory),
        }
    }
}

impl<'a> Work<usize, Errand, Mishap> for Clerk<'a> {
    ghost answers = { λ clerk number errand done. Unit {0} };

    ghost faults = { λ clerk number errand mishap. Unit {0} };

    ghost keeps = { λ s t. Unit {0} };

    ghost does = { λ clerk s number errand done t. t ≡ s };

    fn work<R: Wait>(
        &self,
        _rt: &R,
        worker: &mut usize,
        job: Job<&Errand>,
    ) -> Result<Done, Mishap> {
        self.begun.fetch_add(1, Ordering::SeqCst);
        let reads = self.reads(*worker, *job.script, job.number);
        for _ in 0..100 {
            thread::yield_now();
        }
        self.ended.fetch_add(1, Ordering::SeqCst);
        Ok(Done {
            job: job.number,
            tickets: Vec::new(self.alloc),
            reads: reads?,
        })
    }

    ghost keeps_same = { λ s. tt };

    ghost keeps_on = { λ r s t a b. tt };
}

fn one_read(alloc: Global, value: u64) -> Result<Vec<u64>, AllocError> {
    Vec::from_slice(alloc, &[value])
}
