//! Places for bundles: one in memory, and one that keeps none.

ghost use Rattle.std.specs.Prelude.{◌≡◌, ◌<◌, [], Err};

use crate::bundles::Bundles;
use sgt_pipe::{Handed, HandedBundle, KeepFault, Refusals};
use std::alloc::Global;

/// Bundles in memory, numbered from 1. It refuses one, if it is told so, at one of its calls.
#[derive(Drop)]
pub struct MemBundles {
    alloc: Global,
    texts: Vec<Vec<u8>>,
    calls: u64,
    refuse_at: u64,
    handed: Handed,
    refusals: Refusals,
}

impl MemBundles {
    /// No bundle. The call of number `refuse_at`, counted from 1, is refused; 0 is none.
    pub fn new(alloc: Global, refuse_at: u64) -> MemBundles
        ensures { (result.handed.items ≡ []) × (result.handed.answers ≡ []) }
    {
        MemBundles {
            alloc,
            texts: Vec::new(alloc),
            calls: 0,
            refuse_at,
            handed: Handed::new(),
            refusals: Refusals::new(),
        }
    }

    /// The texts that it keeps.
    pub fn texts(&self) -> &[Vec<u8>]
        ensures { result.now ≡ self.now.texts.items }
    {
        self.texts.as_slice()
    }

    // Keeps a copy of the text, if it may, and tells how many there are then.
    fn copy(&mut self, text: &[u8]) -> Result<u64, KeepFault>
        ensures handed { self.new.handed ≡ self.old.handed }
        ensures memory { result ≡ Err KeepFault.Memory → self.old.refusals < self.new.refusals }
    {
        self.calls = self.calls.saturating_add(1);
        if self.calls == self.refuse_at {
            return Err(KeepFault::Refused);
        }
        let Ok(kept) = Vec::from_slice(self.alloc, text) else {
            self.refusals.note();
            return Err(KeepFault::Memory);
        };
        match self.texts.push(kept) {
            Ok(()) => Ok(self.texts.len() as u64),
            Err(_) => {
                self.refusals.note();
                Err(KeepFault::Memory)
            }
        }
    }
}

impl Bundles for MemBundles {
    ghost handed = { λ b. b.handed };

    ghost refusals = { λ b. b.refusals };

    fn keep(&mut self, text: &[u8]) -> Result<u64, KeepFault> {
        let answer = self.copy(text);
        self.handed = self.handed.with(&HandedBundle { text, answer });
        answer
    }
}

/// Keeps no bundle, and counts them from 1. It refuses none before number 2^64 - 1, and all from there on.
#[derive(Drop)]
pub struct NoBundles {
    count: u64,
    handed: Handed,
}

impl NoBundles {
    /// No bundle so far.
    pub fn new() -> NoBundles
        ensures { (result.handed.items ≡ []) × (result.handed.answers ≡ []) }
    {
        NoBundles {
            count: 0,
            handed: Handed::new(),
        }
    }
}

impl Bundles for NoBundles {
    ghost handed = { λ b. b.handed };

    // none: it takes no memory
    ghost refusals = { λ _. 0 };

    fn keep(&mut self, text: &[u8]) -> Result<u64, KeepFault> {
        let answer = match self.count.checked_add(1) {
            Some(number) => Ok(number),
            None => Err(KeepFault::Refused),
        };
        self.count = self.count.saturating_add(1);
        self.handed = self.handed.with(&HandedBundle { text, answer });
        answer
    }
}
