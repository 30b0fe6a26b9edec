//! Line 2, judged by threads.

ghost use Rattle.std.specs.Prelude.{◌≡◌, Bool, List, ℕ, IfOk, IfSome};
ghost use Rattle.sgt_bundle.specs.Text.{IsCertificate, certificate_text};
ghost use Rattle.sgt_audit_workers.specs.Head.{IsHeadOf};
ghost use Rattle.sgt_audit_workers.specs.private.Judging.{IsFoundOf, IsOnceOf, WillFind, WillSay};

use crate::head::{Head, certificate_of, head_of};
use crate::rules::{Once, judge_once};
use sgt_audit::Fault;
use sgt_audit_decisions::Decided;
use sgt_bundle::Certificate;
use sgt_names::EngineFail;
use std::alloc::{AllocError, Global};
use std::snapshot::Snapshot;
use std::thread;
use std::thread::{Promise, PromisedHandle, Threads};

/// What a line 2 is found to be: that of a certificate in which no transaction is decided twice, to be judged by the
/// other rules; or what the first two lines say, or the fault, by all of them.
#[derive(Drop)]
pub enum Found {
    Once(Once),
    Judged(Result<Head, Fault>),
}

/// A line with as many bytes is long: only then are threads worth their start.
pub const LONG: usize = 65_536;

/// A line 2, once it is read.
#[derive(Drop)]
pub struct Reading {
    line: Vec<u8>,
    found: Result<Found, EngineFail>,
}

/// A line 2 that a thread was given, as clauses see it, and whether line 1 says the second format.
#[derive(Drop)]
pub struct Given {
    second: bool,
    line: Snapshot<Vec<u8>>,
}

impl Promise<Reading> for Given {
    ghost kept_by = { λ given reading. IsFoundOf given.second given.line.value.items reading.found };
}

/// A line 2 that a thread reads; or that was read here, where no thread could be made. It is not `Drop`, so it can't
/// be let go but by
/// `wait`.
pub enum Underway {
    There(PromisedHandle<Reading, Given>),
    Here(Reading),
}

/// A line 2 that is read, to be judged, and whether line 1 says the second format. It ends by `finish` alone.
pub struct Judging {
    second: bool,
    reading: Underway,
}

/// The certificate, if no transaction is decided twice in it.
fn once_of(alloc: Global, certificate: Certificate) -> Result<Option<Once>, AllocError>
    ensures { IfOk result (λ found. IfSome found (λ once. (line : List ℕ)
        → IsCertificate certificate × (line ≡ certificate_text certificate)
        → IsOnceOf line once)) }
{
    let sites = certificate.sites;
    match Decided::new(alloc, certificate)? {
        Some(certificate) => Ok(Some(Once { sites, certificate })),
        None => Ok(None),
    }
}

/// What the line is found to be by all rules, judged one after another.
fn judged_of(alloc: Global, second: bool, line: &[u8]) -> Result<Found, EngineFail>
    ensures { IsFoundOf second line.now result }
{
    match head_of(alloc, second, line) {
        Ok(judged) => Ok(Found::Judged(judged)),
        Err(e) => Err(e),
    }
}

/// What the line is found to be. A short one is judged at once. One where a transaction is decided twice is read once
/// more, for the least of its faults.
fn find(alloc: Global, second: bool, line: &[u8]) -> Result<Found, EngineFail>
    ensures { IsFoundOf second line.now result }
{
    if line.len() < LONG {
        return judged_of(alloc, second, line);
    }
    let certificate = match certificate_of(alloc, second, line)? {
        Ok(certificate) => certificate,
        Err(fault) => return Ok(Found::Judged(Err(fault))),
    };
    match once_of(alloc, certificate)? {
        Some(once) => Ok(Found::Once(once)),
        None => judged_of(alloc, second, line),
    }
}

/// Reads the line.
fn read(alloc: Global, second: bool, line: Vec<u8>) -> Reading
    ensures { IsFoundOf second line.items result.found }
{
    let found = find(alloc, second, line.as_slice());
    Reading { line, found }
}

/// Has the line read, in a thread of its own if one can be made.
fn start_reading<H: Threads>(rt: &H, alloc: Global, second: bool, line: Vec<u8>) -> Underway
    ensures { WillFind second line.items result }
{
    let given = Given {
        second,
        line: Snapshot::of(&line),
    };
    let read_there = move || -> Reading
        ensures { IsFoundOf second line.items result.found }
    { read(alloc, second, line) };
    match thread::spawn_with(rt, given, read_there) {
        Ok(handle) => Underway::There(handle),
        Err(refused) => Underway::Here((refused.value)()),
    }
}

/// Has line 2 read, to be judged.
pub fn start<H: Threads>(rt: &H, alloc: Global, second: bool, line: Vec<u8>) -> Judging
    ensures { WillSay second line.items result }
{
    let reading = start_reading(rt, alloc, second, line);
    Judging { second, reading }
}

/// Waits until the line is read.
fn wait<H: Threads>(rt: &H, reading: Underway) -> Reading
    ensures { (second : Bool) (line : List ℕ) → WillFind second line reading
        → IsFoundOf second line result.found }
{
    match reading {
        Underway::There(handle) => handle.join(rt),
        Underway::Here(reading) => reading,
    }
}

/// Waits until line 2 is read, and judges its certificate: what the first two lines say, by the second of them; or
/// its fault.
pub fn finish<H: Threads + Sync>(
    rt: &H,
    alloc: Global,
    judging: Judging,
) -> Result<Result<Head, Fault>, EngineFail>
    ensures { (second : Bool) (line : List ℕ) → WillSay second line judging
        → IsHeadOf second line result }
{
    let Judging { second, reading } = judging;
    let Reading { line, found } = wait(rt, reading);
    match found {
        Ok(Found::Once(once)) => judge_once(rt, alloc, second, once, line),
        Ok(Found::Judged(judged)) => Ok(judged),
        Err(e) => Err(e),
    }
}
