//! The queue of jobs: their numbers in rising order, and then a stop for each worker. The front is taken.

ghost use Rattle.std.specs.Prelude.{◌≡◌, ◌+◌, ◌-◌, ◌<◌, ◌≤◌, length, IfNone, IfSome, IfOk, Some, slice_get, ⊤, true};
ghost use Rattle.std.specs.List.{All};
ghost use Rattle.crossbeam_channel.specs.Claims.{view, IsSeatAt};
ghost use Rattle.crossbeam_channel.specs.Ends.{sends_on, receives_on, ruled_capacity};
ghost use Rattle.sgt_workers.specs.Queue.{sender_of, newcomer, lender, spent_hold, with_job, with_stop, took, at_stop, joined};
ghost use Rattle.sgt_workers.specs.Queue.{IsFilled, Kept, Takes, AreAll, HasRoom};

use crate::work::Job;
use crossbeam_channel::protocol::{Join, Lesson, Outcome, Protocol, Split};
use crossbeam_channel::{Pass, RuledReceiver, RuledSender, bounded_with};
use std::alloc::{AllocError, Global};
use std::collections::LinkedList;
use std::sync::Wait;

/// What a worker takes from the queue.
#[derive(Drop)]
pub enum Task {
    /// The job of this number, from 1.
    Run(u64),
    /// There are no more jobs for this worker.
    Stop,
}

/// What a pass to the queue knows: whether it is the sender's, how many jobs and stops it knows to be sent, the
/// numbers of the jobs that it took, whether it took a stop, how many passes were cut from it that were not joined to
/// it again, and whether it is one of those (1 or 0). No value of it is made.
pub struct Hold {
    pub sends: bool,
    pub sent: u64,
    pub stops: u64,
    pub taken: LinkedList<u64>,
    pub stopped: bool,
    pub lent: u64,
    pub out: u64,
}

/// The rule of the queue: the numbers go up by one, the stops come last, the front is taken, and each job once.
pub struct Rising;

impl Protocol<Task, Hold> for Rising {
    ghost holds = { Kept };

    ghost first = { sender_of 0 0 };
}

/// A worker's pass is cut from the sender's, and joined to it again.
pub struct ForWorker;

impl Split<Hold> for ForWorker {
    ghost left = { lender 1 };

    ghost right = { newcomer };
}

impl Join<Hold> for ForWorker {
    ghost both = { joined };

    ghost spent = { spent_hold };
}

/// The next job is sent.
pub struct SendsJob;

impl Outcome<Task, Hold> for SendsJob {
    ghost then = { λ v x w. w ≡ with_job v };
}

impl Lesson<Task, Hold> for SendsJob {
    ghost fact = { λ v items. ⊤ };
}

/// A stop is sent.
pub struct SendsStop;

impl Outcome<Task, Hold> for SendsStop {
    ghost then = { λ v x w. w ≡ with_stop v };
}

impl Lesson<Task, Hold> for SendsStop {
    ghost fact = { λ v items. ⊤ };
}

/// The front is taken.
pub struct TakesFront;

impl Outcome<Task, Hold> for TakesFront {
    ghost then = { Takes };
}

impl Lesson<Task, Hold> for TakesFront {
    ghost fact = { λ v items. ⊤ };
}

/// What a pass knows to be taken are all jobs, each once.
pub struct TakenAll;

impl Lesson<Task, Hold> for TakenAll {
    ghost fact = { λ v items. AreAll v.sent v.taken };
}

pub type Sender = RuledSender<Task, Hold, Rising>;

pub type Receiver = RuledReceiver<Task, Hold, Rising>;

pub type QueuePass = Pass<Task, Hold>;

/// The two ends of a queue with room for this many tasks, and the sender's pass.
pub fn open(alloc: Global, capacity: usize) -> Result<(Sender, Receiver, QueuePass), AllocError>
    requires { 0 < capacity }
    ensures ends { IfOk result (λ r. receives_on r.1 ≡ sends_on r.0) }
    ensures pass { IfOk result (λ r. IsSeatAt (sends_on r.0) r.2 × (view r.2 ≡ sender_of 0 0)) }
    ensures room { IfOk result (λ r. ruled_capacity (sends_on r.0) ≡ capacity) }
{
    bounded_with::<Task, Hold, Rising, Global>(alloc, capacity)
}

/// A pass for one more worker.
pub fn cut(sender: &Sender, pass: &mut QueuePass) -> QueuePass
    requires { IsSeatAt (sends_on sender.now) pass.old × ((view pass.old).sends ≡ true) }
    ensures old { IsSeatAt (sends_on sender.now) pass.new
        × (view pass.new ≡ lender 1 (view pass.old)) }
    ensures new { IsSeatAt (sends_on sender.now) result × (view result ≡ newcomer (view pass.old)) }
{
    sender.another::<ForWorker>(pass)
}

/// Takes in what a worker's pass knows.
pub fn join(sender: &Sender, pass: &mut QueuePass, other: QueuePass)
    requires seats { IsSeatAt (sends_on sender.now) pass.old × IsSeatAt (sends_on sender.now) other }
    requires sends { (view pass.old).sends ≡ true }
    requires out { (view other).lent ≤ (view pass.old).out }
    ensures seat { IsSeatAt (sends_on sender.now) pass.new }
    ensures both { view pass.new ≡ joined (view pass.old) (view other) }
{
    sender.absorb::<ForWorker>(pass, other)
}

/// Once all passes that were cut are joined again, and a stop was taken: the sender's pass knows each job that was
/// sent to be taken, once.
pub fn learn_all(sender: &Sender, pass: &mut QueuePass)
    requires seat { IsSeatAt (sends_on sender.now) pass.old × ((view pass.old).sends ≡ true) }
    requires none_out { (view pass.old).out ≡ 0 }
    requires stopped { (view pass.old).stopped ≡ true }
    ensures same { view pass.new ≡ view pass.old }
    ensures all { AreAll (view pass.old).sent (view pass.old).taken }
{
    sender.learn_as::<TakenAll>(pass)
}

/// Sends the jobs 1 to `jobs` and then a stop for each worker. The queue has room for all of them, and its receiver
/// stands.
pub fn fill<R: Wait>(rt: &R, sender: &Sender, pass: &mut QueuePass, jobs: u64, workers: usize)
    requires seat { IsSeatAt (sends_on sender.now) pass.old }
    requires view { view pass.old ≡ sender_of 0 0 }
    requires room { HasRoom (jobs + workers) (ruled_capacity (sends_on sender.now)) }
    ensures seat { IsSeatAt (sends_on sender.now) pass.new }
    ensures sent { view pass.new ≡ sender_of jobs workers }
{
    send_jobs(rt, sender, pass, jobs);
    send_stops(rt, sender, pass, workers);
}

fn send_jobs<R: Wait>(rt: &R, sender: &Sender, pass: &mut QueuePass, jobs: u64)
    requires seat { IsSeatAt (sends_on sender.now) pass.old }
    requires view { view pass.old ≡ sender_of 0 0 }
    ensures seat { IsSeatAt (sends_on sender.now) pass.new }
    ensures sent { view pass.new ≡ sender_of jobs 0 }
{
    for k in 0..jobs {
        send_job(rt, sender, pass, k + 1);
    }
}

fn send_stops<R: Wait>(rt: &R, sender: &Sender, pass: &mut QueuePass, workers: usize)
    requires seat { IsSeatAt (sends_on sender.now) pass.old }
    requires view { view pass.old ≡ sender_of (view pass.old).sent 0 }
    ensures seat { IsSeatAt (sends_on sender.now) pass.new }
    ensures sent { view pass.new ≡ sender_of (view pass.old).sent workers }
{
    for _k in 0..workers {
        send_stop(rt, sender, pass);
    }
}

// Sends the next job. A queue without a receiver would take none: it is waited for.
fn send_job<R: Wait>(rt: &R, sender: &Sender, pass: &mut QueuePass, number: u64)
    requires seat { IsSeatAt (sends_on sender.now) pass.old }
    requires sends { ((view pass.old).sends ≡ true) × ((view pass.old).stops ≡ 0) }
    requires next { number ≡ (view pass.old).sent + 1 }
    ensures seat { IsSeatAt (sends_on sender.now) pass.new }
    ensures sent { view pass.new ≡ with_job (view pass.old) }
{
    for _ in rt.forever() {
        if let Ok(()) = sender.send_as::<SendsJob, R>(rt, pass, Task::Run(number)) {
            return;
        }
    }
    unreachable!()
}

fn send_stop<R: Wait>(rt: &R, sender: &Sender, pass: &mut QueuePass)
    requires seat { IsSeatAt (sends_on sender.now) pass.old }
    requires sends { (view pass.old).sends ≡ true }
    ensures seat { IsSeatAt (sends_on sender.now) pass.new }
    ensures sent { view pass.new ≡ with_stop (view pass.old) }
{
    for _ in rt.forever() {
        if let Ok(()) = sender.send_as::<SendsStop, R>(rt, pass, Task::Stop) {
            return;
        }
    }
    unreachable!()
}

/// Takes the front: the next job, or None at a stop.
pub fn take_job<'a, C, R: Wait>(
    rt: &R,
    receiver: &Receiver,
    pass: &mut QueuePass,
    scripts: &'a [C],
) -> Option<Job<&'a C>>
    requires seat { IsSeatAt (receives_on receiver.now) pass.old }
    requires filled { IsFilled (length scripts.now) (view pass.old) }
    requires lent { (view pass.old).lent ≡ 1 }
    ensures seat { IsSeatAt (receives_on receiver.now) pass.new }
    ensures job { IfSome result (λ j. view pass.new ≡ took j.number (view pass.old)) }
    ensures rising { IfSome result
        (λ j. (0 < j.number) × All (λ n. n < j.number) (view pass.old).taken) }
    ensures script { IfSome result (λ j. slice_get scripts.now (j.number - 1) ≡ Some j.script.now) }
    ensures stop { IfNone result (view pass.new ≡ at_stop (view pass.old)) }
{
    let Task::Run(number) = take(rt, receiver, pass) else {
        return None;
    };
    let script = &scripts[(number - 1) as usize];
    Some(Job { number, script })
}

// Takes the front. An empty queue is no answer: a worker takes until its stop.
fn take<R: Wait>(rt: &R, receiver: &Receiver, pass: &mut QueuePass) -> Task
    requires seat { IsSeatAt (receives_on receiver.now) pass.old }
    requires lent { (view pass.old).lent ≡ 1 }
    ensures seat { IsSeatAt (receives_on receiver.now) pass.new }
    ensures front { Takes (view pass.old) result (view pass.new) }
{
    for _ in rt.forever() {
        if let Ok(task) = receiver.recv_as::<TakesFront, R>(rt, pass) {
            return task;
        }
    }
    unreachable!()
}
