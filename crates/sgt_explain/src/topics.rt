//! What can be asked about by name.

ghost use Rattle.std.specs.Prelude.{◌≡◌, ◌≢◌, ◌↔◌, IfSome, IfNone, IsTrue};
ghost use Rattle.sgt_audit.specs.declared.faults.Fault.{Fault};
ghost use Rattle.sgt_bundle.specs.declared.fault.CertFault.{CertFault};
ghost use Rattle.sgt_explain.specs.declared.topics.Anomaly.{Anomaly};
ghost use Rattle.sgt_explain.specs.declared.topics.Reply.{Reply};
ghost use Rattle.sgt_explain.specs.Topics.{HasNeither, HasSessions, HasTimes, anomaly_name, fault_name, line_name, reply_name, topic_name};

use sgt_audit::Fault;
use sgt_bundle::CertFault;

/// What a replay tells of an event, and a replay or a run of its input or of itself; why logs have no certificate.
#[derive(Clone, Copy, Debug, PartialEq, Eq)]
pub enum Reply {
    /// E1 to E12: why an event is refused.
    Unknown,
    Ended,
    StepOpen,
    UnknownItem,
    NotDecided,
    AlreadyDone,
    WindowFull,
    ActiveLeft,
    Memory,
    GenerationsSpent,
    NumbersSpent,
    NotTouched,
    /// L1 to L3: why a line can't be read.
    NotALine,
    TooLong,
    IdRepeated,
    /// C1: a bundle doesn't go on where the one before it ended.
    ChainBroken,
    /// V1 to V10 and P1 to P3: why a run isn't told. V3, V5, P1 and P3 are never written.
    NoDecision,
    DecidedTwice,
    RunMemory,
    CallRefused,
    SumTooLarge,
    NoTicket,
    PledgeLost,
    TicketsFall,
    LogChanged,
    VersionsChanged,
    PoolMemory,
    ScriptLeft,
    ScriptRepeated,
    /// Why logs have no certificate; NoOrder also of an order that is given for a history.
    NoOrder,
    NoRanks,
    NoWalk,
}

/// What a history of a database can have, by the names of the field.
#[derive(Clone, Copy, Debug, PartialEq, Eq)]
pub enum Anomaly {
    /// Faults of a line.
    Internal,
    Duplicate,
    AbortedRead,
    Unwritten,
    IntermediateRead,
    Value,
    /// Cycles of conflicts.
    WriteCycle,
    CircularFlow,
    SingleAntiDependency,
    ItemAntiDependency,
    /// Cycles with steps of sessions, and with steps of time.
    ProcessFlow,
    ProcessSingle,
    ProcessItem,
    RealTimeFlow,
    RealTimeSingle,
    RealTimeItem,
}

/// A rule that can be asked about: of a fault of a bundle, F1 to F19, or of why a line is no certificate, K1 to K4;
/// what a reply of a replay, a run or a service says; or an anomaly of a history.
#[derive(Clone, Copy, Debug, PartialEq, Eq)]
pub enum Topic {
    /// The rule of a bundle that this fault breaks.
    Bundle(Fault),
    /// The rule of line 2 that is broken so.
    Line(CertFault),
    /// What is told so.
    Told(Reply),
    /// What a history has.
    Found(Anomaly),
}

/// The fault of a bundle with this name.
fn fault_of(word: &[u8]) -> Option<Fault>
    ensures some { IfSome result (λ f. word.now ≡ fault_name f) }
    ensures none { IfNone result ((f : Fault) → word.now ≢ fault_name f) }
{
    match word {
        b"F1" => Some(Fault::Format),
        b"F2" => Some(Fault::Notation),
        b"F3" => Some(Fault::Certificate),
        b"F4" => Some(Fault::Ranks),
        b"F5" => Some(Fault::DecidedTwice),
        b"F6" => Some(Fault::WalkShape),
        b"F7" => Some(Fault::Section),
        b"F8" => Some(Fault::Item),
        b"F9" => Some(Fault::Twice),
        b"F10" => Some(Fault::ReadValue),
        b"F11" => Some(Fault::RankOrder),
        b"F12" => Some(Fault::Block),
        b"F13" => Some(Fault::End),
        b"F14" => Some(Fault::DecisionOrder),
        b"F15" => Some(Fault::NotEnded),
        b"F16" => Some(Fault::Final),
        b"F17" => Some(Fault::WalkStep),
        b"F18" => Some(Fault::Truncated),
        b"F19" => Some(Fault::Trailing),
        _ => None,
    }
}

/// The fault of line 2 with this name.
fn line_fault_of(word: &[u8]) -> Option<CertFault>
    ensures some { IfSome result (λ f. word.now ≡ line_name f) }
    ensures none { IfNone result ((f : CertFault) → word.now ≢ line_name f) }
{
    match word {
        b"K1" => Some(CertFault::NotJson),
        b"K2" => Some(CertFault::Shape),
        b"K3" => Some(CertFault::Range),
        b"K4" => Some(CertFault::Memory),
        _ => None,
    }
}

/// The reply of a replay or of a run with this name.
fn reply_of(word: &[u8]) -> Option<Reply>
    ensures some { IfSome result (λ r. word.now ≡ reply_name r) }
    ensures none { IfNone result ((r : Reply) → word.now ≢ reply_name r) }
{
    match word {
        b"E1" => Some(Reply::Unknown),
        b"E2" => Some(Reply::Ended),
        b"E3" => Some(Reply::StepOpen),
        b"E4" => Some(Reply::UnknownItem),
        b"E5" => Some(Reply::NotDecided),
        b"E6" => Some(Reply::AlreadyDone),
        b"E7" => Some(Reply::WindowFull),
        b"E8" => Some(Reply::ActiveLeft),
        b"E9" => Some(Reply::Memory),
        b"E10" => Some(Reply::GenerationsSpent),
        b"E11" => Some(Reply::NumbersSpent),
        b"E12" => Some(Reply::NotTouched),
        b"L1" => Some(Reply::NotALine),
        b"L2" => Some(Reply::TooLong),
        b"L3" => Some(Reply::IdRepeated),
        b"C1" => Some(Reply::ChainBroken),
        b"V1" => Some(Reply::NoDecision),
        b"V2" => Some(Reply::DecidedTwice),
        b"V3" => Some(Reply::RunMemory),
        b"V4" => Some(Reply::CallRefused),
        b"V5" => Some(Reply::SumTooLarge),
        b"V6" => Some(Reply::NoTicket),
        b"V7" => Some(Reply::PledgeLost),
        b"V8" => Some(Reply::TicketsFall),
        b"V9" => Some(Reply::LogChanged),
        b"V10" => Some(Reply::VersionsChanged),
        b"P1" => Some(Reply::PoolMemory),
        b"P2" => Some(Reply::ScriptLeft),
        b"P3" => Some(Reply::ScriptRepeated),
        b"no order" => Some(Reply::NoOrder),
        b"no ranks" => Some(Reply::NoRanks),
        b"no walk" => Some(Reply::NoWalk),
        _ => None,
    }
}

fn is_bytes(word: &[u8], other: &[u8]) -> bool
    ensures { IsTrue result ↔ (word.now ≡ other.now) }
{
    word == other
}

/// The anomaly with this name, of those with steps of sessions.
fn process_of(word: &[u8]) -> Option<Anomaly>
    ensures some { IfSome result (λ a. word.now ≡ anomaly_name a) }
    ensures none { IfNone result ((a : Anomaly) → HasSessions a → word.now ≢ anomaly_name a) }
{
    if is_bytes(word, b"G1c-process") {
        return Some(Anomaly::ProcessFlow);
    }
    if is_bytes(word, b"G-single-process") {
        return Some(Anomaly::ProcessSingle);
    }
    if is_bytes(word, b"G2-item-process") {
        return Some(Anomaly::ProcessItem);
    }
    None
}

/// The anomaly with this name, of those with steps of time.
fn real_time_of(word: &[u8]) -> Option<Anomaly>
    ensures some { IfSome result (λ a. word.now ≡ anomaly_name a) }
    ensures none { IfNone result ((a : Anomaly) → HasTimes a → word.now ≢ anomaly_name a) }
{
    if is_bytes(word, b"G1c-realtime") {
        return Some(Anomaly::RealTimeFlow);
    }
    if is_bytes(word, b"G-single-realtime") {
        return Some(Anomaly::RealTimeSingle);
    }
    if is_bytes(word, b"G2-item-realtime") {
        return Some(Anomaly::RealTimeItem);
    }
    None
}

/// The anomaly with this name, of the others.
fn plain_of(word: &[u8]) -> Option<Anomaly>
    ensures some { IfSome result (λ a. word.now ≡ anomaly_name a) }
    ensures none { IfNone result ((a : Anomaly) → HasNeither a → word.now ≢ anomaly_name a) }
{
    match word {
        b"internal" => Some(Anomaly::Internal),
        b"duplicate" => Some(Anomaly::Duplicate),
        b"G1a" => Some(Anomaly::AbortedRead),
        b"unwritten" => Some(Anomaly::Unwritten),
        b"G1b" => Some(Anomaly::IntermediateRead),
        b"value" => Some(Anomaly::Value),
        b"G0" => Some(Anomaly::WriteCycle),
        b"G1c" => Some(Anomaly::CircularFlow),
        b"G-single" => Some(Anomaly::SingleAntiDependency),
        b"G2-item" => Some(Anomaly::ItemAntiDependency),
        _ => None,
    }
}

/// The anomaly with this name.
fn anomaly_of(word: &[u8]) -> Option<Anomaly>
    ensures some { IfSome result (λ a. word.now ≡ anomaly_name a) }
    ensures none { IfNone result ((a : Anomaly) → word.now ≢ anomaly_name a) }
{
    if let Some(anomaly) = plain_of(word) {
        return Some(anomaly);
    }
    if let Some(anomaly) = process_of(word) {
        return Some(anomaly);
    }
    real_time_of(word)
}

/// The rule of a bundle or of its second line with this name.
fn rule(word: &[u8]) -> Option<Topic>
    ensures some { IfSome result (λ topic. word.now ≡ topic_name topic) }
    ensures none { IfNone result
        (((f : Fault) → word.now ≢ fault_name f) × ((f : CertFault) → word.now ≢ line_name f)) }
{
    if let Some(fault) = fault_of(word) {
        return Some(Topic::Bundle(fault));
    }
    match line_fault_of(word) {
        Some(fault) => Some(Topic::Line(fault)),
        None => None,
    }
}

impl Topic {
    ghost use Rattle.std.specs.Prelude.{◌≡◌, ◌≢◌, IfSome, IfNone};
    ghost use Rattle.sgt_explain.specs.declared.topics.Topic.{Topic as Named};
    ghost use Rattle.sgt_explain.specs.Topics.{topic_name};

    /// The topic of this name: `F1` to `F19`, `K1` to `K4`; `E1` to `E12`, `L1` to `L3`, `V1` to `V10`, `P1` to `P3`,
    /// `C1`; `no order`, `no ranks`, `no walk`; `internal` to `G2-item`, and those of cycles with `-process` or
    /// `-realtime`. Names are compared byte by byte. None where no topic has the name.
    pub fn find(word: &str) -> Option<Topic>
        ensures some { IfSome result (λ topic. word.now ≡ topic_name topic) }
        ensures none { IfNone result ((topic : Named) → word.now ≢ topic_name topic) }
    {
        let name = word.as_bytes();
        if let Some(topic) = rule(name) {
            return Some(topic);
        }
        if let Some(reply) = reply_of(name) {
            return Some(Topic::Told(reply));
        }
        match anomaly_of(name) {
            Some(anomaly) => Some(Topic::Found(anomaly)),
            None => None,
        }
    }
}
