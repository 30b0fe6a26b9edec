//! The explanation of all that a reader gives.

ghost use Rattle.std.specs.Prelude.{◌≡◌, ◌≢◌, ◌<◌, ◌-◌, ◌++◌, ℕ, List, length, Err, IfOk, IfSome, OnOk, OnErr};
ghost use Rattle.std.specs.Io.KnownBytes.{Appends};
ghost use Rattle.sgt_names.specs.Device.{CountsFailures, WritesFront};
ghost use Rattle.sgt_devices.specs.Devices.{LeavesKeptReader, LeavesWriter};
ghost use Rattle.sgt_audit.specs.Faults.{BeginsNoneBehind, ReadsNoFurther};
ghost use Rattle.sgt_audit.specs.Verdict.{IsVerdict};
ghost use Rattle.sgt_explain.specs.Explained.{WroteExplained, WroteExplainedBy, WroteExplainedByFront, WroteExplainedOf, WroteExplainedFront};
ghost use Rattle.sgt_explain.specs.Topics.{topic_name, IsRuleOf};

use crate::answers::answer_to;
use crate::asked::{Asked, Explained};
use crate::front::{Front, read_front};
use crate::rules::rule_of;
use crate::topics::Topic;
use sgt_names::{EngineFail, Failed, Outcome, Sink, Source, write_all};
use std::alloc::Global;

/// Writes two texts, one behind the other. An Err is the writer's, as in `write_all`.
fn write_both<W: Sink>(writer: &mut W, first: &[u8], second: &[u8]) -> Result<(), Failed>
    ensures ok { OnOk result
        (Appends (W.holds writer.old) (W.holds writer.new) (first.now ++ second.now)) }
    ensures err { OnErr result
        (WritesFront (W.holds writer.old) (W.holds writer.new) (first.now ++ second.now)) }
    ensures fails { CountsFailures result (W.failures writer.old) (W.failures writer.new) }
{
    match write_all(writer, first) {
        Ok(()) => write_all(writer, second),
        Err(failed) => Err(failed),
    }
}

/// Explains a front that was read with its verdict (`read_judged`), as `explain` does. Memory where a growth was refused:
/// nothing was written. WriteFault where the writer failed: a front of the answer may have been written.
pub fn explain_front<W: Sink>(
    alloc: Global,
    asked: Asked,
    front: &Front,
    writer: &mut W,
) -> Result<Explained, EngineFail>
    requires { IsVerdict front.now.text.items front.now.verdict }
    ensures answer { IfOk result (λ explained. WroteExplainedBy asked front.now.text.items front.now.verdict
        explained (W.holds writer.old) (W.holds writer.new)) }
    ensures front { OnErr result (WroteExplainedByFront asked front.now.text.items front.now.verdict
        (W.holds writer.old) (W.holds writer.new)) }
    ensures no_read { result ≢ Err EngineFail.ReadFault }
    ensures writer { LeavesWriter W.failures result writer.old writer.new }
{
    let answer = answer_to(alloc, front.text.as_slice(), front.verdict, asked)?;
    match write_both(writer, answer.line.as_bytes(), answer.meaning.as_bytes()) {
        Ok(()) => Ok(answer.explained),
        Err(_) => Err(EngineFail::WriteFault),
    }
}

/// Explains what the reader gives: first the verdict's line as `audit` writes it, and behind it what the verdict
/// means. Of a no that are ten lines at most: the rule, the lines concerned, what was found and what is wanted. Of a
/// yes refused transactions with their cycles, every step with its site, its item, its kind in words and its two
/// lines: the first hundred, and how many more there are, or all. What is read is kept in memory. Once a line with a
/// fault was read whole, no further read is made, and nothing behind that line is looked at.
///
/// Of a transaction that is asked for, in place of the cycles of a yes and behind what a no means, what it did: its
/// decision and rank, or the cycle where it was refused, its entries at each site with their lines, and whom it is in
/// conflict with, in which direction. Of a text with a fault by line 2, unless line 1 has it, and the lines of logs
/// before that.
///
/// ReadFault where the reader failed, or too many reads were needed (`MOST_READS` of sgt_names), and Memory where a
/// growth was refused: nothing was written. WriteFault where the writer failed: a front of the answer may have been
/// written.
pub fn explain<R: Source, W: Sink>(
    alloc: Global,
    asked: Asked,
    reader: &mut R,
    writer: &mut W,
) -> Result<Explained, EngineFail>
    ensures answer { IfOk result
        (λ explained. WroteExplained (R.tells reader.old) explained.outcome (W.holds writer.old)
        (W.holds writer.new)) }
    ensures asked { IfOk result
        (λ explained. WroteExplainedOf asked (R.tells reader.old) explained (W.holds writer.old)
        (W.holds writer.new)) }
    ensures no_further { IfOk result (λ _. IfSome (R.tells reader.old) (λ bytes.
        ReadsNoFurther bytes (R.asked reader.new - R.asked reader.old))) }
    ensures none_behind { IfOk result (λ _. IfSome (R.tells reader.old) (λ bytes. IfSome (R.tells reader.new)
        (λ left. BeginsNoneBehind bytes (length left) (R.last reader.new)))) }
    ensures front { OnErr result
        (WroteExplainedFront (R.tells reader.old) (W.holds writer.old) (W.holds writer.new)) }

    // A fault tells of its device, and no fault of a device is passed over.
    ensures reader { LeavesKeptReader R.tells R.failures result reader.old reader.new }
    ensures writer { LeavesWriter W.failures result writer.old writer.new }
{
    let front = read_front(alloc, reader)?;
    explain_front(alloc, asked, &front, writer)
}

/// Writes the rule of the topic, with an example of a line that breaks it. WriteFault where the writer failed: a
/// front of the text may have been written.
pub fn explain_topic<W: Sink>(topic: Topic, writer: &mut W) -> Result<Outcome, EngineFail>
    ensures ok { IfOk result (λ outcome. outcome ≡ Outcome.Yes) }
    ensures text { OnOk result
        ((text : List ℕ) × Appends (W.holds writer.old) (W.holds writer.new) text) }
    ensures rule { OnOk result ((text : List ℕ) × IsRuleOf (topic_name topic) text
        × Appends (W.holds writer.old) (W.holds writer.new) text) }
    ensures front { OnErr result
        ((text : List ℕ) × WritesFront (W.holds writer.old) (W.holds writer.new) text) }
    ensures only { OnErr result (result ≡ Err EngineFail.WriteFault) }
    ensures write_fault { OnErr result (W.failures writer.old < W.failures writer.new) }
    ensures quiet_writer { OnOk result (W.failures writer.new ≡ W.failures writer.old) }
{
    match write_all(writer, rule_of(topic).as_bytes()) {
        Ok(()) => Ok(Outcome::Yes),
        Err(_) => Err(EngineFail::WriteFault),
    }
}
