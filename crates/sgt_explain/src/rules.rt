//! The rules of a bundle, each with an example of a line that breaks it.

ghost use Rattle.sgt_explain.specs.Topics.{fault_name, line_name, topic_name, IsRuleOf};

use crate::anomalies::anomaly_rule;
use crate::replies::reply_rule;
use crate::topics::Topic;
use sgt_audit::Fault;
use sgt_bundle::CertFault;

const FORMAT: &str = "F1 Format\n\
    Line 1 is `sgt 1`, or `sgt 2`, under which there may be increments.\n\
    An example of the fault, at line 1:\n\
    \x20 sgt 3\n";

const NOTATION: &str = "F2 Notation\n\
    Each line from 3 to the last `end` has one of these forms, with no space, CR or zero too many:\n\
    \x20 site K   item NAME=NUM   final NAME=NUM   end   cTX   nTX   aTX\n\
    \x20 rTX[NAME]=NUM, and with w and p, under `sgt 2` also d and q, in the place of r\n\
    It has at most 1048576 bytes.\n\
    An example of the fault, at line 5:\n\
    \x20 r1[x]=05     a number has no leading zero\n";

const CERTIFICATE: &str = "F3 Certificate\n\
    Line 2 is a certificate: compact JSON with its keys in byte order, and nothing else.\n\
    \x20 {\"decisions\":[DECISION,..],\"sites\":N}     N from 1 to 64\n\
    A DECISION is {\"commit\":TX,\"rank\":R}, {\"refuse\":TX,\"walk\":[STEP,..]} or {\"withdraw\":TX}.\n\
    A STEP is {\"item\":\"NAME\",\"kind\":\"KIND\",\"site\":S,\"to\":TX}, where KIND is wr, rw or ww and S is below N.\n\
    K1, K2 and K3 say more: `sgt explain K1`.\n\
    An example of the fault, at line 2:\n\
    \x20 {\"decisions\": [], \"sites\": 1}     spaces\n";

const RANKS: &str = "F4 Ranks\n\
    The ranks of the n commits are 0 to n-1, each once.\n\
    An example of the fault, at line 2:\n\
    \x20 {\"decisions\":[{\"commit\":1,\"rank\":0},{\"commit\":2,\"rank\":2}],\"sites\":1}     nobody has rank 1\n";

const DECIDED_TWICE: &str = "F5 DecidedTwice\n\
    No transaction has two decisions.\n\
    An example of the fault, at line 2:\n\
    \x20 {\"decisions\":[{\"commit\":1,\"rank\":0},{\"withdraw\":1}],\"sites\":1}\n";

const WALK_SHAPE: &str = "F6 WalkShape\n\
    The walk of a refused transaction is a cycle: it has two steps or more, the last leads back to the transaction,\n\
    and the others lead to distinct transactions, each committed by a decision before the refusal.\n\
    An example of the fault, at line 2: 1 is committed behind the refusal\n\
    \x20 {\"decisions\":[{\"refuse\":2,\"walk\":[{\"item\":\"x\",\"kind\":\"rw\",\"site\":0,\"to\":1},\n\
    \x20 {\"item\":\"y\",\"kind\":\"rw\",\"site\":0,\"to\":2}]},{\"commit\":1,\"rank\":0}],\"sites\":1}     (one line)\n";

const SECTION: &str = "F7 Section\n\
    The section of a site is `site K`, its items by rising names (1024 at most), its entries, a final of each item in\n\
    the same order, and `end`. Sections stand from site 0 on, as many as the certificate says.\n\
    An example of the fault, at the last line:\n\
    \x20 site 0\n\
    \x20 item x=5\n\
    \x20 r1[x]=5\n\
    \x20 item y=2     items stand before the entries\n";

const ITEM: &str = "F8 Item\n\
    An entry is on an item of its own site. One name at two sites names two items.\n\
    An example of the fault, at the last line:\n\
    \x20 site 0\n\
    \x20 item alice=100\n\
    \x20 r1[alise]=100     there is no item alise\n";

const TWICE: &str = "F9 Twice\n\
    In one log a transaction reads an item once at most, and changes it or asks to once at most.\n\
    An example of the fault, at the last line:\n\
    \x20 r1[x]=5\n\
    \x20 w1[x]=6\n\
    \x20 w1[x]=7     a second change\n";

const READ_VALUE: &str = "F10 ReadValue\n\
    A read, of whichever transaction, has the value of its item at its place: the last one written before it at this\n\
    site, or else the initial one, plus all increments between.\n\
    An example of the fault, at the last line:\n\
    \x20 item x=5\n\
    \x20 w1[x]=6\n\
    \x20 c1\n\
    \x20 r2[x]=5     x is 6 here\n";

const RANK_ORDER: &str = "F11 RankOrder\n\
    Where two committed transactions have entries in conflict, the one whose entry stands first has the smaller rank.\n\
    Two entries on an item are in conflict where one of them at least changes it; but not two increments.\n\
    An example of the fault, at the last line, where 1 has rank 1 and 2 has rank 0:\n\
    \x20 w1[x]=6\n\
    \x20 c1\n\
    \x20 r2[x]=6     1 has to have the smaller rank\n";

const BLOCK: &str = "F12 Block\n\
    The changes of a transaction, w and d, stand directly behind one another and directly before its c.\n\
    What a refused one asked for, p and q, likewise before its n.\n\
    An example of the fault, at the second line:\n\
    \x20 w1[x]=6\n\
    \x20 r2[y]=2     only w, d or c of 1 may stand here\n";

const END: &str = "F13 End\n\
    An entry's transaction is decided, as the entry says, and has not ended at this site: w, d and c are of committed\n\
    transactions, p, q and n of refused ones, a of withdrawn ones; r may be of each.\n\
    An example of the fault, at the last line:\n\
    \x20 r1[x]=5\n\
    \x20 c1\n\
    \x20 r1[y]=2     1 has ended here\n";

const DECISION_ORDER: &str = "F14 DecisionOrder\n\
    The ends of a log, c, n and a, stand in the order of their decisions.\n\
    An example of the fault, at the second line, where decision 0 is on 1 and decision 1 on 2:\n\
    \x20 c2\n\
    \x20 c1\n";

const NOT_ENDED: &str = "F15 NotEnded\n\
    Each transaction with an entry in a log has its end there.\n\
    An example of the fault, at the last line:\n\
    \x20 r1[x]=5\n\
    \x20 final x=5     c1, n1 or a1 is missing before it\n";

const FINAL: &str = "F16 Final\n\
    The final of an item has its value at the end of the log.\n\
    An example of the fault, at the last line:\n\
    \x20 item x=5\n\
    \x20 w1[x]=6\n\
    \x20 c1\n\
    \x20 final x=5     x is 6 at the end\n";

const WALK_STEP: &str = "F17 WalkStep\n\
    Each step of a walk is a conflict of the logs: at its site, on its item, an entry of the transaction where the walk\n\
    stands comes before one of the transaction that the step leads to. wr is a write and then a read, rw a read\n\
    and then a write, ww two writes; p, d and q count as writes, but two increments are no ww.\n\
    It is told at the `end` of the last site.\n\
    An example of the fault: a step of 2 to 1, {\"item\":\"x\",\"kind\":\"wr\",\"site\":0,\"to\":1}, over the log\n\
    \x20 r2[x]=5\n\
    \x20 w1[x]=6\n\
    \x20 c1     there is a read of 2 before a write of 1: rw, and no wr\n";

const TRUNCATED: &str = "F18 Truncated\n\
    The bundle ends with the LF of the last `end`. The fault is told at the first line that isn't there with its LF.\n\
    An example of the fault, at the last line:\n\
    \x20 final x=5\n\
    \x20 en     the input ends here\n";

const TRAILING: &str = "F19 Trailing\n\
    Nothing stands behind the last `end`, not even a blank line.\n\
    An example of the fault, at the last line, where the certificate says one site:\n\
    \x20 end\n\
    \x20 site 1\n";

const NOT_JSON: &str = "K1 NotJson\n\
    Line 2 is a JSON value. To the auditor it is F3 where it isn't.\n\
    An example:\n\
    \x20 {\"decisions\":[,\"sites\":1}\n";

const SHAPE: &str = "K2 Shape\n\
    Line 2 is an object with just the members `decisions`, an array, and `sites`, a number; each decision is an object\n\
    with just `commit` and `rank`, `refuse` and `walk`, or `withdraw`; each step has just `item`, `kind`, `site`, `to`.\n\
    To the auditor it is F3 where it isn't.\n\
    An example:\n\
    \x20 {\"decisions\":[{\"commit\":\"1\",\"rank\":0}],\"sites\":1}     a text where a number is wanted\n";

const RANGE: &str = "K3 Range\n\
    In line 2 each number is whole and in its range, each name and kind is one, and the line is the compact text: no\n\
    spaces, keys in byte order, none twice, no escapes, fractions or exponents. To the auditor it is F3 where it isn't.\n\
    In Python the line is json.dumps(c, separators=(\",\", \":\"), sort_keys=True).\n\
    Examples:\n\
    \x20 {\"decisions\": [], \"sites\": 1}     spaces\n\
    \x20 {\"decisions\":[],\"sites\":65}     64 sites at most\n";

const MEMORY: &str = "K4 Memory\n\
    The library's `from_line` found no memory: nothing is known of the line. It is no verdict: `sgt` ends with status 3.\n";

/// The rule of a bundle.
fn fault_rule(fault: Fault) -> &'static str
    ensures { IsRuleOf (fault_name fault) result.now }
{
    match fault {
        Fault::Format => FORMAT,
        Fault::Notation => NOTATION,
        Fault::Certificate => CERTIFICATE,
        Fault::Ranks => RANKS,
        Fault::DecidedTwice => DECIDED_TWICE,
        Fault::WalkShape => WALK_SHAPE,
        Fault::Section => SECTION,
        Fault::Item => ITEM,
        Fault::Twice => TWICE,
        Fault::ReadValue => READ_VALUE,
        Fault::RankOrder => RANK_ORDER,
        Fault::Block => BLOCK,
        Fault::End => END,
        Fault::DecisionOrder => DECISION_ORDER,
        Fault::NotEnded => NOT_ENDED,
        Fault::Final => FINAL,
        Fault::WalkStep => WALK_STEP,
        Fault::Truncated => TRUNCATED,
        Fault::Trailing => TRAILING,
    }
}

/// The rule of line 2.
fn line_rule(fault: CertFault) -> &'static str
    ensures { IsRuleOf (line_name fault) result.now }
{
    match fault {
        CertFault::NotJson => NOT_JSON,
        CertFault::Shape => SHAPE,
        CertFault::Range => RANGE,
        CertFault::Memory => MEMORY,
    }
}

/// The rule of a topic, with an example.
pub fn rule_of(topic: Topic) -> &'static str
    ensures { IsRuleOf (topic_name topic) result.now }
{
    match topic {
        Topic::Bundle(fault) => fault_rule(fault),
        Topic::Line(fault) => line_rule(fault),
        Topic::Told(reply) => reply_rule(reply),
        Topic::Found(anomaly) => anomaly_rule(anomaly),
    }
}
