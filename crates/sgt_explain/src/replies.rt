//! What the replies of a replay and of a run say, and why logs have no certificate; and what to do about them.

ghost use Rattle.sgt_explain.specs.Topics.{reply_name, IsRuleOf};

use crate::topics::Reply;

const UNKNOWN: &str = "E1 Unknown\n\
    The event names a transaction that was never begun: `b` gives the numbers, from 1 on, in its replies `bTX`.\n";

const ENDED: &str = "E2 Ended\n\
    The event names a transaction that has ended: it was committed, refused or withdrawn.\n";

const STEP_OPEN: &str = "E3 StepOpen\n\
    A transaction was decided (`v`) and isn't installed yet at each site that it touches. Until then it reads and changes\n\
    nothing, no other is installed, and there is no `b`, `c`, `v`, `a` or `z`. `iTX@SITE` at those sites ends the step.\n";

const UNKNOWN_ITEM: &str = "E4 UnknownItem\n\
    There is no such site, or no such item there: the site lines at the head of the input name all that there are.\n";

const NOT_DECIDED: &str = "E5 NotDecided\n\
    `i` of a transaction that isn't decided: `vTX` comes before `iTX@SITE`.\n";

const ALREADY_DONE: &str = "E6 AlreadyDone\n\
    `i` at a site where the transaction's block is written.\n";

const WINDOW_FULL: &str = "E7 WindowFull\n\
    4096 transactions were begun in this window: end those that are active, and close it by `z`.\n";

const ACTIVE_LEFT: &str = "E8 ActiveLeft\n\
    A transaction is active: one that began and wasn't committed, refused or withdrawn. `z` wants none, nor does the end of\n\
    the input: the bundle is written only where each has ended (status 1 otherwise).\n";

const MEMORY: &str = "E9 Memory\n\
    There was no memory. It is never written: `sgt` ends with status 3.\n";

const GENERATIONS_SPENT: &str = "E10 GenerationsSpent\n\
    No further window can be opened: `z` at the last of 4294967295.\n";

const NUMBERS_SPENT: &str = "E11 NumbersSpent\n\
    No further transaction can be numbered: `b` behind transaction 4294967295.\n";

const NOT_TOUCHED: &str = "E12 NotTouched\n\
    `i` at a site where the transaction has no read and no change.\n";

const NOT_A_LINE: &str = "L1 NotALine\n\
    The line of the input that is named spells nothing, or nothing that may stand there: first `site K NAME=NUM ..` from\n\
    site 0 on, names rising, and behind them events (`sgt replay`) or scripts (`sgt run`), one space between two words,\n\
    none at the end, each line with its LF.\n\
    Of a history: the line is no JSON object with \"tx\", \"end\" (\"commit\" or \"abort\") and \"ops\", or an operation is neither\n\
    [\"r\", ITEM, VERSION] nor [\"w\", ITEM, VERSION] with a whole number as version, of a write from 1: docs/FORMAT.md.\n";

const TOO_LONG: &str = "L2 TooLong\n\
    The line of the input that is named has more than 1048576 bytes, of a history more than 16777216.\n";

const ID_REPEATED: &str = "L3 IdRepeated\n\
    The line of the history that is named has the \"tx\" of an earlier one: each transaction has one line.\n";

const CHAIN_BROKEN: &str = "C1 ChainBroken\n\
    The bundle doesn't go on where the one before it ended: it has another site, another item, or an item whose first\n\
    value isn't the last one of the bundle before. A bundle between the two is missing, or the order of the files is wrong.\n";

const NO_DECISION: &str = "V1 NoDecision\n\
    A worker was told a decision that the certifier's history doesn't have. Distrust the run, keep its input, report it.\n";

const DECIDED_TWICE: &str = "V2 DecidedTwice\n\
    Two workers were told one decision. Distrust the run, keep its input, report it.\n";

const RUN_MEMORY: &str = "V3 RunMemory\n\
    There was no memory for a call of the service, or to judge the logs. It is never written: `sgt run` ends with status 3.\n";

const CALL_REFUSED: &str = "V4 CallRefused\n\
    A site or the certifier refused a call of a worker. Distrust the run, keep its input, report it.\n";

const SUM_TOO_LARGE: &str = "V5 SumTooLarge\n\
    A sum of a script is above 18446744073709551615. It is never written: the transaction is withdrawn at that operation,\n\
    and its script isn't tried again. What is written of the script is `sN withdrawn TX tries T`.\n";

const NO_TICKET: &str = "V6 NoTicket\n\
    The history has a decision that no worker was told. Distrust the run, keep its input, report it.\n";

const PLEDGE_LOST: &str = "V7 PledgeLost\n\
    A site has not the pledge or the versions that the history counts. Distrust the run, keep its input, report it.\n\
    With threads of your own, see first that none puts another site in the place of one.\n";

const TICKETS_FALL: &str = "V8 TicketsFall\n\
    The tries of a script were decided in another order than they were made. Distrust the run, keep its input, report it.\n";

const LOG_CHANGED: &str = "V9 LogChanged\n\
    A site's log isn't what the workers counted there, or its conflicts aren't those that the decisions were taken on; or its\n\
    items aren't the input's. Distrust the run, keep its input, report it.\n\
    With threads of your own, see first that none puts another site in the place of one.\n";

const VERSIONS_CHANGED: &str = "V10 VersionsChanged\n\
    The versions of a site aren't the installs that the history counts. Distrust the run, keep its input, report it.\n\
    With threads of your own, see first that none puts another site in the place of one.\n";

const POOL_MEMORY: &str = "P1 PoolMemory\n\
    There was no memory for the pool of workers. It is never written: `sgt run` ends with status 3.\n";

const SCRIPT_LEFT: &str = "P2 ScriptLeft\n\
    The pool of workers ended with a script that wasn't run. Distrust the run, keep its input, report it.\n";

const SCRIPT_REPEATED: &str = "P3 ScriptRepeated\n\
    A script was run twice. It is never written: that the pool of workers takes no script twice is proved.\n";

const NO_ORDER: &str = "no order of the ends (sgt certify)\n\
    Two sites or more log the ends of transactions in orders that contradict one another, as after a two-phase commit,\n\
    also where nothing is in conflict. Each line behind it, `A before B site S lines P Q`, says that at site S the end of A\n\
    stands before that of B; the lines go round. Log the ends of all sites in one order: docs/EXPORT.md.\n\
    Of `sgt check --against`: the order that is given doesn't explain the history. The line behind is the first of the order\n\
    that names no committed transaction, or names one again, or the first operation or step that breaks it.\n";

const NO_RANKS: &str = "no ranks for these commits (sgt certify)\n\
    Committed transactions have conflicts that close a cycle, so no serial order keeps them. Each line behind it,\n\
    `A KIND B site S item X lines P Q`, says that A has to come before B: by wr B read what A wrote, by rw B overwrote what\n\
    A read, by ww B overwrote what A wrote. The lines go round to the first A.\n\
    The run wasn't conflict-serializable: keep the logs. With blind writes the values may still fit a serial order.\n";

const NO_WALK: &str = "no walk for a refused transaction (sgt certify)\n\
    A refused transaction lies on no cycle with committed ones, however the others are decided. Each line behind it,\n\
    `END site S line L`, is the next end of a site where nothing more can be decided.\n\
    Log as withdrawn (`a`) what was aborted for other reasons: a deadlock, a timeout, mere suspicion.\n";

/// What the reply says.
pub fn reply_rule(reply: Reply) -> &'static str
    ensures { IsRuleOf (reply_name reply) result.now }
{
    match reply {
        Reply::Unknown => UNKNOWN,
        Reply::Ended => ENDED,
        Reply::StepOpen => STEP_OPEN,
        Reply::UnknownItem => UNKNOWN_ITEM,
        Reply::NotDecided => NOT_DECIDED,
        Reply::AlreadyDone => ALREADY_DONE,
        Reply::WindowFull => WINDOW_FULL,
        Reply::ActiveLeft => ACTIVE_LEFT,
        Reply::Memory => MEMORY,
        Reply::GenerationsSpent => GENERATIONS_SPENT,
        Reply::NumbersSpent => NUMBERS_SPENT,
        Reply::NotTouched => NOT_TOUCHED,
        Reply::NotALine => NOT_A_LINE,
        Reply::TooLong => TOO_LONG,
        Reply::IdRepeated => ID_REPEATED,
        Reply::ChainBroken => CHAIN_BROKEN,
        Reply::NoDecision => NO_DECISION,
        Reply::DecidedTwice => DECIDED_TWICE,
        Reply::RunMemory => RUN_MEMORY,
        Reply::CallRefused => CALL_REFUSED,
        Reply::SumTooLarge => SUM_TOO_LARGE,
        Reply::NoTicket => NO_TICKET,
        Reply::PledgeLost => PLEDGE_LOST,
        Reply::TicketsFall => TICKETS_FALL,
        Reply::LogChanged => LOG_CHANGED,
        Reply::VersionsChanged => VERSIONS_CHANGED,
        Reply::PoolMemory => POOL_MEMORY,
        Reply::ScriptLeft => SCRIPT_LEFT,
        Reply::ScriptRepeated => SCRIPT_REPEATED,
        Reply::NoOrder => NO_ORDER,
        Reply::NoRanks => NO_RANKS,
        Reply::NoWalk => NO_WALK,
    }
}
