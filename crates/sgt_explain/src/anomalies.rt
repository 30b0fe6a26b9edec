//! What the answers of a check of a history mean: the anomalies of the field, and which isolation levels let them
//! happen.
//!
//! Definitions of G0 to G2-item: A. Adya, Weak Consistency, PhD thesis, MIT 1999. Lost update, read skew and write
//! skew: Berenson et al., A Critique of ANSI SQL Isolation Levels, SIGMOD 1995. With sessions and real time: the
//! names of Elle (Kingsbury and Alvaro, VLDB 2020).

ghost use Rattle.sgt_explain.specs.Topics.{anomaly_name, IsRuleOf};

use crate::topics::Anomaly;

const INTERNAL: &str = "internal Contradicts Itself\n\
    A transaction contradicts itself: it reads an item behind its own write and gets another version than it wrote; or it\n\
    writes an item again with a version that isn't greater; or it reads a version that it only writes later.\n\
    No isolation level of PostgreSQL, MySQL, MariaDB or SQLite lets it happen. See first that the recorder takes the version\n\
    from the row in the same statement, and that each UPDATE counts it up; that each new try is a transaction of its own in\n\
    the record; then a replica that lags, or a cache between.\n\
    An example, where the transaction wrote 2 and then read 1:\n\
    \x20 {\"tx\":\"T-1\",\"end\":\"commit\",\"ops\":[[\"w\",\"x\",2],[\"r\",\"x\",1]]}\n";

const DUPLICATE: &str = "duplicate Version Written Twice\n\
    Two committed transactions wrote the same version of an item, so no order of its writes can be told.\n\
    An update that sets the version by hand, or counts it up outside of the statement that writes; a lost update of the\n\
    version itself: two computed 4 + 1. Count it up in the statement: `SET version = version + 1`. Or a transaction is\n\
    recorded as committed that the database rolled back: PostgreSQL answers COMMIT behind an error with ROLLBACK, and\n\
    psycopg2 raises nothing then.\n";

const ABORTED_READ: &str = "G1a Aborted Read\n\
    A committed transaction read a version that an aborted one wrote (Adya 1999: G1a, a dirty read).\n\
    MySQL, MariaDB and SQL Server let it happen under READ UNCOMMITTED, SQLite with a shared cache and\n\
    `PRAGMA read_uncommitted`. PostgreSQL does at no level: there a writer may be recorded as aborted that was committed,\n\
    as where the answer to its commit was lost.\n";

const UNWRITTEN: &str = "unwritten Version Nobody Wrote\n\
    A committed transaction read a version that no transaction of the history wrote.\n\
    A writer whose transactions weren't recorded (another program, a trigger, a job); a line of the record that was lost;\n\
    or values at the start that don't have version 0.\n";

const INTERMEDIATE_READ: &str = "G1b Intermediate Read\n\
    A committed transaction read a version of an item that its writer overwrote itself (Adya 1999: G1b).\n\
    MySQL, MariaDB and SQL Server let it happen under READ UNCOMMITTED, SQLite with a shared cache and\n\
    `PRAGMA read_uncommitted`. PostgreSQL does at no level.\n";

const VALUE: &str = "value Two Values Of A Version\n\
    One version of an item is given with two values.\n\
    The row was changed without its version; or, under READ UNCOMMITTED, an aborted writer gave a version back and\n\
    another one used it again, so that somebody read what the aborted one left.\n";

const WRITE_CYCLE: &str = "G0 Write Cycle\n\
    Committed transactions overwrote one another's writes in a circle (Adya 1999: G0; dirty writes, P0 of Berenson et al. 1995).\n\
    PostgreSQL, MySQL, MariaDB and SQLite let it happen at no level: writers hold their rows to the end. Look for statements\n\
    outside of a transaction, for nodes of a cluster that were cut off from one another, and for versions that are counted up\n\
    in another statement than the one that writes.\n";

const CIRCULAR_FLOW: &str = "G1c Circular Information Flow\n\
    Committed transactions read or overwrote one another's writes in a circle (Adya 1999: G1c): each saw the next one's work\n\
    before that one was done.\n\
    MySQL, MariaDB and SQL Server let it happen under READ UNCOMMITTED, SQLite with a shared cache and\n\
    `PRAGMA read_uncommitted`. PostgreSQL does at no level.\n";

const SINGLE: &str = "G-single Single Anti-dependency Cycle\n\
    A circle of conflicts with one read that was overwritten (Adya 1999: G-single). With one item it is a lost update (P4 of\n\
    Berenson et al. 1995): two read it, and each wrote from what it had read. With two it is read skew (A5A): one\n\
    transaction saw the one before another's commit, and the other behind it.\n\
    READ COMMITTED lets it happen in PostgreSQL, MySQL, MariaDB, Oracle and SQL Server; REPEATABLE READ in MySQL and\n\
    MariaDB, where a plain SELECT reads the snapshot and an UPDATE the newest row. PostgreSQL's REPEATABLE READ does not.\n\
    What helps: SERIALIZABLE, `SELECT .. FOR UPDATE`, or `UPDATE .. WHERE version = ?` and a look at the count of rows.\n\
    At a level that doesn't let it happen: a read outside of the transaction (another connection, autocommit, a cache, a\n\
    replica), or the level wasn't set.\n";

const ITEM: &str = "G2-item Item Anti-dependency Cycle\n\
    A circle of conflicts with two or more reads that were overwritten (Adya 1999: G2-item). With two transactions and two\n\
    items it is write skew (A5B of Berenson et al. 1995): each read what the other then changed, and neither saw the change.\n\
    Snapshots let it happen: REPEATABLE READ in PostgreSQL, MySQL and MariaDB, Oracle's SERIALIZABLE, SQL Server's SNAPSHOT;\n\
    and all levels below. SERIALIZABLE of PostgreSQL, MySQL and MariaDB does not.\n\
    What helps: SERIALIZABLE and a new try where it is refused, or `SELECT .. FOR UPDATE` of what the decision rests on.\n\
    At SERIALIZABLE: a read outside of the transaction (another connection, autocommit, a cache, a replica), or the level\n\
    wasn't set.\n";

const PROCESS_FLOW: &str = "G1c-process Order Of A Session Broken\n\
    No order that serves keeps the order of each session: a circle of writes, of reads of them, and of steps of a\n\
    session (`po`). Without `--sessions` it may be a yes: the values fit, but a client didn't see what it had done or\n\
    seen before (the name is Elle's; sessions: Terry et al. 1994).\n\
    A cache, a replica that lags, or a read that went to another connection. Or lines of a session that don't stand in\n\
    the order in which the client made them, or two clients under one name.\n";

const PROCESS_SINGLE: &str = "G-single-process Order Of A Session Broken\n\
    No order that serves keeps the order of each session: a circle with one read that was overwritten, and of steps of\n\
    a session (`po`). Without `--sessions` it may be a yes: the values fit, but a client didn't see what it had done\n\
    or seen before (the name is Elle's; sessions: Terry et al. 1994).\n\
    A cache, a replica that lags, or a read that went to another connection. Or lines of a session that don't stand in\n\
    the order in which the client made them, or two clients under one name.\n";

const PROCESS_ITEM: &str = "G2-item-process Order Of A Session Broken\n\
    No order that serves keeps the order of each session: a circle with two or more reads that were overwritten, and\n\
    of steps of a session (`po`). Without `--sessions` it may be a yes: the values fit, but a client didn't see what\n\
    it had done or seen before (the name is Elle's; sessions: Terry et al. 1994).\n\
    A cache, a replica that lags, or a read that went to another connection. Or lines of a session that don't stand in\n\
    the order in which the client made them, or two clients under one name.\n";

const REAL_TIME_FLOW: &str = "G1c-realtime Real Time Broken\n\
    No order that serves keeps real time: a circle of writes, of reads of them, and of steps of time (`rt`: one was\n\
    done before the other began). Without `--real-time` it may be a yes: serializable, but not strictly (the name is\n\
    Elle's; Herlihy and Wing 1990).\n\
    A transaction didn't see what was done before it began: a cache, a replica that lags, a snapshot that was taken\n\
    late. A level called SERIALIZABLE promises a serial order, and not always this one.\n\
    Or `begin` and `done` are of different clocks, or were taken inside the transaction: `begin` belongs before its\n\
    first statement, `done` behind the answer to its commit.\n";

const REAL_TIME_SINGLE: &str = "G-single-realtime Real Time Broken\n\
    No order that serves keeps real time: a circle with one read that was overwritten, and of steps of time (`rt`: one\n\
    was done before the other began). Without `--real-time` it may be a yes: serializable, but not strictly (the name\n\
    is Elle's; Herlihy and Wing 1990).\n\
    A transaction didn't see what was done before it began: a cache, a replica that lags, a snapshot that was taken\n\
    late. A level called SERIALIZABLE promises a serial order, and not always this one.\n\
    Or `begin` and `done` are of different clocks, or were taken inside the transaction: `begin` belongs before its\n\
    first statement, `done` behind the answer to its commit.\n";

const REAL_TIME_ITEM: &str = "G2-item-realtime Real Time Broken\n\
    No order that serves keeps real time: a circle with two or more reads that were overwritten, and of steps of time\n\
    (`rt`: one was done before the other began). Without `--real-time` it may be a yes: serializable, but not strictly\n\
    (the name is Elle's; Herlihy and Wing 1990).\n\
    A transaction didn't see what was done before it began: a cache, a replica that lags, a snapshot that was taken\n\
    late. A level called SERIALIZABLE promises a serial order, and not always this one.\n\
    Or `begin` and `done` are of different clocks, or were taken inside the transaction: `begin` belongs before its\n\
    first statement, `done` behind the answer to its commit.\n";

/// What the anomaly is, and who lets it happen.
pub fn anomaly_rule(anomaly: Anomaly) -> &'static str
    ensures { IsRuleOf (anomaly_name anomaly) result.now }
{
    match anomaly {
        Anomaly::Internal => INTERNAL,
        Anomaly::Duplicate => DUPLICATE,
        Anomaly::AbortedRead => ABORTED_READ,
        Anomaly::Unwritten => UNWRITTEN,
        Anomaly::IntermediateRead => INTERMEDIATE_READ,
        Anomaly::Value => VALUE,
        Anomaly::WriteCycle => WRITE_CYCLE,
        Anomaly::CircularFlow => CIRCULAR_FLOW,
        Anomaly::SingleAntiDependency => SINGLE,
        Anomaly::ItemAntiDependency => ITEM,
        Anomaly::ProcessFlow => PROCESS_FLOW,
        Anomaly::ProcessSingle => PROCESS_SINGLE,
        Anomaly::ProcessItem => PROCESS_ITEM,
        Anomaly::RealTimeFlow => REAL_TIME_FLOW,
        Anomaly::RealTimeSingle => REAL_TIME_SINGLE,
        Anomaly::RealTimeItem => REAL_TIME_ITEM,
    }
}
