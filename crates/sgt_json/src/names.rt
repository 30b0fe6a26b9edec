//! The longer names of faults and cycles.

ghost use Rattle.std.specs.Prelude.{◌≡◌, ◌++◌, OnOk, map};
ghost use Rattle.sgt_json.specs.Names.{cycles, history_lines, is_text, line_two, log_ends, log_lines, long_name, name_of, named, row_of};

use crate::quoted::push_quoted;
use crate::scan::begins;
use std::alloc::AllocError;

/// A name, and the longer one.
#[derive(Clone, Copy)]
pub(crate) struct Row {
    pub short: &'static str,
    pub long: &'static str,
}

fn is_text(text: &[u8], other: &[u8]) -> bool
    ensures { result ≡ is_text text.now other.now }
{
    text.len() == other.len() && begins(text, other)
}

// The longer name that the table has for this one, or else the other.
fn long_name<'a>(table: &[Row], name: &[u8], other: &'a [u8]) -> &'a [u8]
    ensures { result.now ≡ long_name (map row_of table.now) name.now other.now }
{
    match table.split_first() {
        Some((row, behind)) => {
            if is_text(name, row.short.as_bytes()) {
                return row.long.as_bytes();
            }
            long_name(behind, name, other)
        }
        None => other,
    }
}

fn in_line_two<'a>(name: &[u8], other: &'a [u8]) -> &'a [u8]
    ensures { result.now ≡ long_name line_two name.now other.now }
{
    let table = [
        Row {
            short: "F1",
            long: "Format",
        },
        Row {
            short: "F2",
            long: "Notation",
        },
        Row {
            short: "F3",
            long: "Certificate",
        },
        Row {
            short: "F4",
            long: "Ranks",
        },
        Row {
            short: "F5",
            long: "DecidedTwice",
        },
        Row {
            short: "F6",
            long: "WalkShape",
        },
    ];
    long_name(&table, name, other)
}

fn in_log_lines<'a>(name: &[u8], other: &'a [u8]) -> &'a [u8]
    ensures { result.now ≡ long_name log_lines name.now other.now }
{
    let table = [
        Row {
            short: "F7",
            long: "Section",
        },
        Row {
            short: "F8",
            long: "Item",
        },
        Row {
            short: "F9",
            long: "Twice",
        },
        Row {
            short: "F10",
            long: "ReadValue",
        },
        Row {
            short: "F11",
            long: "RankOrder",
        },
        Row {
            short: "F12",
            long: "Block",
        },
        Row {
            short: "F13",
            long: "End",
        },
    ];
    long_name(&table, name, other)
}

fn in_log_ends<'a>(name: &[u8], other: &'a [u8]) -> &'a [u8]
    ensures { result.now ≡ long_name log_ends name.now other.now }
{
    let table = [
        Row {
            short: "F14",
            long: "DecisionOrder",
        },
        Row {
            short: "F15",
            long: "NotEnded",
        },
        Row {
            short: "F16",
            long: "Final",
        },
        Row {
            short: "F17",
            long: "WalkStep",
        },
        Row {
            short: "F18",
            long: "Truncated",
        },
        Row {
            short: "F19",
            long: "Trailing",
        },
        Row {
            short: "C1",
            long: "ChainBroken",
        },
    ];
    long_name(&table, name, other)
}

fn in_history_lines<'a>(name: &[u8], other: &'a [u8]) -> &'a [u8]
    ensures { result.now ≡ long_name history_lines name.now other.now }
{
    let table = [
        Row {
            short: "L1",
            long: "NotALine",
        },
        Row {
            short: "L2",
            long: "TooLong",
        },
        Row {
            short: "L3",
            long: "IdRepeated",
        },
        Row {
            short: "internal",
            long: "Contradicts Itself",
        },
        Row {
            short: "duplicate",
            long: "Version Written Twice",
        },
        Row {
            short: "unwritten",
            long: "Version Nobody Wrote",
        },
        Row {
            short: "value",
            long: "Two Values Of A Version",
        },
    ];
    long_name(&table, name, other)
}

fn in_cycles<'a>(name: &[u8], other: &'a [u8]) -> &'a [u8]
    ensures { result.now ≡ long_name cycles name.now other.now }
{
    let table = [
        Row {
            short: "G0",
            long: "Write Cycle",
        },
        Row {
            short: "G1a",
            long: "Aborted Read",
        },
        Row {
            short: "G1b",
            long: "Intermediate Read",
        },
        Row {
            short: "G1c",
            long: "Circular Information Flow",
        },
        Row {
            short: "G-single",
            long: "Single Anti-dependency Cycle",
        },
        Row {
            short: "G2-item",
            long: "Item Anti-dependency Cycle",
        },
    ];
    long_name(&table, name, other)
}

// The longer name, as `sgt explain` has it; else the name again.
fn name_of(name: &[u8]) -> &[u8]
    ensures { result.now ≡ name_of name.now }
{
    let other = in_history_lines(name, in_cycles(name, name));
    in_line_two(name, in_log_lines(name, in_log_ends(name, other)))
}

/// Writes the name of a fault, with its longer name.
pub(crate) fn push_named(out: &mut Vec<u8>, name: &[u8]) -> Result<(), AllocError>
    ensures { OnOk result (out.new.items ≡ out.old.items ++ named name.now) }
{
    out.extend_from_slice(b",\"fault\":")?;
    push_quoted(out, name)?;
    out.extend_from_slice(b",\"name\":")?;
    push_quoted(out, name_of(name))
}
