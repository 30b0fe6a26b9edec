//! What a no means.

ghost use Rattle.std.specs.Prelude.{OnOk, string_bytes};
ghost use Rattle.sgt_audit.specs.declared.verdict.Verdict.TheVariants.{No};
ghost use Rattle.sgt_explain.specs.Explained.{Tells};

use crate::certified::{
    tell_certificate, tell_decided_twice, tell_decision_order, tell_end, tell_not_ended,
    tell_ranks, tell_walk_shape,
};
use crate::lines::{
    tell_block, tell_format, tell_item, tell_notation, tell_section, tell_trailing, tell_truncated,
    tell_twice,
};
use crate::shown::{push_final_value, push_rank_order_of, push_read_value};
use crate::steps::push_unmet_step;
use sgt_audit::Fault;
use std::alloc::{AllocError, Global};

/// What the first fault of the text means.
pub fn push_no(
    alloc: Global,
    out: &mut String,
    bytes: &[u8],
    line: u64,
    fault: Fault,
) -> Result<(), AllocError>
    ensures { OnOk result
        (Tells bytes.now (No line fault) (string_bytes out.old) (string_bytes out.new)) }
{
    match fault {
        Fault::Format => tell_format(out, bytes, line),
        Fault::Notation => tell_notation(out, bytes, line),
        Fault::Certificate => tell_certificate(alloc, out, bytes, line),
        Fault::Ranks => tell_ranks(alloc, out, bytes, line),
        Fault::DecidedTwice => tell_decided_twice(alloc, out, bytes, line),
        Fault::WalkShape => tell_walk_shape(alloc, out, bytes, line),
        Fault::Section => tell_section(alloc, out, bytes, line),
        Fault::Item => tell_item(alloc, out, bytes, line),
        Fault::Twice => tell_twice(alloc, out, bytes, line),
        Fault::ReadValue => push_read_value(alloc, out, bytes, line),
        Fault::RankOrder => push_rank_order_of(alloc, out, bytes, line),
        Fault::Block => tell_block(alloc, out, bytes, line),
        Fault::End => tell_end(alloc, out, bytes, line),
        Fault::DecisionOrder => tell_decision_order(alloc, out, bytes, line),
        Fault::NotEnded => tell_not_ended(alloc, out, bytes, line),
        Fault::Final => push_final_value(alloc, out, bytes, line),
        Fault::WalkStep => push_unmet_step(alloc, out, bytes, line),
        Fault::Truncated => tell_truncated(alloc, out, bytes, line),
        Fault::Trailing => tell_trailing(out, bytes, line),
    }
}
