//! Why a text is not the next bundle of a chain.

use sgt_audit::Fault;
use std::alloc::{AllocError, Global};

/// Why a text is not the next bundle of a chain.
#[derive(Clone, Copy, Debug, PartialEq, Eq)]
pub enum ChainFault {
    /// It is no valid bundle: F1 to F19.
    Invalid(Fault),
    /// It is a valid bundle, and doesn't go on where the one before it ended: C1.
    Broken,
}

impl ChainFault {
    ghost use Rattle.std.specs.Prelude.{◌≡◌, IfOk, string_bytes};
    ghost use Rattle.sgt_audit_chain.specs.Audited.{no_text};

    /// Its line, with the LF, where the file is called so: `no FILE line L FN` or `no FILE line L C1`. An Err is want
    /// of memory.
    pub fn to_line(self, alloc: Global, name: &str, line: u64) -> Result<String, AllocError>
        ensures { IfOk result (λ s. string_bytes s ≡ no_text name.now line self) }
    {
        match self {
            ChainFault::Invalid(fault) => {
                let number = fault.number();
                format!(in alloc; "no {name} line {line} F{number}\n")
            }
            ChainFault::Broken => format!(in alloc; "no {name} line {line} C1\n"),
        }
    }
}
