//! What a call leaves of the reader and of the writer that it is given: definitions alone.
#![tactic(auto)]
