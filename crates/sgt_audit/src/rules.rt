//! The rules that lines are judged by.

/// By which rules a line of a section is judged.
#[derive(Clone, Copy)]
pub enum Rules {
    /// By all of them: the decisions are those of a certificate.
    Certified,
    /// By those that speak neither of ranks, nor of the order of decisions, nor of walks: the decisions are those that
    /// the entries ask for.
    Asked,
}
