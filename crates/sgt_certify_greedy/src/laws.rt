//! What an answer tells of logs.

ghost use Rattle.std.specs.Prelude.{◌↔◌, List};
ghost use Rattle.sgt_bundle.specs.declared.bundle.SiteLog.{SiteLog};
ghost use Rattle.sgt_certify_logs.specs.Certifiable.{AreCertifiable};
ghost use Rattle.sgt_certify_greedy.specs.Answer.{IsAnswerTo, IsCertifying};
ghost use Rattle.sgt_certify_greedy.specs.declared.deciding.Answer.{Answer};

/// Logs have a certificate exactly where the answer to them is one.
pub fn answers_are_certificates_where_there_are_some()
    ensures { (sites : List SiteLog) (answer : Answer) → IsAnswerTo sites answer
        → (AreCertifiable sites ↔ IsCertifying answer) }
{}
