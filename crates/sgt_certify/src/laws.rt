//! What an answer tells of the bytes.

ghost use Rattle.std.specs.Prelude.{◌≡◌, ◌↔◌, ℕ, List};
ghost use Rattle.sgt_names.specs.declared.outcome.Outcome.{Outcome};
ghost use Rattle.sgt_names.specs.declared.outcome.Outcome.TheVariants.{Yes};
ghost use Rattle.sgt_names.specs.declared.outcome.Outcome.TheVariants.{No};
ghost use Rattle.sgt_bundle.specs.declared.bundle.SiteLog.{SiteLog};
ghost use Rattle.sgt_audit.specs.Faults.{fault_number};
ghost use Rattle.sgt_audit.specs.declared.faults.Fault.{Fault};
ghost use Rattle.sgt_certify_faults.specs.Faults.{IsFaultless, IsFirstFault};
ghost use Rattle.sgt_certify_logs.specs.Certifiable.{SpellsLogs};
ghost use Rattle.sgt_certify.specs.Answer.{HasCertificate, IsAnswer, IsReason, Refuses, fault_text};
ghost use Rattle.sgt_certify.specs.declared.refuting.Refusal.{Refusal};

/// The answer is a yes exactly where some certificate makes the logs valid that the bytes spell.
pub fn a_yes_is_told_exactly_where_there_is_a_certificate()
    ensures { (bytes text : List ℕ) (outcome : Outcome) → IsAnswer bytes outcome text
        → (outcome ≡ Yes ↔ HasCertificate bytes) }
{}

/// A text with a fault is answered by its first, and else logs without a certificate by the first reason that they
/// have: `no order` exactly where ends are in a cycle; `no ranks` exactly where no ends are, and committed conflicts
/// are; `no walk` exactly where neither are, and there is no certificate.
pub fn the_first_reason_is_told()
    ensures fault { (bytes text : List ℕ) (outcome : Outcome) (line : ℕ) (fault : Fault)
        → IsAnswer bytes outcome text → IsFirstFault bytes line fault
        → (outcome ≡ No) × (text ≡ fault_text line (fault_number fault)) }
    ensures reason { (bytes text : List ℕ) (outcome : Outcome) (sites : List SiteLog)
        (refusal : Refusal) → IsAnswer bytes outcome text → IsFaultless bytes
        → SpellsLogs bytes sites → (Refuses refusal outcome text ↔ IsReason refusal sites) }
{}
