//! Logs with a certificate, and what shows that logs have none.

ghost use Rattle.std.specs.Prelude.{◌≡◌, ℕ, List, length};
ghost use Rattle.sgt_bundle.specs.Parts.{Parts};
ghost use Rattle.sgt_bundle.specs.Text.{IsCertificate, Spells, certificate_text};
ghost use Rattle.sgt_bundle.specs.declared.bundle.SiteLog.{SiteLog};
ghost use Rattle.sgt_bundle.specs.declared.certificate.Certificate.{Certificate};
ghost use Rattle.sgt_certify_logs.specs.Certifiable.{AreCertifiable, IsWithLine, SpellsLogs};
ghost use Rattle.sgt_certify_logs.specs.declared.checks.ConflictStep.{ConflictStep};
ghost use Rattle.sgt_certify_logs.specs.declared.checks.EndStep.{EndStep};
ghost use Rattle.sgt_certify_logs.specs.Steps.{IsConflictCycle, IsEndCycle};
ghost use Rattle.sgt_certify_logs.specs.Witness.{HaveConflictsInACycle, HaveEndsInACycle, IsStuck};

/// Steps that are a cycle show that the logs have one.
pub fn steps_show_cycles()
    ensures ends { (sites : List SiteLog) (steps : List EndStep) → IsEndCycle sites steps
        → HaveEndsInACycle sites }
    ensures conflicts { (sites : List SiteLog) (steps : List ConflictStep)
        → IsConflictCycle sites steps → HaveConflictsInACycle sites }
{}

/// Where the ends of the logs stand in a cycle, no certificate makes them valid: the decisions would follow one
/// another round it.
pub fn ends_in_a_cycle_have_no_certificate()
    ensures { (sites : List SiteLog) → HaveEndsInACycle sites → AreCertifiable sites → ⊥ }
{}

/// Where committed transactions conflict in a cycle, no certificate makes the logs valid: the ranks would rise round
/// it.
pub fn conflicts_in_a_cycle_have_no_certificate()
    ensures { (sites : List SiteLog) → HaveConflictsInACycle sites → AreCertifiable sites → ⊥ }
{}

/// Where a set of transactions is stuck, no certificate makes the logs valid: the first decision on one outside it
/// would be on a refused transaction without a cycle.
pub fn stuck_logs_have_no_certificate()
    ensures { (sites : List SiteLog) (decided : List ℕ) → IsStuck sites decided
        → AreCertifiable sites → ⊥ }
{}

/// The text of logs becomes that of a bundle where the line of a certificate of so many sites is put in. Where a line
/// that is put in makes the bytes the text of a bundle, they spelled its logs, and the line is that of its
/// certificate.
pub fn logs_are_bundles_without_a_line()
    ensures bundle { (bytes text : List ℕ) (c : Certificate) (sites : List SiteLog)
        → IsWithLine bytes (certificate_text c) text
        → IsCertificate c → c.sites ≡ length sites → SpellsLogs bytes sites
        → Spells text (record { certificate = c; sites = sites }) }
    ensures logs { (bytes line text : List ℕ) (b : Parts) → IsWithLine bytes line text
        → Spells text b
        → SpellsLogs bytes b.sites × (line ≡ certificate_text b.certificate) }
{}

/// No bytes spell the logs of two.
pub fn no_bytes_spell_two_logs()
    ensures { (bytes : List ℕ) (s t : List SiteLog) → SpellsLogs bytes s → SpellsLogs bytes t
        → s ≡ t }
{}
