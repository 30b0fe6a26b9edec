//! What the faults of sections have to do with the first fault of the text.

ghost use Rattle.std.specs.Prelude.{◌≡◌, ◌≢◌, ◌<◌, ◌↔◌, ◌+◌, ◌++◌, [], ℕ, Bool, List, length};
ghost use Rattle.sgt_bundle.specs.declared.bundle.SiteLog.{SiteLog};
ghost use Rattle.sgt_bundle.specs.declared.certificate.Certificate.{Certificate};
ghost use Rattle.sgt_audit.specs.Faults.{FirstFault, HasNoFault};
ghost use Rattle.sgt_audit.specs.declared.faults.Fault.{Fault};
ghost use Rattle.sgt_audit.specs.declared.faults.Fault.TheVariants as fault;
ghost use Rattle.sgt_audit_sections.specs.Sections.{AllStepsAreFound, AreFaultlessSections, IsFaultlessCertificate, OwnFault};
ghost use Rattle.sgt_audit_sections.specs.Sections.{front_text, lines_in_front};

/// Behind a certificate and sections that have no fault of their own, a text's first fault is the own fault of the
/// next section, its lines counted on from those before, whatever the walks are.
pub fn first_faulty_section_has_the_first_fault()
    ensures { (second : Bool) (c : Certificate) (logs : List SiteLog) (bytes : List ℕ) (n : ℕ) (f : Fault)
        → IsFaultlessCertificate c
        → AreFaultlessSections second c logs → length logs < c.sites
        → OwnFault second c (length logs) bytes n f
        → FirstFault (front_text second c logs ++ bytes) (lines_in_front logs + n) f }
{}

/// Where no section has a fault of its own, the text has none exactly where each step of a walk is found in its
/// site's section; else its last line has F17. What follows is F19 then.
pub fn faultless_sections_are_valid_where_the_walks_are()
    ensures valid { (second : Bool) (c : Certificate) (logs : List SiteLog)
        → IsFaultlessCertificate c → AreFaultlessSections second c logs
        → length logs ≡ c.sites
        → (AllStepsAreFound c.decisions logs ↔ HasNoFault (front_text second c logs)) }
    ensures walks { (second : Bool) (c : Certificate) (logs : List SiteLog) (bytes : List ℕ)
        → IsFaultlessCertificate c
        → AreFaultlessSections second c logs → length logs ≡ c.sites
        → (AllStepsAreFound c.decisions logs → ⊥)
        → FirstFault (front_text second c logs ++ bytes) (lines_in_front logs) fault.WalkStep }
    ensures trailing { (second : Bool) (c : Certificate) (logs : List SiteLog) (bytes : List ℕ)
        → IsFaultlessCertificate c
        → AreFaultlessSections second c logs → length logs ≡ c.sites
        → AllStepsAreFound c.decisions logs → bytes ≢ []
        → FirstFault (front_text second c logs ++ bytes) (lines_in_front logs + 1) fault.Trailing }
{}
