//! What a fault of the logs themselves says of certificates.

ghost use Rattle.std.specs.Prelude.{ℕ, List};
ghost use Rattle.sgt_audit.specs.declared.faults.Fault.{Fault};
ghost use Rattle.sgt_certify_faults.specs.Faults.{HasFault};
ghost use Rattle.sgt_certify_logs.specs.Certifiable.{HasNoCertificate};

/// Where a line breaks a rule that doesn't speak of the certificate, no certificate makes the logs valid.
pub fn faults_exclude_certificates()
    ensures { (bytes : List ℕ) (n : ℕ) (f : Fault) → HasFault bytes n f → HasNoCertificate bytes }
{}
