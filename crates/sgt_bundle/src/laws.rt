//! Laws of bundles.

ghost use Rattle.std.specs.Prelude.{◌≡◌, ◌≢◌, ◌⊎◌, ◌↔◌, ◌+◌, ◌==◌, nat_lt, ℕ, true, false, List, Contains, Some, length, slice_get, take};
ghost use Rattle.std.specs.List.{filter};
ghost use Rattle.sgt_bundle.specs.Parts.{Parts};
ghost use Rattle.sgt_bundle.specs.Certificate.{AreRanks, IsCommitted, by_rank, ranks};
ghost use Rattle.sgt_bundle.specs.Text.{IsBundle, IsCertificate, Spells, certificate_text, has_increments, text_in, text_of};
ghost use Rattle.sgt_bundle.specs.Line.{Refuses};
ghost use Rattle.sgt_bundle.specs.declared.certificate.Certificate.{Certificate};
ghost use Rattle.sgt_bundle.specs.declared.certificate.Decision.{Decision};
ghost use Rattle.sgt_bundle.specs.declared.fault.CertFault.{CertFault};
ghost use Rattle.sgt_bundle.specs.Valid.{IsValid};
ghost use Rattle.sgt_bundle.specs.Serial.{SerialAgrees};

/// In a valid bundle the committed transactions, run alone and one after another by rank, read and leave what the
/// logs say.
pub fn valid_bundles_run_serially()
    ensures { (b : Parts) → IsValid b → SerialAgrees b }
{}

/// The serial run is of the committed transactions, and of no others.
pub fn committed_transactions_run()
    ensures { (ds : List Decision) (tx : ℕ)
        → Contains (by_rank ds) tx ↔ ((number : ℕ) × (rank : ℕ) × IsCommitted ds number tx rank) }
{}

/// The serial run goes by rank. Each commit is in it once: behind the commits of smaller rank, and behind those of
/// its own rank that were decided before. So where the ranks are 0 to n - 1, each once, the transaction of a rank
/// stands at the place of that number.
pub fn serial_order_is_by_rank()
    ensures length { (ds : List Decision) → length (by_rank ds) ≡ length (ranks ds) }
    ensures place { (ds : List Decision) (n tx rank : ℕ) → IsCommitted ds n tx rank →
        let smaller = length (filter (λ r. nat_lt r rank) (ranks ds)) in
        let equal = length (filter (λ r. r == rank) (ranks (take n ds))) in
        slice_get (by_rank ds) (smaller + equal) ≡ Some tx }
    ensures ranked { (ds : List Decision) → AreRanks (ranks ds) → (tx rank : ℕ)
        → slice_get (by_rank ds) rank ≡ Some tx ↔ ((n : ℕ) × IsCommitted ds n tx rank) }
{}

/// In a valid bundle two committed transactions have two ranks.
pub fn ranks_are_distinct()
    ensures { (b : Parts) → IsValid b → (m n a c rank : ℕ)
        → IsCommitted b.certificate.decisions m a rank
        → IsCommitted b.certificate.decisions n c rank → a ≡ c }
{}

/// No two certificates have one text.
pub fn certificates_have_one_reading()
    ensures { (c d : Certificate) → IsCertificate c → IsCertificate d
        → certificate_text c ≡ certificate_text d → c ≡ d }
{}

/// The text of a certificate is refused for no reason, so it is read as that certificate.
pub fn certificates_are_read_back()
    ensures { (c : Certificate) → IsCertificate c → (e : CertFault) → e ≢ CertFault.Memory
        → Refuses (certificate_text c) e → ⊥ }
{}

/// No line is refused for two reasons.
pub fn lines_are_refused_once()
    ensures { (line : List ℕ) (e f : CertFault) → e ≢ CertFault.Memory → f ≢ CertFault.Memory
        → Refuses line e → Refuses line f → e ≡ f }
{}

/// Each line is the text of a certificate or is refused for a reason.
pub fn lines_are_read_or_refused()
    ensures { (line : List ℕ) → ((c : Certificate) × IsCertificate c × (line ≡ certificate_text c))
        ⊎ ((e : CertFault) × (e ≢ CertFault.Memory) × Refuses line e) }
{}

/// A bundle has a text in the second format, and one in the first where no entry is an increment or asks for one.
/// What is written is that of the first format where there is one.
pub fn bundles_are_spelled_in_their_formats()
    ensures second { (b : Parts) → IsBundle b → Spells (text_in true b) b }
    ensures first { (b : Parts) → IsBundle b → has_increments b.sites ≡ false
        → Spells (text_in false b) b × (text_of b ≡ text_in false b) }
    ensures others { (b : Parts) (bytes : List ℕ) → Spells bytes b → has_increments b.sites ≡ true
        → (bytes ≡ text_in true b) × (text_of b ≡ text_in true b) }
{}

/// No bytes spell two bundles.
pub fn no_bytes_spell_two_bundles()
    ensures { (bytes : List ℕ) (b c : Parts) → Spells bytes b → Spells bytes c → b ≡ c }
{}
