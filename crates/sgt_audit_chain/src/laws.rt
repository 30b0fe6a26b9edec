//! Laws of chains.

ghost use Rattle.std.specs.Prelude.{ℕ, List, All, Some, [], ◌∷◌, ◌++◌, map};
ghost use Rattle.sgt_bundle.specs.Parts.{FitTogether, Parts};
ghost use Rattle.sgt_audit_chain.specs.Audited.{HasFault, SpellEach};
ghost use Rattle.sgt_audit_chain.specs.Chain.{IsChain};
ghost use Rattle.sgt_audit_chain.specs.Serial.{ChainAgrees};
ghost use Rattle.sgt_audit_chain.specs.declared.faults.ChainFault.{ChainFault};

/// The committed transactions of a chain, run alone one after another, bundle by bundle and by rank, have every
/// recorded read, and leave the final values of each bundle behind it.
pub fn chains_run_serially()
    ensures { (bundles : List Parts) → All FitTogether bundles → IsChain bundles
        → ChainAgrees bundles }
{}

/// A text with a fault behind others makes no chain of them, whatever bundles they spell.
pub fn faults_exclude_chains()
    ensures { (texts : List (List ℕ)) (text : List ℕ) (line : ℕ) (fault : ChainFault)
        → HasFault (map Some texts) text line fault → (bundles : List Parts)
        → SpellEach (map Some (texts ++ text ∷ [])) bundles → IsChain bundles → ⊥ }
{}
