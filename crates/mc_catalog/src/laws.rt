ghost use Rattle.std.specs.Prelude.{◌≡◌, ◌≢◌, ℕ, List};
ghost use Rattle.mc_catalog.specs.declared.fault.CatalogFaultKind.{CatalogFaultKind};
ghost use Rattle.mc_catalog.specs.CatalogFaults.{IsAccepted, IsRefused};

/// The law of reading a catalog: want of memory aside, an accepted file is not refused, and a file
/// is refused in one way.
#[tactic(auto, using(crate::proofs::OneOutcome::accepted_alone, crate::proofs::OneOutcome::refused_once))]
pub fn outcome_law()
    ensures accepted { (lines : List (ℕ × List ℕ)) (kind : CatalogFaultKind) (number : ℕ)
        → IsAccepted lines → IsRefused lines kind number → kind ≡ CatalogFaultKind.NoMemory }
    ensures once { (lines : List (ℕ × List ℕ)) (kind other : CatalogFaultKind) (number second : ℕ)
        → IsRefused lines kind number → IsRefused lines other second
        → kind ≢ CatalogFaultKind.NoMemory → other ≢ CatalogFaultKind.NoMemory
        → (kind ≡ other) × (number ≡ second) }
{}
