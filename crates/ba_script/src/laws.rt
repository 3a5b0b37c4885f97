//! The laws of all scripts.
ghost use Rattle.std.specs.Prelude.{◌≡◌, ◌⊎◌, ℕ, List};
ghost use Rattle.ba_core.specs.declared.protocols.Protocol.{Protocol};
ghost use Rattle.ba_pair.specs.PairPlay.{Numbered};
ghost use Rattle.ba_script.specs.Scripts.{IsScript, IsPairScript, IsBadScript, IsLongScript};
ghost use Rattle.ba_script.specs.declared.scripts.Script.{Script};

/// A text is exactly one of these: a script, of one form and one list of events; a text with a first bad line,
/// which is one, and is bad at one column; a text with too many lines.
pub fn scripts_mean_one_thing()
    // One of these at least.
    ensures some { (text : List ℕ) → ((s : Script) × IsScript text s)
        ⊎ ((n : ℕ) × (column : ℕ) × IsBadScript text n column) ⊎ IsLongScript text }

    // And one at most.
    ensures one { (text : List ℕ) (s t : Script) → IsScript text s → IsScript text t → s ≡ t }
    ensures one_pair { (text : List ℕ) (p q : Protocol) (a b : List Numbered) → IsPairScript text p a → IsPairScript text q b → (p ≡ q) × (a ≡ b) }
    ensures bad { (text : List ℕ) (s : Script) (n column : ℕ) → IsScript text s → IsBadScript text n column → ⊥ }
    ensures one_bad { (text : List ℕ) (m n c d : ℕ) → IsBadScript text m c → IsBadScript text n d → (m ≡ n) × (c ≡ d) }
    ensures long { (text : List ℕ) (s : Script) → IsScript text s → IsLongScript text → ⊥ }
    ensures long_bad { (text : List ℕ) (n column : ℕ) → IsLongScript text → IsBadScript text n column → ⊥ }
{}
