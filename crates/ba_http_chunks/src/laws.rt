//! Laws of bodies in chunks. Each function does nothing: its contract is the law.
ghost use Rattle.std.specs.Prelude.{◌≡◌, ◌≤◌, ℕ, List, length, take};
ghost use Rattle.ba_http_chunks.specs.Transfers.{IsUnended, ShowsBody, Sight};

/// As the bytes of a body in chunks are taken one by one, at most one of three things shows itself, at one byte: that it is
/// whole, that a byte is wrong, that a limit is passed. Where one does, the body doesn't go on.
pub fn one_thing_shows_itself_of_a_body()
    ensures once { (bytes : List ℕ) (m n : ℕ) (a b : Sight) → m ≤ length bytes → n ≤ length bytes
        → ShowsBody (take m bytes) a → ShowsBody (take n bytes) b → (m ≡ n) × (a ≡ b) }
    ensures settled { (bytes : List ℕ) (n : ℕ) (sight : Sight) → n ≤ length bytes
        → ShowsBody (take n bytes) sight → ¬ (IsUnended bytes) }
{}
