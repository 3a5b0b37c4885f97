//! Laws of heads and trailers. Each function does nothing: its contract is the law.
ghost use Rattle.std.specs.Prelude.{◌≡◌, ◌≤◌, ℕ, List, length, take, Option, Result};
ghost use Rattle.ba_http_head.specs.HeadLines.{IsOpen};
ghost use Rattle.ba_http_head.specs.Heads.{SaysHead, StartLine};
ghost use Rattle.ba_http_head.specs.Looks.{Shows};
ghost use Rattle.ba_http_head.specs.declared.faults.HttpFault.{HttpFault};
ghost use Rattle.ba_http_head.specs.declared.headings.Heading.{Heading as Looked};
ghost use Rattle.ba_http_head.specs.declared.lengths.Length.{Length};
ghost use Rattle.ba_http_head.specs.declared.scans.Shown.{Shown as Seen};

/// As bytes are taken one by one, at most one thing shows itself, at one byte; where one does, the bytes aren't open.
pub fn one_thing_shows_itself()
    ensures once { (heading : Looked) (bytes : List ℕ) (m n : ℕ) (a b : Seen) → m ≤ length bytes → n ≤ length bytes
        → Shows heading (take m bytes) a → Shows heading (take n bytes) b → (m ≡ n) × (a ≡ b) }
    ensures settled { (heading : Looked) (bytes : List ℕ) (n : ℕ) (shown : Seen) → n ≤ length bytes
        → Shows heading (take n bytes) shown → ¬ (IsOpen heading bytes) }
{}

/// A whole head says one thing.
pub fn a_head_says_one_thing()
    ensures { (heading : Looked) (prefix : List ℕ) (a b : StartLine) (x y : Result (Option Length) HttpFault) →
        SaysHead heading prefix a x → SaysHead heading prefix b y → (a ≡ b) × (x ≡ y) }
{}
