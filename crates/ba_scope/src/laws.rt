//! Laws of scopes. Each function does nothing: its contract is the law.
ghost use Rattle.std.specs.Prelude.{IsTrue};
ghost use Rattle.ba_scope.specs.Calls.{Call, scope_after};
ghost use Rattle.ba_scope.specs.Scope.{ScopeState, is_sealed};

/// A scope that takes no new end, since it has a verdict or its own participant has gone too far, takes none after any
/// call either.
pub fn what_is_sealed_stays_sealed()
    ensures { (s : ScopeState) (call : Call) → IsTrue (is_sealed s) → IsTrue (is_sealed (scope_after s call)) }
{}
