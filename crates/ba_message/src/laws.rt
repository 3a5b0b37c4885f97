//! What holds of the tests that the definitions name, and of a node's own endpoints, as laws for those who cite them.
ghost use Rattle.std.specs.Prelude.{◌≡◌, ◌↔◌, ℕ, IsTrue, List};
ghost use Rattle.ba_message.specs.Addresses.{IsDialable};
ghost use Rattle.ba_message.specs.Dialing.{is_dialable};
ghost use Rattle.ba_message.specs.Endpoints.{Fits, fits_endpoint, same_epr};
ghost use Rattle.ba_message.specs.Letters.{IsOwnEndpoint};
ghost use Rattle.ba_message.specs.declared.endpoints.Epr.{Epr};

/// Each test of an endpoint reference or an address says the same as the fact that it stands for.
pub fn tests_of_endpoints_are_exact()
    ensures equal { (a b : Epr) → IsTrue (same_epr a b) ↔ (a ≡ b) }
    ensures dialable { (address : List ℕ) → IsTrue (is_dialable address) ↔ IsDialable address }
    ensures fitting { (e : Epr) → IsTrue (fits_endpoint e) ↔ Fits e }
{}

/// An address that can be dialed makes an endpoint reference that fits, where it has no parameters.
pub fn own_endpoints_fit()
    ensures { (e : Epr) → IsOwnEndpoint e → Fits e }
{}
