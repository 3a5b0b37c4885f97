//! The tests that an endpoint and a base must pass.
ghost use Rattle.std.specs.Prelude.{◌≡◌};
ghost use Rattle.ba_message.specs.Endpoints.{fits_endpoint};
ghost use Rattle.ba_record.specs.Endpoints.{is_base};

use ba_message::{Epr, dialable};

/// Whether the endpoint fits.
pub fn endpoint_fits(epr: &Epr) -> bool
    ensures { result ≡ fits_endpoint epr.now }
{
    epr.fits()
}

/// Whether the address can be dialed and has no path.
pub fn base_is_dialable(base: &[u8]) -> bool
    ensures { result ≡ is_base base.now }
{
    match base.strip_prefix(b"http://".as_slice()) {
        Some(rest) => dialable(base) && !rest.contains(&b'/'),
        None => false,
    }
}
