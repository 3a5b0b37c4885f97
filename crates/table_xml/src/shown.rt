//! Refusals as the table shows them.

use ba_xml::XmlFault;
use std::alloc::AllocError;

/// Puts the number of a refusal's reason and its place.
pub fn put_fault(fault: XmlFault, out: &mut String) -> Result<(), AllocError> {
    match fault {
        XmlFault::Memory => Err(AllocError),
        XmlFault::At { reason, place } => {
            let number = reason as u8;
            write!(out, "{number} at {place}")
        }
    }
}
