//! Endpoint references: the address in quotes and, in brackets, the parameters, where there are any.

use crate::texts::{is_shown_by, octets_of, put_text};
use crate::trees::{put_trees, tree_of};
use ba_core::List;
use ba_message::Epr;
use ba_tree::Tree;
use std::alloc::{AllocError, Global};

/// Appends an endpoint reference: its address, and its parameters where it has any.
pub fn put_endpoint(endpoint: &Epr, out: &mut String) -> Result<(), AllocError> {
    put_text(&endpoint.address, out)?;
    put_trees("", endpoint.parameters.as_slice(), out)
}

/// The endpoint reference, with one parameter or none, that these bytes show, if it is shown by exactly them again.
pub fn shown_endpoint(alloc: Global, shown: &[u8]) -> Result<Option<Epr>, AllocError> {
    let Ok(text) = str::from_utf8(shown) else {
        return Ok(None);
    };
    let Some(endpoint) = endpoint_of(alloc, text)? else {
        return Ok(None);
    };
    let mut again = String::new(alloc);
    put_endpoint(&endpoint, &mut again)?;
    Ok(is_shown_by(alloc, shown, again.as_str())?.then_some(endpoint))
}

/// The endpoint reference that is shown, if one is. What isn't understood is left out.
pub fn endpoint_of(alloc: Global, shown: &str) -> Result<Option<Epr>, AllocError> {
    let Some((address, parameter)) = address_and_parameter(shown) else {
        return Ok(None);
    };
    Ok(Some(Epr {
        address: octets_of(alloc, address)?,
        parameters: parameters_of(alloc, parameter)?,
    }))
}

/// The address, and what stands after it.
fn address_and_parameter(shown: &str) -> Option<(&str, &str)> {
    shown.strip_prefix('"')?.split_once('"')
}

/// The parameter that is shown, if one is.
fn parameters_of(alloc: Global, shown: &str) -> Result<List<Tree>, AllocError> {
    let mut parameters = Vec::new(alloc);
    if let Some(parameter) = tree_of(alloc, shown)? {
        parameters.push(parameter)?;
    }
    Ok(List::of(parameters))
}
