//! Coordination contexts, as `(identifier="urn:c" expires=5 type=mixed registration="http://a/")`.

use crate::endpoints::{endpoint_of, put_endpoint};
use crate::texts::{is_shown_by, octets_of, put_bytes, put_text};
use ba_core::Kind;
use ba_message::Context;
use std::alloc::{AllocError, Global};

/// Appends a coordination context.
pub fn put_context(context: &Context, out: &mut String) -> Result<(), AllocError> {
    out.push_str("(identifier=")?;
    put_text(&context.identifier, out)?;
    put_expiry(context.expires, out)?;
    out.push(' ')?;
    put_kind(context.kind, out)?;
    out.push_str(" registration=")?;
    put_endpoint(&context.registration, out)?;
    out.push(')')
}

/// Appends when a context expires, where it does.
pub fn put_expiry(expires: Option<u32>, out: &mut String) -> Result<(), AllocError> {
    match expires {
        None => Ok(()),
        Some(expires) => write!(out, " expires={expires}"),
    }
}

/// Appends a coordination type.
pub fn put_kind(kind: Option<Kind>, out: &mut String) -> Result<(), AllocError> {
    match kind {
        None => out.push_str("type=unknown"),
        Some(kind) => {
            out.push_str("type=")?;
            put_bytes(kind.word(), out)
        }
    }
}

/// The context, whose registration has one parameter or none, that these bytes show, if it is shown by exactly them again.
pub fn shown_context(alloc: Global, shown: &[u8]) -> Result<Option<Context>, AllocError> {
    let Ok(text) = str::from_utf8(shown) else {
        return Ok(None);
    };
    let Some(context) = context_of(alloc, text)? else {
        return Ok(None);
    };
    let mut again = String::new(alloc);
    put_context(&context, &mut again)?;
    Ok(is_shown_by(alloc, shown, again.as_str())?.then_some(context))
}

/// The context that is shown, if one is. What isn't understood is left out.
fn context_of(alloc: Global, shown: &str) -> Result<Option<Context>, AllocError> {
    let Some((head, registration)) = shown.split_once(" registration=") else {
        return Ok(None);
    };
    let Some(head) = head_of(head) else {
        return Ok(None);
    };
    let Some(registration) = endpoint_of(alloc, registration)? else {
        return Ok(None);
    };
    Ok(Some(Context {
        identifier: octets_of(alloc, head.identifier)?,
        expires: head.expires,
        kind: head.kind,
        registration,
    }))
}

/// What stands of a context before its registration.
#[derive(Clone, Copy)]
struct Head<'a> {
    identifier: &'a str,
    expires: Option<u32>,
    kind: Option<Kind>,
}

/// What stands of a context before its registration, if it is shown.
fn head_of<'a>(shown: &'a str) -> Option<Head<'a>> {
    let (identifier, rest) = shown.strip_prefix("(identifier=\"")?.split_once('"')?;
    let (expires, kind) = rest.split_once(" type=")?;
    Some(Head {
        identifier,
        expires: expiry_of(expires),
        kind: Kind::of_word(kind.as_bytes()),
    })
}

/// When a context expires, where that is shown.
fn expiry_of(shown: &str) -> Option<u32> {
    shown.strip_prefix(" expires=")?.parse::<u32>().ok()
}
