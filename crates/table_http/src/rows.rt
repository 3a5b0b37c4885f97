//! The forms of rows.

/// The form of a row, by the word that it begins with: a request has none.
#[derive(Clone, Copy)]
pub enum Form {
    Request,
    Reply,
    RequestCuts,
    ReplyCuts,
}

/// A row's form, and what stands after its word.
pub fn form_of(row: &str) -> (Form, &str) {
    if let Some(rest) = row.strip_prefix("reply: ") {
        (Form::Reply, rest)
    } else if let Some(rest) = row.strip_prefix("cuts: ") {
        (Form::RequestCuts, rest)
    } else if let Some(rest) = row.strip_prefix("reply cuts: ") {
        (Form::ReplyCuts, rest)
    } else {
        (Form::Request, row)
    }
}
