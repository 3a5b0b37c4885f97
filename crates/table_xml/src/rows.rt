//! The forms of rows.

/// The form of a row, by the word that it begins with: a text has none.
#[derive(Clone, Copy)]
pub enum Form {
    Text,
    Write,
    Size,
    Cuts,
    Tree,
}

/// A row's form, and what stands behind its word.
pub fn form_of(row: &str) -> (Form, &str) {
    if let Some(rest) = row.strip_prefix("write: ") {
        (Form::Write, rest)
    } else if let Some(rest) = row.strip_prefix("size: ") {
        (Form::Size, rest)
    } else if let Some(rest) = row.strip_prefix("cuts: ") {
        (Form::Cuts, rest)
    } else if let Some(rest) = row.strip_prefix("tree: ") {
        (Form::Tree, rest)
    } else {
        (Form::Text, row)
    }
}
