//! What is made of lines: the head of a request or of a reply, and the trailer of a body in chunks.

/// What is read line by line up to an empty line.
#[derive(Clone, Copy, Debug, PartialEq, Eq)]
pub enum Heading {
    Request,
    Reply,
    Trailer,
}
