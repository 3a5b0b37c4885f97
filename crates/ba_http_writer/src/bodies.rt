//! What a body is.
ghost use Rattle.std.specs.Prelude.{◌≡◌};
ghost use Rattle.ba_http_writer.specs.Texts.{type_line};

/// What a body is, if there is one.
#[derive(Clone, Copy, Debug, PartialEq, Eq)]
pub enum Body {
    Nothing,
    Xml,
    Plain,
}

/// The line of a head that says what the body is.
pub fn type_line(kind: Body) -> &'static [u8]
    ensures { result.now ≡ type_line kind }
{
    match kind {
        Body::Nothing => b"",
        Body::Xml => b"Content-Type: text/xml; charset=utf-8\r\n",
        Body::Plain => b"Content-Type: text/plain\r\n",
    }
}
