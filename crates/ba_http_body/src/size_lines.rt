//! The line that says the size of a chunk, byte by byte.
ghost use Rattle.std.specs.Prelude.{◌≡◌, ℕ, List, [], ◌∷◌, ◌++◌, true};
ghost use Rattle.httparse.specs.Grammar.{is_ows};
ghost use Rattle.ba_http_body.specs.inside.Places.{HasRead, Steps};

/// What came last of a size line.
#[derive(Clone, Copy, Debug, PartialEq, Eq)]
pub enum Place {
    First,
    Digits,
    Blank,
    Extension,
    Return,
}

/// What one more byte of a size line is.
#[derive(Clone, Copy, Debug, PartialEq, Eq)]
pub enum Step {
    More(Place),
    End,
    Bad,
}

/// One byte more.
pub fn take_byte(place: Place, byte: u8) -> Step
    ensures { (bytes : List ℕ) → HasRead place bytes → Steps result (bytes ++ byte ∷ []) }
{
    match place {
        Place::First => first(byte),
        Place::Digits => digits(byte),
        Place::Blank => blank(byte),
        Place::Extension => extension(byte),
        Place::Return => { if byte == b'\n' { Step::End } else { Step::Bad } }
    }
}

fn first(byte: u8) -> Step
    ensures { (bytes : List ℕ) → HasRead Place.First bytes → Steps result (bytes ++ byte ∷ []) }
{
    if byte.is_ascii_hexdigit() {
        return Step::More(Place::Digits);
    }
    Step::Bad
}

fn digits(byte: u8) -> Step
    ensures { (bytes : List ℕ) → HasRead Place.Digits bytes → Steps result (bytes ++ byte ∷ []) }
{
    if byte.is_ascii_hexdigit() {
        return Step::More(Place::Digits);
    }
    if is_blank(byte) {
        return Step::More(Place::Blank);
    }
    if byte == b';' {
        return Step::More(Place::Extension);
    }
    if byte == b'\r' {
        return Step::More(Place::Return);
    }
    Step::Bad
}

fn blank(byte: u8) -> Step
    ensures { (bytes : List ℕ) → HasRead Place.Blank bytes → Steps result (bytes ++ byte ∷ []) }
{
    if is_blank(byte) {
        return Step::More(Place::Blank);
    }
    if byte == b';' {
        return Step::More(Place::Extension);
    }
    if byte == b'\r' {
        return Step::More(Place::Return);
    }
    Step::Bad
}

fn extension(byte: u8) -> Step
    ensures { (bytes : List ℕ) → HasRead Place.Extension bytes → Steps result (bytes ++ byte ∷ []) }
{
    if byte == b'\r' {
        return Step::More(Place::Return);
    }
    if byte == b'\n' {
        return Step::Bad;
    }
    Step::More(Place::Extension)
}

fn is_blank(byte: u8) -> bool
    ensures { result ≡ is_ows byte }
{
    byte == b' ' || byte == b'\t'
}
