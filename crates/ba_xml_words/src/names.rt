//! Names as a text writes them, with prefixes.
ghost use Rattle.std.specs.Prelude.{◌≡◌, ◌++◌, ◌∷◌, [], bytes_eq, IfOk, OnOk};
ghost use Rattle.ba_xml_words.specs.inside.Names.{spelled, grown, lettered, unlettered, parted, completed, one_letter, same_name, is_written, with_letters};

use crate::classes::Class;
use ba_core::{List, Memory, Octets};
use std::alloc::Global;
use std::mem;

/// A name as it is written (Namespaces in XML 1.0, production 7): one plain name, or two joined by `:`.
/// The prefix is empty where there is none.
#[derive(Debug, Drop)]
pub struct RawName {
    pub prefix: Octets,
    pub local: Octets,
}

/// An attribute as it is written, with its references resolved.
#[derive(Debug, Drop)]
pub struct RawAttribute {
    pub name: RawName,
    pub value: Octets,
}

/// Where a name stands after one byte more.
#[derive(Debug, Drop)]
pub enum Naming {
    /// The byte is part of the name.
    On(RawName),
    /// The name ended before the byte.
    Whole(RawName),
    /// No name stands before the byte.
    Wrong,
}

/// Bytes with one more.
pub fn with_byte(mut bytes: Octets, b: u8) -> Result<Octets, Memory>
    ensures { IfOk result (λ more. more ≡ bytes ++ b ∷ []) }
{
    match bytes.push(b) {
        Ok(()) => Ok(bytes),
        Err(_) => Err(Memory),
    }
}

/// Bytes with others behind.
pub fn with_bytes(mut bytes: Octets, others: &[u8]) -> Result<Octets, Memory>
    ensures { IfOk result (λ more. more ≡ bytes ++ others.now) }
{
    match bytes.append(others) {
        Ok(()) => Ok(bytes),
        Err(_) => Err(Memory),
    }
}

/// The name that begins with this letter.
pub fn first_letter(alloc: Global, b: u8) -> Result<RawName, Memory>
    ensures { IfOk result (λ name. name ≡ one_letter b) }
{
    Ok(RawName {
        prefix: List::new(alloc),
        local: with_byte(List::new(alloc), b)?,
    })
}

impl RawName {
    /// Where this name stands after one byte more.
    pub fn grow(self, b: u8, class: Class) -> Result<Naming, Memory>
        ensures { IfOk result (λ naming. naming ≡ grown self b class) }
    {
        match class {
            Class::Letter => self.with_letter(b),
            Class::Digit => self.with_inner(b),
            Class::Hyphen => self.with_inner(b),
            Class::Colon => Ok(self.with_colon()),
            Class::Space => Ok(self.ended()),
            Class::EqualsSign => Ok(self.ended()),
            Class::Slash => Ok(self.ended()),
            Class::Greater => Ok(self.ended()),
            _ => Ok(Naming::Wrong),
        }
    }

    // A letter may stand anywhere.
    fn with_letter(mut self, b: u8) -> Result<Naming, Memory>
        ensures { IfOk result (λ naming. naming ≡ lettered self b) }
    {
        match self.local.push(b) {
            Ok(()) => Ok(Naming::On(self)),
            Err(_) => Err(Memory),
        }
    }

    // A digit, dot or hyphen doesn't begin a plain name.
    fn with_inner(self, b: u8) -> Result<Naming, Memory>
        ensures { IfOk result (λ naming. naming ≡ unlettered self b) }
    {
        if self.local.is_empty() {
            return Ok(Naming::Wrong);
        }
        self.with_letter(b)
    }

    // One colon may stand behind the first plain name.
    fn with_colon(mut self) -> Naming
        ensures { result ≡ parted self }
    {
        if self.local.is_empty() {
            return Naming::Wrong;
        }
        if !self.prefix.is_empty() {
            return Naming::Wrong;
        }
        mem::swap(&mut self.prefix, &mut self.local);
        Naming::On(self)
    }

    // The name may end where a plain name has begun.
    fn ended(self) -> Naming
        ensures { result ≡ completed self }
    {
        if self.local.is_empty() {
            return Naming::Wrong;
        }
        Naming::Whole(self)
    }

    /// Puts more letters on.
    pub fn put_all(&mut self, bytes: &[u8]) -> Result<(), Memory>
        ensures { OnOk result (self.new ≡ with_letters self.old bytes.now) }
    {
        self.local.append(bytes)
    }

    /// The bytes of the name.
    pub fn spell(&self) -> Result<Octets, Memory>
        ensures { IfOk result (λ bytes. bytes ≡ spelled self.now) }
    {
        if self.prefix.is_empty() {
            return self.local.copy();
        }
        let with_colon = with_byte(self.prefix.copy()?, b':')?;
        with_bytes(with_colon, self.local.as_slice())
    }

    /// Whether both are the same name.
    pub fn is(&self, other: &RawName) -> bool
        ensures { result ≡ same_name self.now other.now }
    {
        same(&self.prefix, &other.prefix) && same(&self.local, &other.local)
    }
}

fn same(bytes: &Octets, others: &Octets) -> bool
    ensures { result ≡ bytes_eq bytes.now others.now }
{
    bytes.as_slice() == others.as_slice()
}

/// Whether one of the attributes has this name.
pub fn is_among(name: &RawName, attributes: &[RawAttribute]) -> bool
    ensures { result ≡ is_written name.now attributes.now }
{
    attributes.iter().any(|attribute| name.is(&attribute.name))
}
