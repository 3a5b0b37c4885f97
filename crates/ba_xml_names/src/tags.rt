//! Start tags as far as they are read.
ghost use Rattle.std.specs.Prelude.{◌≡◌, ◌∷◌, [], OnOk};
ghost use Rattle.ba_xml_names.specs.inside.Tags.{with_value, with_attribute};

use crate::boxed::Held;
use ba_core::{List, Memory};
use ba_xml_words::{RawAttribute, RawName};

/// A start tag as far as it is read.
#[derive(Debug, Drop)]
pub struct Tag {
    pub name: RawName,
    pub attributes: List<RawAttribute>,
}

impl Held<Tag> {
    /// Puts one attribute more.
    pub fn add(&mut self, attribute: Held<RawAttribute>) -> Result<(), Memory>
        ensures { OnOk result (self.new ≡ with_attribute self.old attribute) }
    {
        self.inside
            .attributes
            .push(attribute.into_inner())
            .map_err(|_| Memory)
    }
}

impl Held<RawAttribute> {
    /// Puts one byte more in the value.
    pub fn put(&mut self, b: u8) -> Result<(), Memory>
        ensures { OnOk result (self.new ≡ with_value self.old (b ∷ [])) }
    {
        self.inside.value.push(b).map_err(|_| Memory)
    }

    /// Puts more bytes in the value.
    pub fn put_all(&mut self, bytes: &[u8]) -> Result<(), Memory>
        ensures { OnOk result (self.new ≡ with_value self.old bytes.now) }
    {
        self.inside.value.append(bytes)
    }
}
