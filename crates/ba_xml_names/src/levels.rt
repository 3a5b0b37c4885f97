//! The elements that are open, from the document to the innermost.
ghost use Rattle.std.specs.Prelude.{◌≡◌, IfOk, OnOk};
ghost use Rattle.ba_xml_names.specs.inside.Levels.{put, put_all, settled, with_child, tree_of, place_of, child_level, empty_tree};

use crate::boxed::Held;
use crate::stacks::Stack;
use ba_core::{List, Memory, Octets};
use ba_tree::{Attribute, Content, Name, Namespace, Tree};
use std::alloc::Global;
use std::mem;

/// What a prefix means; the empty prefix is the default namespace.
#[derive(Debug, Drop)]
pub struct Declaration {
    pub prefix: Octets,
    pub space: Namespace,
}

/// What a start tag means.
#[derive(Debug, Drop)]
pub struct Opening {
    pub name: Name,
    pub attributes: List<Attribute>,
    pub declarations: List<Declaration>,
}

/// An element whose end tag is to come. The outermost level stands for the document.
#[derive(Debug, Drop)]
pub struct Level {
    /// The name as its start tag writes it.
    pub spelled: Octets,
    pub name: Name,
    pub attributes: List<Attribute>,
    pub declarations: List<Declaration>,
    pub content: List<Content>,
    /// The characters behind the last child.
    pub text: Octets,
}

/// Where in a text a piece stands.
#[derive(Clone, Copy, Debug, PartialEq, Eq)]
pub enum Place {
    /// Before the root.
    Before,
    /// In an element.
    Within,
    /// Behind the root.
    Behind,
}

/// Where the next piece stands.
pub fn place_next(outer: &Stack<Held<Level>>, here: &Level) -> Place
    ensures { result ≡ place_of outer.now here.now }
{
    if outer.len() > 0 {
        return Place::Within;
    }
    if here.content.is_empty() {
        return Place::Before;
    }
    Place::Behind
}

impl Held<Level> {
    /// Puts one byte of text.
    pub fn put(&mut self, b: u8) -> Result<(), Memory>
        ensures { OnOk result (self.new ≡ put self.old b) }
    {
        self.inside.text.push(b).map_err(|_| Memory)
    }

    /// Puts more text.
    pub fn put_all(&mut self, bytes: &[u8]) -> Result<(), Memory>
        ensures { OnOk result (self.new ≡ put_all self.old bytes.now) }
    {
        self.inside.text.append(bytes)
    }

    /// Puts the text among the content, if there is any: empty texts are left out.
    pub fn settle(&mut self, alloc: Global) -> Result<(), Memory>
        ensures { OnOk result (self.new ≡ settled self.old) }
    {
        if self.inside.text.is_empty() {
            return Ok(());
        }
        let text = mem::replace(&mut self.inside.text, List::new(alloc));
        self.inside
            .content
            .push(Content::Text(text))
            .map_err(|_| Memory)
    }

    /// Puts one child more behind the content.
    pub fn add(&mut self, child: Tree) -> Result<(), Memory>
        ensures { OnOk result (self.new ≡ with_child self.old child) }
    {
        self.inside
            .content
            .push(Content::Child(child))
            .map_err(|_| Memory)
    }

    /// The element that ends here.
    pub fn close(mut self, alloc: Global) -> Result<Tree, Memory>
        ensures { IfOk result (λ tree. tree ≡ tree_of self) }
    {
        self.settle(alloc)?;
        let Level {
            spelled: _,
            name,
            attributes,
            declarations: _,
            content,
            text: _,
        } = self.into_inner();
        Ok(Tree {
            name,
            attributes,
            content,
        })
    }
}

impl Opening {
    /// The level of an element that begins so.
    pub fn level(self, alloc: Global, spelled: Octets) -> Level
        ensures { result ≡ child_level self spelled }
    {
        let Opening {
            name,
            attributes,
            declarations,
        } = self;
        Level {
            spelled,
            name,
            attributes,
            declarations,
            content: List::new(alloc),
            text: List::new(alloc),
        }
    }

    /// An element that begins so and has no content.
    pub fn empty(self, alloc: Global) -> Tree
        ensures { result ≡ empty_tree self }
    {
        let Opening {
            name,
            attributes,
            declarations: _,
        } = self;
        Tree {
            name,
            attributes,
            content: List::new(alloc),
        }
    }
}
