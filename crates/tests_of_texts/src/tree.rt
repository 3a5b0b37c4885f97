//! Trees are made and measured where there is memory, and the edges of texts and names are told one by one.

use ba_core::{List, Memory, Octets};
use ba_tree::{
    Attribute, Content, Name, Namespace, Spaces, Tree, bare_ends, legal_text, plain_name,
};
use std::alloc::Global;
use std::test::Fail;

fn octets(alloc: Global, bytes: &[u8]) -> Result<Octets, Memory> {
    match bytes.to_vec(alloc) {
        Ok(bytes) => Ok(List::of(bytes)),
        Err(_) => Err(Memory),
    }
}

fn put<T: Drop>(list: &mut List<T>, item: T) -> Result<(), Memory> {
    match list.push(item) {
        Ok(()) => Ok(()),
        Err(_) => Err(Memory),
    }
}

fn attribute(alloc: Global, space: &[u8], local: &[u8]) -> Result<Attribute, Memory> {
    let name = Name {
        space: Namespace::of(alloc, octets(alloc, space)?)?,
        local: octets(alloc, local)?,
    };
    Ok(Attribute {
        name,
        value: octets(alloc, b"1")?,
    })
}

fn leaf(alloc: Global, space: &[u8]) -> Result<Tree, Memory> {
    let name = Name {
        space: Namespace::of(alloc, octets(alloc, space)?)?,
        local: octets(alloc, b"Key")?,
    };
    Ok(Tree {
        name,
        attributes: List::new(alloc),
        content: List::new(alloc),
    })
}

/// `<Key a="1">42</Key>` in the namespace urn:app.
fn key(alloc: Global) -> Result<Tree, Memory> {
    let mut tree = leaf(alloc, b"urn:app")?;
    put(&mut tree.attributes, attribute(alloc, b"", b"a")?)?;
    put(&mut tree.content, Content::Text(octets(alloc, b"42")?))?;
    Ok(tree)
}

// The name takes 9 + 5 bytes, the attribute 1 + 2 + 3 + 3, the text 2 + 1 + 4.
#[test]
fn measures(rt: HostRuntime) -> Result<(), Fail> {
    let tree = key(rt.alloc())?;
    assert_eq!(rt; tree.size(), 30);
    assert!(rt; tree.is_fit());
    assert!(rt; tree.has_levels_within(1));
    assert!(rt; !tree.has_levels_within(0));
    assert!(rt; tree.has_attributes_within(1));
    assert!(rt; !tree.has_attributes_within(0));
    let spaces = tree.note_spaces(1, Spaces::new());
    match spaces {
        Some(row) => assert_eq!(rt; row.into_len(), 1),
        None => assert!(rt; false),
    }
    Ok(())
}

#[test]
fn texts_and_names(rt: HostRuntime) {
    for (bytes, legal, plain, bare) in [
        (b"".as_slice(), true, false, true),
        (b"_a-1.b".as_slice(), true, true, true),
        (b"1a".as_slice(), true, false, true),
        (b"a:b".as_slice(), true, false, true),
        (b" a".as_slice(), true, false, false),
        (b"a\r".as_slice(), true, false, false),
        (b"a\x0B".as_slice(), false, false, true),
        (b"\xEF\xBF\xBD".as_slice(), true, false, true),
        (b"\xEF\xBF\xBE".as_slice(), false, false, true),
        (b"\xED\xA0\x80".as_slice(), false, false, true),
        (b"\xF4\x8F\xBF\xBF".as_slice(), true, false, true),
        (b"\xC3".as_slice(), false, false, true),
    ] {
        assert_eq!(rt; legal_text(bytes), legal);
        assert_eq!(rt; plain_name(bytes), plain);
        assert_eq!(rt; bare_ends(bytes), bare);
    }
}
