//! What holds of the tests that the definitions name, as laws for those who cite them.
ghost use Rattle.std.specs.Prelude.{◌≡◌, ◌↔◌, IsTrue};
ghost use Rattle.ba_tree.specs.Same.{same_attribute, same_content, same_name, same_tree};
ghost use Rattle.ba_tree.specs.declared.trees.Attribute.{Attribute};
ghost use Rattle.ba_tree.specs.declared.trees.Content.{Content};
ghost use Rattle.ba_tree.specs.declared.trees.Name.{Name};
ghost use Rattle.ba_tree.specs.declared.trees.Tree.{Tree};

/// The tests of equality are true of equal values alone.
pub fn tests_of_equality_are_exact()
    ensures names { (a b : Name) → IsTrue (same_name a b) ↔ (a ≡ b) }
    ensures attributes { (a b : Attribute) → IsTrue (same_attribute a b) ↔ (a ≡ b) }
    ensures contents { (a b : Content) → IsTrue (same_content a b) ↔ (a ≡ b) }
    ensures trees { (a b : Tree) → IsTrue (same_tree a b) ↔ (a ≡ b) }
{}
