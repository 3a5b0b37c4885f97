//! What start tags mean, as laws over all of them.
ghost use Rattle.std.specs.Prelude.{◌≡◌, List, Some};
ghost use Rattle.ba_xml_names.specs.Namespaces.{opening};
ghost use Rattle.ba_xml_names.specs.Resolution.{IsMeaning};
ghost use Rattle.ba_xml_names.specs.declared.levels.Declaration.{Declaration};
ghost use Rattle.ba_xml_names.specs.declared.levels.Opening.{Opening};
ghost use Rattle.ba_xml_names.specs.declared.tags.Tag.{Tag};

/// A start tag means what the rules of namespaces say, where these declarations hold around it, and a tag to which
/// they give a meaning has it.
pub fn start_tags_mean_by_the_rules()
    ensures rule { (around : List Declaration) (tag : Tag) (o : Opening) → opening around tag ≡ Some o → IsMeaning around tag o }
    ensures only { (around : List Declaration) (tag : Tag) (o : Opening) → IsMeaning around tag o → opening around tag ≡ Some o }
{}
