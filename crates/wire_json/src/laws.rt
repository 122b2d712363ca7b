//! Laws of texts. Each function changes nothing; its contract is the law.
ghost use Rattle.wire_json.specs.Laws.Lengths.{TreeTextsAreShort};

/// The text of a tree has at most 108 bytes for each leaf and node, and 46 less.
pub fn tree_texts_are_short()
    ensures { TreeTextsAreShort }
{}
