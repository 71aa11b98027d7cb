//! What the lists print of a member.
ghost use Rattle.relink_list.specs.Texts.{TextsAreThoseOfTheStatements};

/// Where the tree is that of an overlay member in storage, or one place of a member without overlay, the texts
/// are those of the statements that link the member again.
pub fn texts_are_those_of_the_statements()
    ensures { TextsAreThoseOfTheStatements }
{}
