//! What the cards of statements are read as.
ghost use Rattle.std.specs.Prelude.{◌≡◌, length};
ghost use Rattle.std.specs.List.{AllByRecursion};
ghost use Rattle.list_text.specs.Statements.{relink_texts, card_of};
ghost use Rattle.list_text.specs.ReadBack.{relink_statements, HasNames, HasWritableNames, AreCardsOf};
ghost use Rattle.list_text.specs.declared.relinking.Relink.{Relink};

/// Where statements can write all names of a member, each of its cards has 80 bytes and is read as its
/// statement, whatever cards follow.
pub fn cards_are_read_back()
    ensures { (s : Relink) → HasWritableNames s → AreCardsOf (relink_texts s) (relink_statements s) }
{}

/// Each card has 80 bytes, also where a statement cannot write the name.
pub fn cards_have_eighty_bytes()
    ensures { (s : Relink) → HasNames s → AllByRecursion (λ text. length (card_of text) ≡ 80) (relink_texts s) }
{}
