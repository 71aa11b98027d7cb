//! What statements mean: each function's contract is a law.
ghost use Rattle.ctl_cards.specs.Meaning.{SpelledIsMeant};

/// Cards that spell a statement mean it: the function of cards, which `read_statement` is equal to, gives
/// that statement and the number of its cards.
pub fn spelled_is_meant()
    ensures { SpelledIsMeant }
{}
