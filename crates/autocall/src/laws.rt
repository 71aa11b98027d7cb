//! What holds of calls, over definitions alone: each function's contract is a law.
ghost use Rattle.autocall.specs.Laws.{AddedKeepsPlace, NoCallIsLeft, TriedKeepsPlace};

/// Where no name before a place has a call, none has one before the lesser of that place and the one that
/// `Merged::add_called` answers, after modules were added.
pub fn added_keeps_place()
    ensures { AddedKeepsPlace }
{}

/// Where no name before a place has a call, none has one after a name was tried.
pub fn tried_keeps_place()
    ensures { TriedKeepsPlace }
{}

/// When there is no next call, each unresolved name is weak, or a statement stops its call, or it was
/// tried, or no library that it is called from has it.
pub fn no_call_is_left()
    ensures { NoCallIsLeft }
{}
