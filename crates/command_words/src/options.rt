//! The options of a linking command.
ghost use Rattle.std.specs.Prelude.{◌≡◌};
ghost use Rattle.command_words.specs.Lists.{is_option, are_options, is_option_list, is_linking_option, is_loading_option, lists, options_in};

use crate::command::Command;

/// What PARM of `link`, `go` and `ldr` turns on.
#[derive(Clone, Copy, Debug, PartialEq, Eq)]
pub struct Options {
    /// MAP: print the map.
    pub map: bool,
    /// XREF: print the cross-reference.
    pub xref: bool,
    /// LET: unresolved names are no refusal.
    pub let_on: bool,
    /// NCAL: nothing is called automatically, and unresolved names are no refusal.
    pub ncal: bool,
    /// XCAL: valid exclusive references are accepted.
    pub xcal: bool,
    /// OVLY: the load module may be an overlay tree.
    pub ovly: bool,
    /// SCTR: the load module is written for scatter loading.
    pub sctr: bool,
    /// DCBS: a new library is made with records of the greatest length.
    pub dcbs: bool,
    /// RENT: the members are marked as reenterable.
    pub rent: bool,
}

/// The options that a comma list turns on.
#[tactic(auto, unfolding(crate::specs::Lists::options_in))]
pub(crate) fn options_in(text: &str) -> Options
    ensures { result ≡ options_in text.now }
{
    Options {
        map: lists(text, "MAP"),
        xref: lists(text, "XREF"),
        let_on: lists(text, "LET"),
        ncal: lists(text, "NCAL"),
        xcal: lists(text, "XCAL"),
        ovly: lists(text, "OVLY"),
        sctr: lists(text, "SCTR"),
        dcbs: lists(text, "DCBS"),
        rent: lists(text, "RENT"),
    }
}

/// Whether a comma list names options of the command alone, and OVLY beside neither SCTR nor RENT.
#[tactic(auto, unfolding(crate::specs::Lists::is_option_list))]
pub(crate) fn is_option_list(command: Command, text: &str) -> bool
    ensures { result ≡ is_option_list command text.now }
{
    are_options(command, text)
        && !(lists(text, "OVLY") && (lists(text, "SCTR") || lists(text, "RENT")))
}

fn are_options(command: Command, text: &str) -> bool
    ensures { result ≡ are_options command text.now }
{
    text.split(',').all(|piece| is_option(command, piece))
}

fn lists(text: &str, word: &str) -> bool
    ensures { result ≡ lists text.now word.now }
{
    text.split(',').any(|piece| piece == word)
}

#[tactic(auto, unfolding(crate::specs::Lists::is_option))]
fn is_option(command: Command, word: &str) -> bool
    ensures { result ≡ is_option command word.now }
{
    match command {
        Command::Link | Command::Go => is_linking_option(word),
        Command::Ldr => is_loading_option(word),
        _ => false,
    }
}

fn is_linking_option(word: &str) -> bool
    ensures { result ≡ is_linking_option word.now }
{
    is_loading_option(word) || matches!(word, "XREF" | "XCAL" | "OVLY" | "SCTR" | "DCBS" | "RENT")
}

fn is_loading_option(word: &str) -> bool
    ensures { result ≡ is_loading_option word.now }
{
    matches!(word, "MAP" | "LET" | "NCAL")
}
