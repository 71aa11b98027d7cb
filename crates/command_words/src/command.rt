//! The commands of linkedit.
ghost use Rattle.std.specs.Prelude.{◌≡◌};
ghost use Rattle.command_words.specs.Table.{command_named};

/// What the first word asks for.
#[derive(Clone, Copy, Debug, PartialEq, Eq)]
pub enum Command {
    /// Links load modules into a library.
    Link,
    /// Links, fetches the last load module and replays events.
    Go,
    /// Lists a library or one member of it.
    List,
    /// Fetches a member into storage.
    Fetch,
    /// Fetches a member and replays events.
    Replay,
    /// Makes, links and runs a deck of a given size.
    Gen,
    /// Brings a library to version 2.
    Migrate,
    /// Links straight into storage.
    Ldr,
    /// Replays events with loads that run ahead.
    Ahead,
    /// Lets several tasks bring modules in and give them up.
    Tasks,
}

/// The command that a word names.
#[tactic(auto, unfolding(crate::specs::Table::command_named))]
pub(crate) fn command_named(word: &str) -> Option<Command>
    ensures { result ≡ command_named word.now }
{
    match word {
        "link" => Some(Command::Link),
        "go" => Some(Command::Go),
        "list" => Some(Command::List),
        "fetch" => Some(Command::Fetch),
        "replay" => Some(Command::Replay),
        "gen" => Some(Command::Gen),
        "migrate" => Some(Command::Migrate),
        "ldr" => Some(Command::Ldr),
        "ahead" => Some(Command::Ahead),
        "tasks" => Some(Command::Tasks),
        _ => None,
    }
}
