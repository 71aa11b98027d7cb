//! The keys that each command takes.
ghost use Rattle.std.specs.Prelude.{◌≡◌};
ghost use Rattle.command_words.specs.Table.{required_of, optional_of, takes_any, is_used};

use crate::command::Command;
use crate::keys::{
    AREAS, EVENTS, MEMBER, NEWLMOD, ORIGIN, PARM, SYSLIB, SYSLIN, SYSLMOD, SYSPUNCH, TASKS,
    is_reserved,
};
use le_bytes::Name;

/// The keys that a command asks for, in the order in which they are missed.
pub(crate) fn required(command: Command) -> &'static [Name]
    ensures { result.now ≡ required_of command }
{
    match command {
        Command::Link => &[SYSLIN, SYSLMOD],
        Command::Go | Command::Ldr => &[SYSLIN],
        Command::List => &[SYSLMOD],
        Command::Fetch => &[SYSLMOD, MEMBER],
        Command::Replay | Command::Ahead => &[SYSLMOD, MEMBER, EVENTS],
        Command::Gen => &[PARM],
        Command::Migrate => &[SYSLMOD, NEWLMOD],
        Command::Tasks => &[SYSLMOD, TASKS, AREAS],
    }
}

/// The other keys that a command knows.
fn optional(command: Command) -> &'static [Name]
    ensures { result.now ≡ optional_of command }
{
    match command {
        Command::Link => &[PARM, MEMBER],
        Command::Go => &[SYSLMOD, PARM, MEMBER, ORIGIN, AREAS, EVENTS],
        Command::List => &[MEMBER, SYSPUNCH],
        Command::Fetch | Command::Replay | Command::Ahead => &[ORIGIN, AREAS],
        Command::Ldr => &[SYSLIB, ORIGIN, PARM],
        Command::Gen | Command::Migrate | Command::Tasks => &[],
    }
}

/// Whether a command takes every data definition name.
fn takes_any(command: Command) -> bool
    ensures { result ≡ takes_any command }
{
    matches!(command, Command::Link | Command::Go)
}

/// Whether a command has a use for a key.
pub(crate) fn is_used(command: Command, key: Name) -> bool
    ensures { result ≡ is_used command key }
{
    required(command).contains(&key)
        || optional(command).contains(&key)
        || takes_any(command) && !is_reserved(key)
}
