//! The commands.

ghost use Rattle.std.specs.Prelude.{◌≡◌, ◌↔◌, IsTrue, MatchOption};
ghost use Rattle.bx_engine_words.specs.Commands.{command_of, command_text};
ghost use Rattle.bx_engine_words.specs.declared.command.Command.{Command as AnyCommand};

use crate::setting::Setting;

/// What the first word asks for.
#[derive(Clone, Copy, Debug, PartialEq, Eq)]
pub(crate) enum Command {
    Build,
    Check,
    Repair,
    Trim,
    Gen,
}

impl Command {
    /// The command with this word.
    pub(crate) fn named(text: &str) -> Option<Command>
        ensures { MatchOption result
            ((command : AnyCommand) → text.now ≡ command_text command → ⊥)
            (λ command. text.now ≡ command_text command) }
    {
        match text {
            "build" => Some(Command::Build),
            "check" => Some(Command::Check),
            "repair" => Some(Command::Repair),
            "trim" => Some(Command::Trim),
            "gen" => Some(Command::Gen),
            _ => None,
        }
    }

    /// Whether the command has the option of a setting.
    pub(crate) fn takes(self, setting: Setting) -> bool
        ensures { IsTrue result ↔ (command_of setting ≡ self) }
    {
        setting.command() == self
    }
}
