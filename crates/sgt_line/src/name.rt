//! The names of commands.

ghost use Rattle.std.specs.Prelude.{◌≡◌, Some, IfSome};
ghost use Rattle.sgt_line.specs.declared.name.CommandName.{CommandName};
ghost use Rattle.sgt_line.specs.Names.{command_text};

/// A command.
#[derive(Clone, Copy, Debug, PartialEq, Eq)]
pub enum CommandName {
    Audit,
    Serial,
    Replay,
    Run,
    Serve,
    Certify,
    Check,
    Explain,
    Draw,
}

/// The command that the word names.
pub fn named(word: &str) -> Option<CommandName>
    ensures some { IfSome result (λ command. word.now ≡ command_text command) }
    ensures all { (command : CommandName) → word.now ≡ command_text command
        → result ≡ Some command }
{
    match word.as_bytes() {
        b"audit" => Some(CommandName::Audit),
        b"serial" => Some(CommandName::Serial),
        b"replay" => Some(CommandName::Replay),
        b"run" => Some(CommandName::Run),
        b"serve" => Some(CommandName::Serve),
        b"certify" => Some(CommandName::Certify),
        b"check" => Some(CommandName::Check),
        b"explain" => Some(CommandName::Explain),
        b"draw" => Some(CommandName::Draw),
        _ => None,
    }
}

/// The word by which the command is called.
pub fn text_of(command: CommandName) -> &'static str
    ensures { result.now ≡ command_text command }
{
    match command {
        CommandName::Audit => "audit",
        CommandName::Serial => "serial",
        CommandName::Replay => "replay",
        CommandName::Run => "run",
        CommandName::Serve => "serve",
        CommandName::Certify => "certify",
        CommandName::Check => "check",
        CommandName::Explain => "explain",
        CommandName::Draw => "draw",
    }
}
