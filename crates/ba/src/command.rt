//! The words of a command line.
ghost use Rattle.std.specs.Prelude.{◌≡◌, ◌≢◌, IfSome, IfNone, map, string_bytes};
ghost use Rattle.ba.specs.Command.{AsksFor, IsCommandLine, word_of};
ghost use Rattle.ba.specs.declared.command.Command.{Command};

/// What the program may be asked for.
#[derive(Clone, Copy, Debug, PartialEq, Eq)]
pub enum Command {
    /// Plays a script.
    Replay,
    /// Reads one envelope.
    Check,
    /// Lists a journal's file.
    Journal,
}

/// The command that the words ask for; None where they are no command line.
pub fn command_of(words: &[String]) -> Option<Command>
    ensures some { IfSome result (λ command. AsksFor command (map string_bytes words.now)) }
    ensures none { IfNone result (¬ IsCommandLine (map string_bytes words.now)) }
{
    match words {
        [word] => command_named(word),
        _ => None,
    }
}

// The command with this word.
fn command_named(word: &String) -> Option<Command>
    ensures some { IfSome result (λ command. string_bytes word.now ≡ word_of command) }
    ensures none { IfNone result ((command : Command) → string_bytes word.now ≢ word_of command) }
{
    if word.as_str() == "replay" {
        return Some(Command::Replay);
    }
    if word.as_str() == "check" {
        return Some(Command::Check);
    }
    if word.as_str() == "journal" {
        return Some(Command::Journal);
    }
    None
}
