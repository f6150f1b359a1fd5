//! The words of a command line.
ghost use Rattle.std.specs.Prelude.{◌≡◌};
ghost use Rattle.xdb_top.specs.Tool as spec;
ghost use Rattle.xdb_top.specs.Tool.{words_of};

/// What the tool can do.
#[derive(Clone, Copy, Debug, PartialEq, Eq)]
pub(crate) enum Command {
    /// Reads a document and writes its canonical form.
    Pyx,
    /// Reads a script, runs its calls in the stated order, and writes the journal.
    Play,
}

fn command_named(word: &str) -> Option<Command>
    ensures { result ≡ spec.command_named word.now }
{
    if word == "pyx" {
        return Some(Command::Pyx);
    }
    if word == "play" {
        return Some(Command::Play);
    }
    None
}

/// The command that the words are, if they are one.
pub(crate) fn command_of(words: &[String]) -> Option<Command>
    ensures { result ≡ spec.command_of (words_of words.now) }
{
    match words {
        [word] => command_named(word.as_str()),
        _ => None,
    }
}
