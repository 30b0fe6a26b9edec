//! How a run of the program ends: its exit status, and what the error stream is told.

ghost use Rattle.std.specs.Prelude.{◌≡◌};
ghost use Rattle.sgt_program.specs.Ending.{WroteOrFailed, status_of, text_of_fail};

use sgt_names::{EngineFail, Outcome, Sink, write_all};

/// How a run of the program ends.
#[derive(Clone, Copy, Debug, PartialEq, Eq)]
pub enum Ending {
    /// As the engine behind a command did, or the help.
    Ran(Result<Outcome, EngineFail>),
    /// The words are no command.
    NoCommand,
}

/// The exit status: 0 yes or done, 1 no, 2 the words are no command or the input can't be read, 3 want of memory, 4 a
/// read or a write failed.
pub fn status(ending: Ending) -> u8
    ensures { result ≡ status_of ending }
{
    match ending {
        Ending::Ran(Ok(Outcome::Yes)) => 0,
        Ending::Ran(Ok(Outcome::No)) => 1,
        Ending::Ran(Ok(Outcome::Unreadable)) | Ending::NoCommand => 2,
        Ending::Ran(Err(EngineFail::Memory)) => 3,
        Ending::Ran(Err(EngineFail::ReadFault | EngineFail::WriteFault)) => 4,
    }
}

fn fail_text(fail: EngineFail) -> &'static str
    ensures { result.now ≡ text_of_fail fail }
{
    match fail {
        EngineFail::Memory => "sgt: memory\n",
        EngineFail::ReadFault => "sgt: read fault\n",
        EngineFail::WriteFault => "sgt: write fault\n",
    }
}

/// Writes the text, as far as the error stream takes it.
pub fn tell<E: Sink>(errors: &mut E, text: &str)
    ensures { WroteOrFailed (E.holds errors.old) (E.holds errors.new) (E.failures errors.old)
        (E.failures errors.new) text.now }
{
    let _ = write_all(errors, text.as_bytes());
}

/// Says why there is no answer.
pub fn tell_fail<E: Sink>(errors: &mut E, fail: EngineFail)
    ensures { WroteOrFailed (E.holds errors.old) (E.holds errors.new) (E.failures errors.old)
        (E.failures errors.new) (text_of_fail fail) }
{
    tell(errors, fail_text(fail));
}
