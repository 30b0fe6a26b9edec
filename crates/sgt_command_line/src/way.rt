//! In which way a command line is answered.

ghost use Rattle.std.specs.Prelude.{◌≡◌, ◌↔◌, Ok, IsSome, IsTrue};
ghost use Rattle.sgt_line.specs.Parts.{parts_of};
ghost use Rattle.sgt_command_line.specs.declared.check.CheckWanted.{CheckWanted as AnyWanted};
ghost use Rattle.sgt_command_line.specs.declared.choice.Choice.TheVariants as made;
ghost use Rattle.sgt_command_line.specs.Ways.{Chooses, ChoosesAudit, ChoosesCheck, ChoosesInput, Fits, IsTalk, NoneBefore, Reads};

use crate::check::CheckWanted;
use crate::choice::{Choice, NoChoice, asks_talk};
use sgt_line::Line;

/// A way to answer, each before those below it.
#[derive(Clone, Copy, Debug, PartialEq, Eq)]
pub enum Way {
    /// Events are served.
    Talk,
    /// A history is held against an order that is given.
    Against,
    /// A history is judged, and a circle is drawn in a file.
    Drawn,
    /// The files are the bundles of a chain.
    Chain,
    /// There is a verdict for each of several files.
    Each,
    /// What is written is held till all is done: the bundle goes to a file, or a refused event is a no.
    Held,
    /// The status alone is answered.
    Quiet,
    /// What is written goes to standard output.
    Plain,
}

// Whether the line asks for a talk, and names one file at most.
fn is_talk(line: &Line) -> bool
    ensures { IsTrue result ↔ IsTalk (parts_of line.now) }
{
    asks_talk(line.words.as_slice()) && line.files.len() < 2
}

fn chooses(chosen: &Result<Choice, NoChoice>) -> bool
    ensures { IsTrue result ↔ Chooses chosen.now }
{
    chosen.is_ok()
}

fn chooses_check(chosen: &Result<Choice, NoChoice>) -> bool
    ensures { IsTrue result ↔ ChoosesCheck chosen.now }
{
    matches!(chosen, Ok(Choice::Check(_)))
}

fn chooses_audit(chosen: &Result<Choice, NoChoice>) -> bool
    ensures { IsTrue result ↔ ChoosesAudit chosen.now }
{
    matches!(chosen, Ok(Choice::Audit | Choice::AuditWith { .. }))
}

// Whether the line has what it takes for the way.
fn fits(line: &Line, chosen: &Result<Choice, NoChoice>, way: Way) -> bool
    ensures { IsTrue result ↔ Fits (parts_of line.now) chosen.now way }
{
    match way {
        Way::Talk => is_talk(line),
        Way::Against => chooses_check(chosen) && line.against.is_some(),
        Way::Drawn => chooses_check(chosen) && line.place.is_some(),
        Way::Chain => chooses_audit(chosen) && line.is_chain && !line.files.is_empty(),
        Way::Each => chooses(chosen) && line.files.len() >= 2,
        Way::Held => chooses(chosen) && (line.place.is_some() || line.is_strict),
        Way::Quiet => chooses(chosen) && line.is_quiet,
        Way::Plain => true,
    }
}

/// The way in which the line is answered, whose words ask for this: the first that fits.
pub fn way_of(line: &Line, chosen: &Result<Choice, NoChoice>) -> Way
    ensures fits { Fits (parts_of line.now) chosen.now result }
    ensures first { NoneBefore (parts_of line.now) chosen.now result }
{
    if fits(line, chosen, Way::Talk) {
        return Way::Talk;
    }
    if fits(line, chosen, Way::Against) {
        return Way::Against;
    }
    if fits(line, chosen, Way::Drawn) {
        return Way::Drawn;
    }
    if fits(line, chosen, Way::Chain) {
        return Way::Chain;
    }
    if fits(line, chosen, Way::Each) {
        return Way::Each;
    }
    if fits(line, chosen, Way::Held) {
        return Way::Held;
    }
    if fits(line, chosen, Way::Quiet) {
        return Way::Quiet;
    }
    Way::Plain
}

/// What a check is asked for, where the words ask for one.
pub fn wanted_by(chosen: &Result<Choice, NoChoice>) -> CheckWanted
    ensures { (wanted : AnyWanted) → chosen.now ≡ Ok (made.Check wanted) → result ≡ wanted }
{
    match chosen {
        Ok(Choice::Check(wanted)) => *wanted,
        _ => CheckWanted {
            order: false,
            real_time: false,
            sessions: false,
        },
    }
}

fn awaited_by(choice: Choice) -> Option<&'static str>
    ensures { IsSome result ↔ ChoosesInput (Ok choice) }
{
    match choice {
        Choice::Rule(_) => None,
        Choice::Certify => Some("a bundle without its line 2"),
        Choice::Replay => Some("sites and events"),
        Choice::Check(_) => Some("a history, a transaction a line"),
        Choice::Run { .. } => Some("sites and scripts"),
        _ => Some("a bundle"),
    }
}

/// What is read, in the words of who has to type it. None: nothing is.
pub fn awaited(line: &Line, chosen: &Result<Choice, NoChoice>) -> Option<&'static str>
    ensures { IsSome result ↔ Reads (parts_of line.now) chosen.now }
{
    if is_talk(line) {
        return Some("sites and events");
    }
    match chosen {
        Ok(choice) => awaited_by(*choice),
        Err(_) => None,
    }
}
