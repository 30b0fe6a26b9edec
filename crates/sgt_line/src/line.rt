//! What the words of the command line say of files, and what is left for the program.

ghost use Rattle.std.specs.Prelude.{◌≡◌, ◌↔◌, ◌∷◌, ◌++◌, [], ℕ, List, IfOk, IsTrue, OnOk, codes, map, string_bytes};
ghost use Rattle.sgt_line.specs.Kinds.{IsKind, IsNoted};
ghost use Rattle.sgt_line.specs.declared.kind.Kind.TheVariants as kind;
ghost use Rattle.sgt_line.specs.Names.{NamesRule, command_text};
ghost use Rattle.sgt_line.specs.Parts.{HasRoom, Parts, bare, left, parts_of, with_extra, with_file, with_rule};
ghost use Rattle.sgt_line.specs.Reads.{IsLineOf, IsRead, Reads};
ghost use Rattle.sgt_line.specs.private.State.{Adds, AddsRule, IsReadTo, PutsPlace, WaitsForOrder, WaitsForOutput, WaitsForCount, WaitsForPlace};

use crate::kind::{Kind, kind_of, place_in};
use crate::name::{CommandName, named, text_of};
use crate::rule::rule_name;
use crate::texts::{first_of, last_of, only_of};
use std::alloc::{AllocError, Global};

/// A command line whose files and switches were taken out.
#[derive(Drop)]
pub struct Line {
    /// The words for the program, its name first.
    pub words: Vec<String>,
    /// The files to read, in their order; `-` is standard input.
    pub files: Vec<String>,
    /// Where the bundle of a replay or a run goes, if not behind `---`; the folder of a server's bundles; where a
    /// history's cycle is drawn.
    pub place: Option<String>,
    /// The file of the order that a history is held against.
    pub against: Option<String>,
    /// How many transactions are to be committed.
    pub expected: Option<String>,
    /// The file that is written in place of standard output.
    pub output: Option<String>,
    /// Whether a rule is named, for which nothing is read.
    pub names_rule: bool,
    /// Whether an audit or a check answers by its status alone.
    pub is_quiet: bool,
    /// Whether a replay that refuses an event ends with status 1.
    pub is_strict: bool,
    /// Whether the files of an audit are the bundles of a chain.
    pub is_chain: bool,
    /// Whether standard error is told of each million lines that were read.
    pub tells_lines: bool,
    /// Whether behind a no standard error is told what to type to learn more.
    pub tells_why: bool,
    /// Whether the answer is written as an object of JSON.
    pub is_json: bool,
    /// Whether the answer is written as a page of HTML.
    pub is_page: bool,
}

// How the number of an audit's workers begins where it stands in one word.
const WORKERS: &str = "--workers=";

impl Line {
    // No word.
    fn empty(alloc: Global) -> Line
        ensures { parts_of result ≡ bare [] }
    {
        Line {
            words: Vec::new(alloc),
            files: Vec::new(alloc),
            place: None,
            against: None,
            expected: None,
            output: None,
            names_rule: false,
            is_quiet: false,
            is_strict: false,
            is_chain: false,
            tells_lines: false,
            tells_why: false,
            is_json: false,
            is_page: false,
        }
    }

    // One more word is left for the program.
    pub(crate) fn leave(&mut self, alloc: Global, word: &str) -> Result<(), AllocError>
        ensures { OnOk result (parts_of self.new ≡ left (parts_of self.old) word.now) }
    {
        self.words.push(String::from_str(alloc, word)?)?;
        Ok(())
    }

    // These words, of which nothing is taken.
    fn whole(alloc: Global, words: &[String]) -> Result<Line, AllocError>
        ensures { IfOk result (λ line. parts_of line ≡ bare (map string_bytes words.now)) }
    {
        let mut line = Line::empty(alloc);
        for word in words {
            line.leave(alloc, word.as_str())?;
        }
        Ok(line)
    }

    // Whether one more file may be read.
    fn has_room(&self, command: CommandName) -> bool
        ensures { IsTrue result ↔ HasRoom command (parts_of self.now) }
    {
        command == CommandName::Audit || (self.files.is_empty() && !self.names_rule)
    }

    // One file too many is left for the program.
    fn add_extra(&mut self, alloc: Global, word: &str) -> Result<(), AllocError>
        ensures { OnOk result (parts_of self.new ≡ with_extra (parts_of self.old) word.now) }
    {
        self.leave(alloc, "--")?;
        self.leave(alloc, word)
    }

    // One more file, where there is room.
    fn add_file(
        &mut self,
        alloc: Global,
        command: CommandName,
        word: &str,
    ) -> Result<(), AllocError>
        ensures { OnOk result (Adds command (parts_of self.old)
            (with_file (parts_of self.old) word.now) word.now (parts_of self.new)) }
    {
        if self.has_room(command) {
            self.files.push(String::from_str(alloc, word)?)?;
            return Ok(());
        }
        self.add_extra(alloc, word)
    }

    // A rule's name for the word, where there is room.
    fn add_named(
        &mut self,
        alloc: Global,
        command: CommandName,
        word: &str,
        name: &str,
    ) -> Result<(), AllocError>
        ensures { OnOk result (Adds command (parts_of self.old)
            (with_rule (parts_of self.old) name.now) word.now (parts_of self.new)) }
    {
        if self.has_room(command) {
            self.names_rule = true;
            return self.leave(alloc, name);
        }
        self.add_extra(alloc, word)
    }

    // The name of the rule that the word spells, where there is room.
    fn add_rule(
        &mut self,
        alloc: Global,
        command: CommandName,
        word: &str,
    ) -> Result<(), AllocError>
        requires { NamesRule word.now }
        ensures { OnOk result (AddsRule command (parts_of self.old) word.now (parts_of self.new)) }
    {
        let name = rule_name(alloc, word)?;
        self.add_named(alloc, command, word, name.as_str())
    }

    // The number of workers, as two words.
    fn add_joined(&mut self, alloc: Global, word: &str) -> Result<(), AllocError>
        ensures { (number : List ℕ) → word.now ≡ codes "--workers=" ++ number → OnOk result
            (parts_of self.new ≡ left (left (parts_of self.old) (codes "--workers")) number) }
    {
        if let Some(number) = word.strip_prefix(WORKERS) {
            self.leave(alloc, "--workers")?;
            self.leave(alloc, number)?;
        }
        Ok(())
    }

    // The option of a place, if there is none yet; what now is waited for.
    fn add_place(&mut self, alloc: Global, word: &str) -> Result<Kind, AllocError>
        ensures { IfOk result (λ after. WaitsForPlace (parts_of self.old) word.now after
            (parts_of self.new)) }
    {
        if self.place.is_none() {
            return Ok(Kind::Place);
        }
        self.leave(alloc, word)?;
        Ok(Kind::Plain)
    }

    // The place in the word, if there is none yet.
    fn put_place(
        &mut self,
        alloc: Global,
        command: CommandName,
        word: &str,
    ) -> Result<(), AllocError>
        requires { IsNoted command word.now kind.JoinedPlace }
        ensures { OnOk result (PutsPlace command (parts_of self.old) word.now (parts_of self.new)) }
    {
        if self.place.is_some() {
            return self.leave(alloc, word);
        }
        match place_in(command, word) {
            Some(file) => {
                self.place = Some(String::from_str(alloc, file)?);
                Ok(())
            }
            None => Ok(()),
        }
    }

    // The option of an order, if there is none yet; what now is waited for.
    fn add_against(&mut self, alloc: Global, word: &str) -> Result<Kind, AllocError>
        ensures { IfOk result (λ after. WaitsForOrder (parts_of self.old) word.now after
            (parts_of self.new)) }
    {
        if self.against.is_none() {
            return Ok(Kind::Against);
        }
        self.leave(alloc, word)?;
        Ok(Kind::Plain)
    }

    // The option of the file of an answer, if there is none yet; what now is waited for.
    fn add_output(&mut self, alloc: Global, word: &str) -> Result<Kind, AllocError>
        ensures { IfOk result (λ after. WaitsForOutput (parts_of self.old) word.now after
            (parts_of self.new)) }
    {
        if self.output.is_none() {
            return Ok(Kind::Output);
        }
        self.leave(alloc, word)?;
        Ok(Kind::Plain)
    }

    // The option of a count, if there is none yet; what now is waited for.
    fn add_expected(&mut self, alloc: Global, word: &str) -> Result<Kind, AllocError>
        ensures { IfOk result (λ after. WaitsForCount (parts_of self.old) word.now after
            (parts_of self.new)) }
    {
        if self.expected.is_none() {
            return Ok(Kind::Expected);
        }
        self.leave(alloc, word)?;
        Ok(Kind::Plain)
    }

    // A word of this kind, behind which none is waited for.
    fn add_whole(
        &mut self,
        alloc: Global,
        command: CommandName,
        kind: Kind,
        word: &str,
    ) -> Result<Kind, AllocError>
        requires { IsKind command word.now kind }
        ensures { IfOk result (λ after. (first : Parts) → (taken : List (List ℕ))
            → Reads command first taken (parts_of self.old)
            → IsReadTo command first (taken ++ (word.now ∷ [])) after (parts_of self.new)) }
    {
        match kind {
            Kind::RuleName => self.add_rule(alloc, command, word)?,
            Kind::File => self.add_file(alloc, command, word)?,
            Kind::Joined => self.add_joined(alloc, word)?,
            Kind::JoinedPlace => self.put_place(alloc, command, word)?,
            Kind::Quiet => self.is_quiet = true,
            Kind::Strict => self.is_strict = true,
            Kind::Chain => self.is_chain = true,
            Kind::Progress => self.tells_lines = true,
            Kind::Why => self.tells_why = true,
            Kind::Json => self.is_json = true,
            Kind::Page => self.is_page = true,
            Kind::Plain => self.leave(alloc, word)?,
            Kind::Dashes => return Ok(kind),
            Kind::Numbered => {
                self.leave(alloc, word)?;
                return Ok(kind);
            }
            Kind::Place => return self.add_place(alloc, word),
            Kind::Against => return self.add_against(alloc, word),
            Kind::Expected => return self.add_expected(alloc, word),
            Kind::Output => return self.add_output(alloc, word),
        }
        Ok(Kind::Plain)
    }

    // One more word, behind one of this kind; the kind that it is of.
    fn take(
        &mut self,
        alloc: Global,
        command: CommandName,
        before: Kind,
        word: &str,
    ) -> Result<Kind, AllocError>
        ensures { IfOk result (λ after. (first : Parts) → (taken : List (List ℕ))
            → IsReadTo command first taken before (parts_of self.old)
            → IsReadTo command first (taken ++ (word.now ∷ [])) after (parts_of self.new)) }
    {
        match before {
            Kind::Dashes => {
                self.add_file(alloc, command, word)?;
                return Ok(Kind::Dashes);
            }
            Kind::Numbered => self.leave(alloc, word)?,
            Kind::Place => self.place = Some(String::from_str(alloc, word)?),
            Kind::Against => self.against = Some(String::from_str(alloc, word)?),
            Kind::Expected => self.expected = Some(String::from_str(alloc, word)?),
            Kind::Output => self.output = Some(String::from_str(alloc, word)?),
            _ => return self.add_whole(alloc, command, kind_of(command, word), word),
        }
        Ok(Kind::Plain)
    }

    // The last of the words is left for the program.
    fn leave_last(&mut self, alloc: Global, words: &[String]) -> Result<(), AllocError>
        ensures { OnOk result ((front : List (List ℕ)) → (last : List ℕ)
            → map string_bytes words.now ≡ front ++ (last ∷ [])
            → parts_of self.new ≡ left (parts_of self.old) last) }
    {
        match last_of(words) {
            Some((_, last)) => self.leave(alloc, last),
            None => Ok(()),
        }
    }

    // All these words are read, the last of this kind. An option that lacks the word behind it is left for the program.
    fn end(
        &mut self,
        alloc: Global,
        command: CommandName,
        before: Kind,
        words: &[String],
    ) -> Result<(), AllocError>
        ensures { OnOk result ((first : Parts)
            → IsReadTo command first (map string_bytes words.now) before (parts_of self.old)
            → IsRead command first (map string_bytes words.now) (parts_of self.new)) }
    {
        match before {
            Kind::Place => self.leave_last(alloc, words),
            Kind::Against => self.leave_last(alloc, words),
            Kind::Expected => self.leave_last(alloc, words),
            Kind::Output => self.leave_last(alloc, words),
            _ => Ok(()),
        }
    }

    // The line of a command, behind the program's name, with these words behind it.
    fn read(
        alloc: Global,
        name: &str,
        command: CommandName,
        words: &[String],
    ) -> Result<Line, AllocError>
        ensures { IfOk result
            (λ line. IsRead command (bare (name.now ∷ command_text command ∷ []))
            (map string_bytes words.now) (parts_of line)) }
    {
        let mut line = Line::empty(alloc);
        line.leave(alloc, name)?;
        line.leave(alloc, text_of(command))?;
        let mut before = Kind::Plain;
        for word in words {
            before = line.take(alloc, command, before, word.as_str())?;
        }
        line.end(alloc, command, before, words)?;
        Ok(line)
    }

    // The line of `help`, behind the program's name, with these words behind it; all words, where they are no such
    // line.
    fn of_help(
        alloc: Global,
        name: &str,
        words: &[String],
        given: &[String],
    ) -> Result<Line, AllocError>
        requires { map string_bytes given.now
            ≡ name.now ∷ codes "help" ∷ map string_bytes words.now }
        ensures { IfOk result (λ line. IsLineOf (map string_bytes given.now) (parts_of line)) }
    {
        let mut line = Line::empty(alloc);
        line.leave(alloc, name)?;
        if let Some(command) = only_of(words) {
            line.leave(alloc, command)?;
        } else if !words.is_empty() {
            return Line::whole(alloc, given);
        }
        line.leave(alloc, "--help")?;
        Ok(line)
    }

    /// The line of these words, the program's name first.
    pub fn of(alloc: Global, given: &[String]) -> Result<Line, AllocError>
        ensures { IfOk result (λ line. IsLineOf (map string_bytes given.now) (parts_of line)) }
    {
        if let Some((name, behind)) = first_of(given) {
            if let Some((word, behind)) = first_of(behind) {
                if let Some(command) = named(word) {
                    return Line::read(alloc, name, command, behind);
                }
                if word == "help" {
                    return Line::of_help(alloc, name, behind, given);
                }
            }
        }
        Line::whole(alloc, given)
    }
}
