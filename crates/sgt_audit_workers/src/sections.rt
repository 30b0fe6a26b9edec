//! A text as far as it was read, section after section.

ghost use Rattle.std.specs.Prelude.{Ok, IsTrue, ◌≡◌, ◌≢◌, ◌+◌, ◌-◌, ◌^◌, ◌<◌, ◌≤◌, ◌∷◌, [], ℕ, List, Option, length, IfOk, IfErr, IfSome, IfNone, vec_len};
ghost use Rattle.sgt_notation.specs.Lines.{Gives, coming};
ghost use Rattle.sgt_audit_workers.specs.Cut.{KeepsReady};
ghost use Rattle.sgt_audit_workers.specs.Reads.{Reader, reader};
ghost use Rattle.sgt_audit_workers.specs.declared.sections.State.TheVariants.{Going};
ghost use Rattle.sgt_audit_workers.specs.private.Texts.{AreAhead, CameNext, HasRead, IsAsked, IsFirstAhead};
ghost use Rattle.sgt_audit_workers.specs.private.Texts.{IsLeft, IsNextSection, IsOpenState, IsStateBehind, stop_before};

use crate::cutting::{Latest, Room, Stop, next_line, read_piece};
use sgt_names::{EngineFail, Source};
use sgt_notation::{Lines, Next};
use std::alloc::{AllocError, Global};

/// A text as far as it was read.
#[derive(Drop)]
pub struct Text {
    pub alloc: Global,
    pub lines: Lines,
    pub latest: Latest,
    /// How many bytes of a section are wanted in one piece: one that is longer is judged as it is read.
    pub most: usize,
    pub state: State,
}

impl Text {
    /// A text of which nothing was read.
    pub fn new(alloc: Global) -> Result<Text, AllocError>
        ensures left { IfOk result
            (λ text. (first : Reader) → IsLeft first text first first.told) }
        ensures asked { IfOk result (λ text. (first : Reader) → IsAsked first text first) }
        ensures going { IfOk result (λ text. text.state ≡ Going) }
    {
        Ok(Text {
            alloc,
            lines: Lines::new(alloc)?,
            latest: Latest {
                line: Vec::new(alloc),
                is_drained: false,
            },
            most: 0,
            state: State::Going,
        })
    }
}

/// What comes behind the sections that were read whole.
#[derive(Drop)]
pub enum State {
    /// What was not read yet.
    Going,
    /// Nothing: the text ends.
    Ended,
    /// A section of which these bytes were read, and where or why that stopped. It is judged before more is read.
    Open(Vec<u8>, Result<Stop, EngineFail>),
}

/// A section of a text.
#[derive(Drop)]
pub struct Section {
    pub bytes: Vec<u8>,
    /// Whether the text ends behind it.
    pub is_last: bool,
}

/// What comes behind a piece that stopped so.
pub fn state_behind(alloc: Global, stop: Result<Stop, EngineFail>) -> State
    ensures { IsStateBehind stop result }
{
    match stop {
        Ok(Stop::Section | Stop::Room) => State::Going,
        Ok(Stop::Text) => State::Ended,
        Ok(Stop::Long) => State::Open(Vec::new(alloc), Ok(Stop::Long)),
        Err(e) => State::Open(Vec::new(alloc), Err(e)),
    }
}

/// The next line, or what comes in place of it.
pub fn read_line<R: Source>(
    source: &mut R,
    text: &mut Text,
    line: &mut Vec<u8>,
    limit: usize,
) -> Result<Next, EngineFail>
    requires { text.old.state ≡ Going }
    ensures gave { let old = coming text.old.lines (R.tells source.old) in
        let new = coming text.new.lines (R.tells source.new) in
        IfOk result (λ next. Gives limit old next line.new.items new) }
    ensures unlimited { limit ≡ 2 ^ 64 - 1 → IfOk result (λ next. next ≢ Next.TooLong) }
    ensures left { let old = reader (R.tells source.old) (R.failures source.old) (R.asked source.old) in
        let new = reader (R.tells source.new) (R.failures source.new) (R.asked source.new) in
        (first : Reader) (left : Option (List ℕ)) → IsLeft first text.old old left
        → IfOk result (λ next. next ≡ Next.Line
        → IsLeft first text.new new (coming text.new.lines new.told)) }
    ensures asked { let old = reader (R.tells source.old) (R.failures source.old) (R.asked source.old) in
        let new = reader (R.tells source.new) (R.failures source.new) (R.asked source.new) in
        (first : Reader) (left : Option (List ℕ)) → IsLeft first text.old old left
        → IsAsked first text.old old → IsAsked first text.new new }
    ensures going { IfOk result (λ _. text.new.state ≡ Going) }
    ensures few { R.asked source.new ≤ R.asked source.old + length line.new.items + 1 }
    ensures short { length line.new.items ≤ limit }
    ensures most { text.new.most ≡ text.old.most }
{
    let is_drained = &mut text.latest.is_drained;
    match next_line(source, &mut text.lines, is_drained, line, limit) {
        Ok(next) => Ok(next),
        Err(e) => {
            text.state = State::Open(Vec::new(text.alloc), Err(e));
            Err(e)
        }
    }
}

/// Reads the next section in this buffer: it, if it came whole.
fn next_section<R: Source>(source: &mut R, text: &mut Text, buffer: Vec<u8>) -> Option<Section>
    requires { text.old.state ≡ Going }
    ensures came { let old = reader (R.tells source.old) (R.failures source.old) (R.asked source.old) in
        let new = reader (R.tells source.new) (R.failures source.new) (R.asked source.new) in
        (first : Reader) (left : Option (List ℕ)) → IsLeft first text.old old left
        → CameNext first left result text.new new }
    ensures asked { let old = reader (R.tells source.old) (R.failures source.old) (R.asked source.old) in
        let new = reader (R.tells source.new) (R.failures source.new) (R.asked source.new) in
        (first : Reader) (left : Option (List ℕ)) → IsLeft first text.old old left
        → IsAsked first text.old old → IsAsked first text.new new }
    ensures open { IfNone result (IsOpenState text.new.state) }
    ensures whole { IfSome result (λ _. IsOpenState text.new.state → ⊥) }
    ensures most { text.new.most ≡ text.old.most }
    ensures ready { KeepsReady text.old.latest.is_drained text.new.latest.is_drained
        (R.asked source.old) (R.asked source.new) }
{
    let mut bytes = buffer;
    bytes.clear();
    let room = Room {
        enough: text.most,
        most: text.most,
    };
    let stop = read_piece(source, &mut text.lines, &mut text.latest, &mut bytes, room);
    match stop {
        Ok(Stop::Section) => Some(Section {
            bytes,
            is_last: false,
        }),
        Ok(Stop::Text) => {
            text.state = State::Ended;
            Some(Section {
                bytes,
                is_last: true,
            })
        }
        _ => {
            text.state = State::Open(bytes, stop);
            None
        }
    }
}

/// How reading stopped behind a section that came whole, by what comes behind it.
fn stop_before(state: &State) -> Stop
    ensures { result ≡ stop_before state.now }
{
    match state {
        State::Ended => Stop::Text,
        State::Going => Stop::Section,
        State::Open(_, _) => Stop::Section,
    }
}

/// The section, which came whole, as one that is open, with this behind it.
fn open(section: Section, behind: &State) -> State
    ensures { result ≡ State.Open section.bytes (Ok (stop_before behind.now)) }
{
    let stop = stop_before(behind);
    State::Open(section.bytes, Ok(stop))
}

/// One more section behind these, unless it has no bytes. Where there is no memory for one more, it is an open one.
fn keep(text: &mut Text, ahead: &mut Vec<Section>, section: Section)
    requires { IsOpenState text.old.state → ⊥ }
    ensures kept { (first now : Reader) (from left next : Option (List ℕ))
        → AreAhead text.old.most from ahead.old.items left
        → IsNextSection text.old.most left section next → IsLeft first text.old now next
        → HasRead first from ahead.new.items text.new now }
    ensures asked { (first now : Reader) → IsAsked first text.old now → IsAsked first text.new now }
    ensures few { vec_len ahead.new ≤ vec_len ahead.old + 1 }
    ensures most { text.new.most ≡ text.old.most }
    ensures latest { text.new.latest ≡ text.old.latest }
{
    if section.bytes.is_empty() {
        return;
    }
    match ahead.push(section) {
        Ok(()) => {}
        Err(refused) => text.state = open(refused.value, &text.state),
    }
}

/// Whether more of the text is to be read.
fn is_going(state: &State) -> bool
    ensures { IsTrue result → state.now ≡ Going }
{
    match state {
        State::Going => true,
        State::Ended => false,
        State::Open(_, _) => false,
    }
}

/// Reads the next section, if there is one, behind those that were read, in this buffer.
fn read_more<R: Source>(source: &mut R, text: &mut Text, ahead: &mut Vec<Section>, buffer: Vec<u8>)
    ensures read { let old = reader (R.tells source.old) (R.failures source.old) (R.asked source.old) in
        let new = reader (R.tells source.new) (R.failures source.new) (R.asked source.new) in
        (first : Reader) (from : Option (List ℕ)) → HasRead first from ahead.old.items text.old old
        → HasRead first from ahead.new.items text.new new }
    ensures asked { let old = reader (R.tells source.old) (R.failures source.old) (R.asked source.old) in
        let new = reader (R.tells source.new) (R.failures source.new) (R.asked source.new) in
        (first : Reader) (from : Option (List ℕ)) → HasRead first from ahead.old.items text.old old
        → IsAsked first text.old old → IsAsked first text.new new }
    ensures few { vec_len ahead.new ≤ vec_len ahead.old + 1 }
    ensures most { text.new.most ≡ text.old.most }
    ensures ready { KeepsReady text.old.latest.is_drained text.new.latest.is_drained
        (R.asked source.old) (R.asked source.new) }
{
    if !is_going(&text.state) {
        return;
    }
    if let Some(section) = next_section(source, text, buffer) {
        keep(text, ahead, section);
    }
}

/// Reads one section more behind those that were read, if there is one, where there is a buffer for it.
pub fn read_on<R: Source>(
    source: &mut R,
    text: &mut Text,
    ahead: &mut Vec<Section>,
    buffer: Option<Vec<u8>>,
)
    ensures read { let old = reader (R.tells source.old) (R.failures source.old) (R.asked source.old) in
        let new = reader (R.tells source.new) (R.failures source.new) (R.asked source.new) in
        (first : Reader) (from : Option (List ℕ)) → HasRead first from ahead.old.items text.old old
        → HasRead first from ahead.new.items text.new new }
    ensures asked { let old = reader (R.tells source.old) (R.failures source.old) (R.asked source.old) in
        let new = reader (R.tells source.new) (R.failures source.new) (R.asked source.new) in
        (first : Reader) (from : Option (List ℕ)) → HasRead first from ahead.old.items text.old old
        → IsAsked first text.old old → IsAsked first text.new new }
    ensures few { vec_len ahead.new ≤ vec_len ahead.old + 1 }
    ensures most { text.new.most ≡ text.old.most }
    ensures ready { KeepsReady text.old.latest.is_drained text.new.latest.is_drained
        (R.asked source.old) (R.asked source.new) }
{
    match buffer {
        Some(buffer) => read_more(source, text, ahead, buffer),
        None => {}
    }
}

/// How much is read before the first section is judged: as long as it is fewer sections and fewer bytes than these.
#[derive(Clone, Copy)]
pub struct Beside {
    pub sections: usize,
    pub bytes: usize,
}

/// How many bytes the sections have.
fn bytes_of(ahead: &[Section]) -> usize {
    let mut bytes = 0usize;
    for section in ahead {
        bytes = bytes.saturating_add(section.bytes.len());
    }
    bytes
}

/// A buffer for one section more, if there is room for it behind these.
fn buffer_behind(alloc: Global, ahead: &[Section], beside: Beside) -> Option<Vec<u8>> {
    if bytes_of(ahead) < beside.bytes {
        Some(Vec::new(alloc))
    } else {
        None
    }
}

/// The next sections, as long as there is room for them, or all that there are, if they are fewer.
pub fn read_ahead<R: Source>(source: &mut R, text: &mut Text, beside: Beside) -> Vec<Section>
    ensures read { let old = reader (R.tells source.old) (R.failures source.old) (R.asked source.old) in
        let new = reader (R.tells source.new) (R.failures source.new) (R.asked source.new) in
        (first : Reader) (left : Option (List ℕ)) → IsLeft first text.old old left
        → HasRead first left result.items text.new new }
    ensures asked { let old = reader (R.tells source.old) (R.failures source.old) (R.asked source.old) in
        let new = reader (R.tells source.new) (R.failures source.new) (R.asked source.new) in
        (first : Reader) (left : Option (List ℕ)) → IsLeft first text.old old left
        → IsAsked first text.old old → IsAsked first text.new new }
    ensures few { vec_len result ≤ beside.sections }
    ensures most { text.new.most ≡ text.old.most }
    ensures ready { KeepsReady text.old.latest.is_drained text.new.latest.is_drained
        (R.asked source.old) (R.asked source.new) }
{
    let mut ahead = Vec::new(text.alloc);
    for _section in 0..beside.sections {
        let buffer = buffer_behind(text.alloc, ahead.as_slice(), beside);
        read_on(source, text, &mut ahead, buffer);
    }
    ahead
}

/// The first of the sections that were read, if there is one.
fn first(ahead: &mut Vec<Section>) -> Option<Section>
    ensures some { IfSome result (λ section. ahead.old.items ≡ section ∷ ahead.new.items) }
    ensures none { IfNone result (ahead.old.items ≡ []) }
    ensures empty { IfNone result (ahead.new.items ≡ []) }
{
    if ahead.is_empty() {
        return None;
    }
    Some(ahead.remove(0))
}

/// The next section: the first that was read, or one that is read now; but none where an open one comes next.
pub fn take_section<R: Source>(
    source: &mut R,
    text: &mut Text,
    ahead: &mut Vec<Section>,
) -> Option<Section>
    ensures came { let old = reader (R.tells source.old) (R.failures source.old) (R.asked source.old) in
        let new = reader (R.tells source.new) (R.failures source.new) (R.asked source.new) in
        (first : Reader) (from : Option (List ℕ)) → HasRead first from ahead.old.items text.old old
        → IsFirstAhead first from result ahead.new.items text.new new }
    ensures asked { let old = reader (R.tells source.old) (R.failures source.old) (R.asked source.old) in
        let new = reader (R.tells source.new) (R.failures source.new) (R.asked source.new) in
        (first : Reader) (from : Option (List ℕ)) → HasRead first from ahead.old.items text.old old
        → IsAsked first text.old old → IsAsked first text.new new }
    ensures open { IfNone result (IsOpenState text.new.state) }
    ensures kept { 0 < vec_len ahead.old → text.new ≡ text.old }
    ensures fewer { vec_len ahead.new ≡ vec_len ahead.old - 1 }
    ensures empty { IfNone result (ahead.new.items ≡ []) }
    ensures most { text.new.most ≡ text.old.most }
    ensures ready { KeepsReady text.old.latest.is_drained text.new.latest.is_drained
        (R.asked source.old) (R.asked source.new) }
{
    if let Some(section) = first(ahead) {
        return Some(section);
    }
    let buffer = Vec::new(text.alloc);
    match &text.state {
        State::Going => next_section(source, text, buffer),
        State::Ended => Some(Section {
            bytes: buffer,
            is_last: true,
        }),
        State::Open(_, _) => None,
    }
}
