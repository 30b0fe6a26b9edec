//! The lines of answers, and what each tells.

ghost use Rattle.std.specs.Prelude.{◌≡◌, IfOk};
ghost use Rattle.std.specs.Option.{option_map};
ghost use Rattle.sgt_json.specs.Forms.{cycle_told, end_told, explained_told, further_told, members_of, no_told, operation_told, step_told, yes_told};

use crate::piece::{Piece, told};
use std::alloc::{AllocError, Global};

// The counts of a yes.
fn yes_told(alloc: Global, line: &[u8]) -> Result<Option<Vec<u8>>, AllocError>
    ensures { IfOk result (λ found. option_map (λ text. text.items) found ≡ yes_told line.now) }
{
    let yes_form = &[
        Piece::Fixed("yes "),
        Piece::Number(",\"committed\":"),
        Piece::Fixed(" committed "),
        Piece::Number(",\"refused\":"),
        Piece::Fixed(" refused "),
        Piece::Number(",\"withdrawn\":"),
        Piece::Fixed(" withdrawn"),
    ];
    if let Some(text) = told(alloc, yes_form, line)? {
        return Ok(Some(text));
    }
    let history_yes_form = &[
        Piece::Fixed("yes "),
        Piece::Number(",\"committed\":"),
        Piece::Fixed(" committed "),
        Piece::Number(",\"aborted\":"),
        Piece::Fixed(" aborted"),
    ];
    if let Some(text) = told(alloc, history_yes_form, line)? {
        return Ok(Some(text));
    }
    let exists_form = &[
        Piece::Fixed("a certificate exists: "),
        Piece::Number(",\"committed\":"),
        Piece::Fixed(" committed "),
        Piece::Number(",\"refused\":"),
        Piece::Fixed(" refused "),
        Piece::Number(",\"withdrawn\":"),
        Piece::Fixed(" withdrawn"),
    ];
    told(alloc, exists_form, line)
}

// What is named behind a no, or of a line that can't be read.
fn no_told(alloc: Global, line: &[u8]) -> Result<Option<Vec<u8>>, AllocError>
    ensures { IfOk result (λ found. option_map (λ text. text.items) found ≡ no_told line.now) }
{
    let no_line_form = &[
        Piece::Fixed("no line "),
        Piece::Number(",\"line\":"),
        Piece::Fixed(" "),
        Piece::Fault,
    ];
    if let Some(text) = told(alloc, no_line_form, line)? {
        return Ok(Some(text));
    }
    let no_form = &[Piece::Fixed("no "), Piece::Fault];
    if let Some(text) = told(alloc, no_form, line)? {
        return Ok(Some(text));
    }
    let unread_form = &[
        Piece::Fixed("! "),
        Piece::Text(",\"fault\":", " line "),
        Piece::Number(",\"line\":"),
    ];
    told(alloc, unread_form, line)
}

// A step of what `sgt certify` tells.
fn cycle_told(alloc: Global, line: &[u8]) -> Result<Option<Vec<u8>>, AllocError>
    ensures { IfOk result (λ found. option_map (λ text. text.items) found ≡ cycle_told line.now) }
{
    let before_form = &[
        Piece::Number(",\"from\":"),
        Piece::Fixed(" before "),
        Piece::Number(",\"to\":"),
        Piece::Fixed(" site "),
        Piece::Number(",\"site\":"),
        Piece::Fixed(" lines "),
        Piece::Number(",\"lines\":["),
        Piece::Fixed(" "),
        Piece::Number(","),
        Piece::Member("]"),
    ];
    if let Some(text) = told(alloc, before_form, line)? {
        return Ok(Some(text));
    }
    let conflict_form = &[
        Piece::Number(",\"from\":"),
        Piece::Fixed(" "),
        Piece::Text(",\"kind\":", " "),
        Piece::Number(",\"to\":"),
        Piece::Fixed(" site "),
        Piece::Number(",\"site\":"),
        Piece::Fixed(" item "),
        Piece::Text(",\"item\":", " lines "),
        Piece::Number(",\"lines\":["),
        Piece::Fixed(" "),
        Piece::Number(","),
        Piece::Member("]"),
    ];
    told(alloc, conflict_form, line)
}

// An end that could be decided next.
fn end_told(alloc: Global, line: &[u8]) -> Result<Option<Vec<u8>>, AllocError>
    ensures { IfOk result (λ found. option_map (λ text. text.items) found ≡ end_told line.now) }
{
    let commit_form = &[
        Piece::Fixed("c"),
        Piece::Number(",\"tx\":"),
        Piece::Fixed(" site "),
        Piece::Number(",\"site\":"),
        Piece::Fixed(" line "),
        Piece::Number(",\"line\":"),
        Piece::Member(",\"end\":\"commit\""),
    ];
    if let Some(text) = told(alloc, commit_form, line)? {
        return Ok(Some(text));
    }
    let refusal_form = &[
        Piece::Fixed("n"),
        Piece::Number(",\"tx\":"),
        Piece::Fixed(" site "),
        Piece::Number(",\"site\":"),
        Piece::Fixed(" line "),
        Piece::Number(",\"line\":"),
        Piece::Member(",\"end\":\"refuse\""),
    ];
    if let Some(text) = told(alloc, refusal_form, line)? {
        return Ok(Some(text));
    }
    let withdrawal_form = &[
        Piece::Fixed("a"),
        Piece::Number(",\"tx\":"),
        Piece::Fixed(" site "),
        Piece::Number(",\"site\":"),
        Piece::Fixed(" line "),
        Piece::Number(",\"line\":"),
        Piece::Member(",\"end\":\"withdraw\""),
    ];
    told(alloc, withdrawal_form, line)
}

// A step of what `sgt check` tells.
fn step_told(alloc: Global, line: &[u8]) -> Result<Option<Vec<u8>>, AllocError>
    ensures { IfOk result (λ found. option_map (λ text. text.items) found ≡ step_told line.now) }
{
    let session_form = &[
        Piece::Json(",\"from\":"),
        Piece::Fixed(" po "),
        Piece::Json(",\"to\":"),
        Piece::Member(",\"kind\":\"po\""),
        Piece::Fixed(" session "),
        Piece::Json(",\"session\":"),
        Piece::Fixed(" lines "),
        Piece::Number(",\"lines\":["),
        Piece::Fixed(" "),
        Piece::Number(","),
        Piece::Member("]"),
    ];
    if let Some(text) = told(alloc, session_form, line)? {
        return Ok(Some(text));
    }
    let moment_form = &[
        Piece::Json(",\"from\":"),
        Piece::Fixed(" rt "),
        Piece::Json(",\"to\":"),
        Piece::Member(",\"kind\":\"rt\""),
        Piece::Fixed(" done "),
        Piece::Number(",\"done\":"),
        Piece::Fixed(" begin "),
        Piece::Number(",\"begin\":"),
        Piece::Fixed(" lines "),
        Piece::Number(",\"lines\":["),
        Piece::Fixed(" "),
        Piece::Number(","),
        Piece::Member("]"),
    ];
    if let Some(text) = told(alloc, moment_form, line)? {
        return Ok(Some(text));
    }
    let step_form = &[
        Piece::Json(",\"from\":"),
        Piece::Fixed(" "),
        Piece::Text(",\"kind\":", " "),
        Piece::Json(",\"to\":"),
        Piece::Fixed(" "),
        Piece::Json(",\"item\":"),
        Piece::Fixed(" "),
        Piece::Number(",\"versions\":["),
        Piece::Fixed(" "),
        Piece::Number(","),
        Piece::Member("]"),
        Piece::Fixed(" lines "),
        Piece::Number(",\"lines\":["),
        Piece::Fixed(" "),
        Piece::Number(","),
        Piece::Member("]"),
    ];
    told(alloc, step_form, line)
}

// What `sgt check` tells of one line.
fn operation_told(alloc: Global, line: &[u8]) -> Result<Option<Vec<u8>>, AllocError>
    ensures { IfOk result (λ found. option_map (λ text. text.items) found ≡ operation_told line.now) }
{
    let operation_form = &[
        Piece::Fixed("line "),
        Piece::Number(",\"line\":"),
        Piece::Fixed(" "),
        Piece::Json(",\"tx\":"),
        Piece::Fixed(" "),
        Piece::Text(",\"operation\":", " "),
        Piece::Json(",\"item\":"),
        Piece::Fixed(" "),
        Piece::Number(",\"version\":"),
    ];
    if let Some(text) = told(alloc, operation_form, line)? {
        return Ok(Some(text));
    }
    let told_form = &[
        Piece::Fixed("line "),
        Piece::Number(",\"line\":"),
        Piece::Fixed(" "),
        Piece::Json(",\"tx\":"),
        Piece::Fixed(" "),
        Piece::Text(",\"operation\":", " "),
        Piece::Json(",\"item\":"),
        Piece::Fixed(" "),
        Piece::Number(",\"version\":"),
        Piece::Fixed(" "),
        Piece::Rest(",\"about\":"),
    ];
    if let Some(text) = told(alloc, told_form, line)? {
        return Ok(Some(text));
    }
    let order_form = &[Piece::Fixed("order line "), Piece::Number(",\"line\":")];
    told(alloc, order_form, line)
}

// What `sgt explain` tells of two lines, or of one.
fn explained_told(alloc: Global, line: &[u8]) -> Result<Option<Vec<u8>>, AllocError>
    ensures { IfOk result (λ found. option_map (λ text. text.items) found ≡ explained_told line.now) }
{
    let explained_form = &[
        Piece::Fixed("  "),
        Piece::Number(",\"from\":"),
        Piece::Fixed(" "),
        Piece::Text(",\"did\":", " before "),
        Piece::Number(",\"to\":"),
        Piece::Fixed(" "),
        Piece::Text(",\"then\":", ": site "),
        Piece::Number(",\"site\":"),
        Piece::Fixed(", lines "),
        Piece::Number(",\"lines\":["),
        Piece::Fixed(" and "),
        Piece::Number(","),
        Piece::Member("]"),
    ];
    if let Some(text) = told(alloc, explained_form, line)? {
        return Ok(Some(text));
    }
    let shown_form = &[
        Piece::Blanks,
        Piece::Number(",\"line\":"),
        Piece::Fixed(" | "),
        Piece::Rest(",\"entry\":"),
    ];
    told(alloc, shown_form, line)
}

// What a line tells that isn't the first.
fn further_told(alloc: Global, line: &[u8]) -> Result<Option<Vec<u8>>, AllocError>
    ensures { IfOk result (λ found. option_map (λ text. text.items) found ≡ further_told line.now) }
{
    if let Some(text) = cycle_told(alloc, line)? {
        return Ok(Some(text));
    }
    if let Some(text) = end_told(alloc, line)? {
        return Ok(Some(text));
    }
    if let Some(text) = step_told(alloc, line)? {
        return Ok(Some(text));
    }
    if let Some(text) = operation_told(alloc, line)? {
        return Ok(Some(text));
    }
    explained_told(alloc, line)
}

/// The members that a line tells, each with a comma in front.
#[tactic(auto, unfolding(crate::specs::Forms::members_of))]
pub(crate) fn members_of(alloc: Global, line: &[u8]) -> Result<Vec<u8>, AllocError>
    ensures { IfOk result (λ text. text.items ≡ members_of line.now) }
{
    if let Some(text) = yes_told(alloc, line)? {
        return Ok(text);
    }
    if let Some(text) = no_told(alloc, line)? {
        return Ok(text);
    }
    match further_told(alloc, line)? {
        Some(text) => Ok(text),
        None => Ok(Vec::new(alloc)),
    }
}
