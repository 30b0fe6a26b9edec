//! What a replay or a run wrote, cut at its `---`.

ghost use Rattle.std.specs.Prelude.{◌≡◌, ◌≢◌, ◌↔◌, ◌≤◌, ◌∷◌, ℕ, List, IfSome, IsNone, IsTrue, None, length};
ghost use Rattle.sgt_line.specs.Parts.{parts_of};
ghost use Rattle.sgt_line.specs.Written.{HasRefusal, IsCutAt};
ghost use Rattle.sgt_line.specs.private.Found.{FindsLine};

use crate::line::Line;
use memchr::memmem;

// The first place where a line begins with these bytes, which are the other ones behind an LF.
fn line_with(text: &[u8], head: &[u8], behind_lf: &[u8]) -> Option<usize>
    requires { behind_lf.now ≡ 10 ∷ head.now }
    ensures { FindsLine text.now head.now result }
{
    if text.starts_with(head) {
        return Some(0);
    }
    match memmem::find(text, behind_lf) {
        Some(place) => Some(place + 1),
        None => None,
    }
}

/// The lines in front of the first line `---`, and the bundle behind it; where there is no such line, the text.
pub fn cut(text: &[u8]) -> (&[u8], Option<&[u8]>)
    ensures some { IfSome result.1 (λ bundle. IsCutAt text.now result.0.now bundle.now) }
    ensures first { (front bundle : List ℕ) → IsCutAt text.now front bundle
        → length result.0.now ≤ length front }
    ensures none { IsNone result.1 → (result.0.now ≡ text.now)
        × ((front bundle : List ℕ) → IsCutAt text.now front bundle → ⊥) }
{
    match line_with(text, b"---\n", b"\n---\n") {
        Some(place) => (&text[..place], Some(&text[place + 4..])),
        None => (text, None),
    }
}

/// What of the text is for standard output, and the bundle that goes to the line's place, where it names one.
pub fn shown<'a>(line: &Line, text: &'a [u8]) -> (&'a [u8], Option<&'a [u8]>)
    ensures some { IfSome result.1 (λ bundle.
        ((parts_of line.now).place ≢ None) × IsCutAt text.now result.0.now bundle.now) }
    ensures first { (front bundle : List ℕ) → (parts_of line.now).place ≢ None
        → IsCutAt text.now front bundle → length result.0.now ≤ length front }
    ensures none { IsNone result.1 → (result.0.now ≡ text.now)
        × ((front bundle : List ℕ) → (parts_of line.now).place ≢ None → IsCutAt text.now front bundle → ⊥) }
{
    match &line.place {
        Some(_) => cut(text),
        None => (text, None),
    }
}

/// Whether one of the replies refuses its event.
pub fn has_refusal(replies: &[u8]) -> bool
    ensures { IsTrue result ↔ HasRefusal replies.now }
{
    line_with(replies, b"! E", b"\n! E").is_some()
}

/// The status of a replay that ended with this one, of which these are the replies, where a refused event is a no.
pub fn strict_status(status: u8, replies: &[u8]) -> u8
    ensures refused { status ≡ 0 → HasRefusal replies.now → result ≡ 1 }
    ensures other { (status ≡ 0 → HasRefusal replies.now → ⊥) → result ≡ status }
{
    if status == 0 && has_refusal(replies) {
        return 1;
    }
    status
}
