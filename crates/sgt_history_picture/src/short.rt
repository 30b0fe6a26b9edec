//! Long names, with their middle left out.

ghost use Rattle.std.specs.Prelude.{◌≡◌, ◌++◌, ◌≤◌, OnOk, get_or};
ghost use Rattle.sgt_history_picture.specs.Short.{goes_on, shown, start_of};

use sgt_draw::{Canvas, Part};
use std::alloc::AllocError;

/// Whether the byte at this place goes on with a character of UTF-8.
fn goes_on_at(text: &[u8], at: usize) -> bool
    ensures { result ≡ goes_on (get_or text.now at 0) }
{
    let byte = if at < text.len() { text[at] } else { 0 };
    128 <= byte && byte < 192
}

/// Where the character begins that the byte at this place is of.
fn start_of(text: &[u8], at: usize) -> usize
    ensures is { result ≡ start_of text.now at }
    ensures within { result ≤ at }
{
    let mut place = at;
    while place > 0 {
        if !goes_on_at(text, place) {
            return place;
        }
        place -= 1;
    }
    place
}

/// Writes a name; of a longer one no more than so many bytes of the front, and about as many of the back.
pub(crate) fn put_shown(
    canvas: &mut Canvas,
    name: &[u8],
    front: u8,
    back: u8,
) -> Result<(), AllocError>
    ensures { OnOk result (canvas.new ≡ canvas.old ++ shown front back name.now) }
{
    let (front, back) = (front as usize, back as usize);
    if name.len() <= front + back {
        return canvas.put(&[Part::Name(name)]);
    }
    let end = start_of(name, front);
    let begin = start_of(name, name.len() - back);
    canvas.put(&[
        Part::Name(&name[..end]),
        Part::Markup("&#8230;"),
        Part::Name(&name[begin..]),
    ])
}

/// How many bytes of a name are drawn, at most.
pub(crate) fn shown_len(name: &[u8], most: usize) -> usize {
    // The last character of the front, an ellipsis, and one character more of the back.
    name.len().min(most.saturating_add(4))
}
