//! The lines of sites, read exactly where they are spelled.

ghost use Rattle.std.specs.Prelude.{◌≡◌, ◌≢◌, ◌↔◌, ℕ, ◌<◌, List, [], ◌∷◌, codes, decimal, length, option_map, None, IfSome, IfNone, IsTrue};
ghost use Rattle.sgt_names.specs.Limits.{max_items};
ghost use Rattle.sgt_names.specs.declared.entry.Holding.{Holding as Listing};
ghost use Rattle.sgt_notation.specs.Events.{IsSiteLine, ReadsSite, site_text, site_words};
ghost use Rattle.sgt_notation.specs.PrivateEvents.{IsBehind, Keeps, KeepsSite, MayFollow, item_words, words, words_behind};
ghost use Rattle.sgt_notation.specs.Reading.{SpellsNone};
ghost use Rattle.sgt_notation.specs.Spelling.{IsSite};

use crate::event::SiteLine;
use crate::fault::NotationFault;
use crate::number::find_site;
use crate::reading::{behind, cut, find_holding, refusal};
use sgt_names::{Holding, Item, Listed, MAX_ITEMS, SiteNo};
use std::alloc::Global;

/// The first word, and what stands behind its space, if it has one.
pub(crate) fn first_word(text: &[u8]) -> (&[u8], Option<&[u8]>)
    ensures words { words text.now
        ≡ result.0.now ∷ words_behind (option_map (λ r. r.now) result.1) }
    ensures shorter { IfSome result.1 (λ r. length r.now < length text.now) }
{
    match cut(text, b' ') {
        Some((word, rest)) => (word, Some(rest)),
        None => (text, None),
    }
}

/// Reads `site K`, and what stands behind it.
fn find_number(line: &[u8]) -> Option<(SiteNo, Option<&[u8]>)>
    ensures some { IfSome result (λ r. IsSite r.0
        × (words line.now ≡ codes "site" ∷ decimal r.0 ∷ words_behind (option_map (λ t. t.now) r.1))) }
    ensures none { IfNone result ((k : ℕ) (ws : List (List ℕ)) → IsSite k → words line.now ≢ codes "site" ∷ decimal k ∷ ws) }
{
    let text = behind(line, b"site ")?;
    let (number, rest) = first_word(text);
    let site = find_site(number)?;
    Some((site, rest))
}

/// Whether an item of this name may stand behind the last one, where so many more fit.
fn may_follow(last: Option<Item>, room: usize, item: &Item) -> bool
    ensures { IsTrue result ↔ (0 < room) × IsBehind last item.now }
{
    room > 0
        && match last {
            Some(last) => last < *item,
            None => true,
        }
}

/// Keeps the items that these words spell: whether there was room for all. `None` where they spell no items.
fn keep_items(items: &mut Vec<Holding>, text: Option<&[u8]>) -> Option<bool>
    requires { items.old.items ≡ [] }
    ensures some { IfSome result
        (Keeps (words_behind (option_map (λ t. t.now) text.entry)) items.new.items) }
    ensures none { IfNone result ((hs : List Listing) → MayFollow None max_items hs
        → words_behind (option_map (λ t. t.now) text.entry) ≢ item_words hs) }
{
    let mut rest = text;
    let mut last = None;
    let mut room = MAX_ITEMS;
    let mut kept = true;
    'words: while let Some(text) = rest {
        let (word, more) = first_word(text);
        let holding = find_holding(word)?;
        if !may_follow(last, room, &holding.item) {
            return None;
        }
        if items.push(holding).is_err() {
            kept = false;
        }
        last = Some(holding.item);
        room -= 1;
        rest = more;
    }
    Some(kept)
}

/// Reads the number of the line's site, and keeps its items: whether there was room for all.
fn find_items(items: &mut Vec<Holding>, line: &[u8]) -> Option<(SiteNo, bool)>
    requires { items.old.items ≡ [] }
    ensures some { IfSome result (λ r. KeepsSite line.now r.0 items.new.items r.1) }
    ensures none { IfNone result (SpellsNone IsSiteLine site_text line.now) }
{
    let Some(head) = find_number(line) else {
        return None;
    };
    match keep_items(items, head.1) {
        Some(kept) => Some((head.0, kept)),
        None => None,
    }
}

/// The site that this line, without its LF, spells: `site K NAME=NUM NAME=NUM ..` with single spaces, names rising, and
/// at most 1,024 items, possibly none. L2 for a line that is too long, and L1 for any other line. L3 where a growth was
/// refused: only of a line that spells a site with some item.
pub fn read_site(alloc: Global, line: &[u8]) -> Result<SiteLine, NotationFault>
    ensures { ReadsSite line.now result }
{
    let mut items = Vec::new(alloc);
    match find_items(&mut items, line) {
        Some((site, true)) => Ok(SiteLine {
            site,
            items: Listed::new(items),
        }),
        Some((_, false)) => Err(NotationFault::Memory),
        None => Err(refusal(line)),
    }
}
