//! The kept reads among what a draft touches at one site.

ghost use Rattle.std.specs.Prelude.{◌≡◌, ◌↔◌, IsTrue, IsSome, IfOk, IfErr};
ghost use Rattle.sgt_names.specs.Ordered.{IsAt, IsGapFor};
ghost use Rattle.sgt_names.specs.Draft.{AreRising, place_of, place_cmp};
ghost use Rattle.sgt_site.specs.private.Cells.{KeepsItem};

use sgt_names::{Item, SiteNo, Touch};
use std::cmp::Ordering;

// As many touched items are looked at one by one.
const FEW: usize = 8;

/// Whether a read of the item of the site is kept. A binary search, where more than a few are touched.
pub(crate) fn keeps(number: SiteNo, touched: &[Touch], item: Item) -> bool
    requires { AreRising touched.now }
    ensures { IsTrue result ↔ KeepsItem touched.now number item }
{
    if touched.len() <= FEW {
        return touched.iter().any(|t| keeps_read(t, number, item));
    }
    match search(touched, number, item) {
        Ok(at) => touched[at].seen.is_some(),
        Err(_) => false,
    }
}

#[inline(always)]
fn keeps_read(touch: &Touch, number: SiteNo, item: Item) -> bool
    ensures { IsTrue result
        ↔ ((touch.now.site ≡ number) × IsSome touch.now.seen × (touch.now.item ≡ item)) }
{
    touch.site == number && touch.item == item && touch.seen.is_some()
}

// Where the item of the site is among the touched ones, or where it would go.
#[inline(never)]
fn search(touched: &[Touch], number: SiteNo, item: Item) -> Result<usize, usize>
    requires { AreRising touched.now }
    ensures found { IfOk result (IsAt place_of touched.now (number, item)) }
    ensures absent { IfErr result (IsGapFor place_of place_cmp touched.now (number, item)) }
{
    touched.binary_search_by(|t| order(t, number, &item))
}

fn order(touch: &Touch, number: SiteNo, item: &Item) -> Ordering
    ensures { result ≡ place_cmp (place_of touch.now) (number, item.now) }
{
    touch
        .site
        .number()
        .cmp(&number.number())
        .then(touch.item.cmp(item))
}
