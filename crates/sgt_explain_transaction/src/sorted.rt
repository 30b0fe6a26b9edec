//! The entries of one transaction by site and item.

ghost use Rattle.std.specs.Prelude.{◌≡◌, ◌≤◌, IfOk, false, filter, length, true};
ghost use Rattle.std.specs.List.Sorted.{IsPartitionPoint, IsSorted};
ghost use Rattle.std.specs.Ordering.{is_le, is_lt};
ghost use Rattle.sgt_explain_transaction.specs.Found.{AreByItem, are_beside, item_cmp};

use crate::dealings::Own;
use std::alloc::AllocError;
use std::cmp::Ordering;

/// By site, and at one site by item. An end has no item, and comes before operations.
fn order(one: &Own, other: &Own) -> Ordering
    ensures { result ≡ item_cmp one.now other.now }
{
    let item = one.logged.entry.item();
    one.site
        .cmp(&other.site)
        .then(item.cmp(&other.logged.entry.item()))
}

/// The entries by site and item; those on one item of a site stay in the order of the log.
pub(crate) fn by_item(mut own: Vec<Own>) -> Result<Vec<Own>, AllocError>
    ensures { IfOk result (λ sorted. AreByItem own.items sorted.items) }
{
    own.sort_by(|one, other| order(one, other))?;
    Ok(own)
}

/// How many come before this one's site and item. A binary search.
fn count_before(sorted: &[Own], other: &Own) -> usize
    requires { IsSorted item_cmp sorted.now }
    ensures within { result ≤ length sorted.now }
    ensures point { IsPartitionPoint (λ own. is_lt (item_cmp own other.now) ≡ true)
        (λ own. is_lt (item_cmp own other.now) ≡ false) sorted.now result }
{
    sorted.partition_point(|own| order(own, other).is_lt())
}

/// How many don't come behind them.
fn count_upto(sorted: &[Own], other: &Own) -> usize
    requires { IsSorted item_cmp sorted.now }
    ensures within { result ≤ length sorted.now }
    ensures point { IsPartitionPoint (λ own. is_le (item_cmp own other.now) ≡ true)
        (λ own. is_le (item_cmp own other.now) ≡ false) sorted.now result }
{
    sorted.partition_point(|own| order(own, other).is_le())
}

/// Those of this one's site and item.
pub(crate) fn beside<'a>(sorted: &'a [Own], other: &Own) -> &'a [Own]
    requires { IsSorted item_cmp sorted.now }
    ensures { result.now ≡ filter (are_beside other.now) sorted.now }
{
    let from = count_before(sorted, other);
    let to = count_upto(sorted, other);
    &sorted[from..to]
}
