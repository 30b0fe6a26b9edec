//! What is said of ranks that aren't 0 to n-1, each once.

ghost use Rattle.std.specs.Prelude.{◌≡◌, ◌≢◌, ◌+◌, ◌<◌, ◌≤◌, ◌++◌, ℕ, All, List, Some, IfOk, IfSome, IfNone, OnOk, Contains, IsPermutation, length, string_bytes};
ghost use Rattle.std.specs.List.Sorted.{IsNonDecreasingBy};
ghost use Rattle.sgt_explain_certificate.specs.Ranks.{given_by, all_given, HasRank, AreDoubled, AreSingle, AreRanksFound, ranks_head, doubled_text, if_doubled, if_above, if_missing, TellsRanks};
ghost use Rattle.sgt_explain_certificate.specs.declared.ranks.Given.{Given as AGiven};

use sgt_bundle::Decision;
use sgt_names::Tx;
use std::alloc::{AllocError, Global};
use std::fmt::Write;

/// The rank of a commit, with its transaction and the number of its decision.
#[derive(Clone, Copy)]
pub struct Given {
    pub rank: u32,
    pub tx: Tx,
    pub number: usize,
}

/// What is wrong with the ranks of so many commits: two that are one, one that is too great, and
/// one that nobody has.
#[derive(Clone, Copy)]
pub struct RanksFound {
    pub commits: usize,
    pub doubled: Option<(Given, Given)>,
    pub above: Option<Given>,
    pub missing: Option<usize>,
}

/// The rank that the decision of this number gives, if it is a commit.
fn given_by(number: usize, decision: &Decision) -> Option<Given>
    ensures { result ≡ given_by number decision.now }
{
    match decision {
        Decision::Commit { tx, rank } => Some(Given {
            rank: *rank,
            tx: *tx,
            number,
        }),
        _ => None,
    }
}

/// The ranks of all commits, from the least on.
fn given_in(alloc: Global, decisions: &[Decision]) -> Result<Vec<Given>, AllocError>
    ensures all { IfOk result (λ given. IsPermutation (all_given decisions.now) given.items) }
    ensures rising { IfOk result (λ given. IsNonDecreasingBy (λ g. g.rank) given.items) }
{
    let mut given = Vec::new(alloc);
    for (number, decision) in decisions.iter().enumerate() {
        if let Some(one) = given_by(number, decision) {
            given.push(one)?;
        }
    }
    given.sort_by_key(|one| one.rank)?;
    Ok(given)
}

/// The two, if they are of one rank and of two decisions: the one of the smaller number first.
fn doubled_with(before: &Option<Given>, one: &Given) -> Option<(Given, Given)>
    ensures both { (given : List AGiven) → IfSome before.now (Contains given) → Contains given one.now
        → IfSome result (λ two. Contains given two.0 × Contains given two.1) }
    ensures doubled { IfSome result (λ two. AreDoubled two.0 two.1) }
    ensures none { IfNone result ((other : AGiven) → before.now ≡ Some other
        → other.rank ≡ one.now.rank → other.number ≡ one.now.number) }
{
    match before {
        Some(other) if other.rank == one.rank && other.number < one.number => Some((*other, *one)),
        Some(other) if other.rank == one.rank && one.number < other.number => Some((*one, *other)),
        _ => None,
    }
}

/// The first two of one rank.
fn doubled(given: &[Given]) -> Option<(Given, Given)>
    requires { IsNonDecreasingBy (λ g. g.rank) given.now }
    ensures some { IfSome result (λ two. Contains given.now two.0 × Contains given.now two.1
        × AreDoubled two.0 two.1) }
    ensures none { IfNone result (AreSingle given.now) }
{
    let mut before: Option<Given> = None;
    for one in given {
        let found = doubled_with(&before, one);
        if found.is_some() {
            return found;
        }
        before = Some(*one);
    }
    None
}

/// The next number, where the rank is this one.
fn wanted_behind(wanted: usize, rank: u32) -> usize
    ensures met { rank ≡ wanted → result ≡ wanted + 1 }
    ensures other { rank ≢ wanted → result ≡ wanted }
{
    if rank as usize == wanted {
        wanted + 1
    } else {
        wanted
    }
}

/// The least rank that is not given, if it is smaller than their count.
fn missing(given: &[Given]) -> Option<usize>
    requires { IsNonDecreasingBy (λ g. g.rank) given.now }
    ensures some { IfSome result (λ rank. (rank < length given.now) × All
        (λ g. g.rank ≢ rank) given.now) }
    ensures none { IfNone result ((rank : ℕ) → rank < length given.now → HasRank given.now rank) }
{
    let mut wanted = 0usize;
    for one in given {
        wanted = wanted_behind(wanted, one.rank);
    }
    if wanted < given.len() {
        Some(wanted)
    } else {
        None
    }
}

/// The greatest rank, where there are not more commits.
fn above(given: &[Given]) -> Option<Given>
    requires { IsNonDecreasingBy (λ g. g.rank) given.now }
    ensures some { IfSome result (λ g. Contains given.now g × (length given.now ≤ g.rank)) }
    ensures none { IfNone result (All (λ g. g.rank < length given.now) given.now) }
{
    let Some(last) = given.last() else {
        return None;
    };
    if (last.rank as usize) < given.len() {
        return None;
    }
    Some(*last)
}

/// What is wrong with the ranks of all commits.
fn ranks_found(alloc: Global, decisions: &[Decision]) -> Result<RanksFound, AllocError>
    ensures { IfOk result (AreRanksFound decisions.now) }
{
    let given = given_in(alloc, decisions)?;
    Ok(RanksFound {
        commits: given.len(),
        doubled: doubled(given.as_slice()),
        above: above(given.as_slice()),
        missing: missing(given.as_slice()),
    })
}

fn push_ranks_head(out: &mut String, commits: usize) -> Result<(), AllocError>
    ensures { OnOk result (string_bytes out.new ≡ string_bytes out.old ++ ranks_head commits) }
{
    let greatest = commits.saturating_sub(1);
    write!(
        out,
        "Ranks: the ranks of the {commits} commits have to be 0 to {greatest}, each once\n"
    )
}

/// Two decisions that give one rank.
fn push_both_given(out: &mut String, first: &Given, second: &Given) -> Result<(), AllocError>
    ensures { OnOk result (string_bytes out.new ≡ string_bytes out.old
        ++ doubled_text first.now second.now) }
{
    let rank = first.rank;
    let one = first.tx;
    let number = first.number;
    let other = second.tx;
    let again = second.number;
    write!(
        out,
        "rank {rank} is given to {one} (decision {number}) and to {other} (decision {again})\n"
    )
}

/// The same, if there are such.
fn push_doubled(out: &mut String, found: &Option<(Given, Given)>) -> Result<(), AllocError>
    ensures { OnOk result (string_bytes out.new ≡ string_bytes out.old ++ if_doubled found.now) }
{
    match found {
        Some((first, second)) => push_both_given(out, first, second),
        None => out.push_str(""),
    }
}

/// A rank that is too great, if there is one.
fn push_above(out: &mut String, found: &Option<Given>) -> Result<(), AllocError>
    ensures { OnOk result (string_bytes out.new ≡ string_bytes out.old ++ if_above found.now) }
{
    match found {
        Some(given) => {
            let rank = given.rank;
            let tx = given.tx;
            let number = given.number;
            write!(
                out,
                "rank {rank} of {tx} (decision {number}) is too great\n"
            )
        }
        None => out.push_str(""),
    }
}

/// A rank that nobody has, if there is one.
fn push_missing(out: &mut String, found: Option<usize>) -> Result<(), AllocError>
    ensures { OnOk result (string_bytes out.new ≡ string_bytes out.old ++ if_missing found) }
{
    match found {
        Some(rank) => write!(out, "rank {rank} is given to nobody\n"),
        None => out.push_str(""),
    }
}

/// F4: the ranks aren't 0 to n-1, each once.
pub fn push_ranks(alloc: Global, out: &mut String, decisions: &[Decision]) -> Result<(), AllocError>
    ensures { OnOk result (TellsRanks decisions.now (string_bytes out.old) (string_bytes out.new)) }
{
    let found = ranks_found(alloc, decisions)?;
    push_ranks_head(out, found.commits)?;
    push_doubled(out, &found.doubled)?;
    push_above(out, &found.above)?;
    push_missing(out, found.missing)
}
