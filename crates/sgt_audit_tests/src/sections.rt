//! Sections worked out by hand. Transactions 1 to 3 are decided by the numbers 0 to 2, and committed with the ranks
//! 2, 0 and 1.

use sgt_audit_cells::SiteState;
use sgt_names::{Entry, Holding, Item, Kind, Tx};
use std::alloc::AllocError;
use std::test::Fail;

/// What is found of the entry, on an item of this value: that the item has it, and that the entry is in rank and the
/// first.
fn judged(
    state: &SiteState,
    value: u64,
    entry: &Entry,
    number: usize,
    rank: u32,
) -> Option<(bool, bool, bool)> {
    let place = state.place_of(&entry.item()?)?;
    Some((
        state.has_value(place, value),
        state.is_in_rank(place, entry, Some(rank)),
        state.is_first(place, entry, Some(number)),
    ))
}

/// One more entry, whose place is looked up first.
fn enter(
    state: &mut SiteState,
    entry: &Entry,
    number: usize,
    rank: Option<u32>,
) -> Result<(), AllocError> {
    let place = state.place_of_entry(entry);
    state.enter(place, entry, number, rank)
}

#[test]
fn increments_and_reads(rt: HostRuntime) -> Result<(), Fail> {
    let mut state = SiteState::new(rt.alloc(), 3)?;
    let item = Item::new(b"a")?;
    let (first, second, third) = (Tx::new(1)?, Tx::new(2)?, Tx::new(3)?);
    state.begin(1);
    state.list(&Holding { item, value: 5 })?;
    let add = Entry::Add {
        tx: first,
        item,
        value: 7,
    };
    enter(&mut state, &add, 0, Some(2))?;
    let other = Entry::Add {
        tx: second,
        item,
        value: 1,
    };
    assert_eq!(rt; judged(&state, 12, &other, 1, 0), Some((true, true, true)));
    let read = Entry::Read {
        tx: third,
        item,
        value: 12,
    };
    assert_eq!(rt; judged(&state, 12, &read, 2, 1), Some((true, false, true)));
    let again = Entry::Write {
        tx: first,
        item,
        value: 9,
    };
    assert_eq!(rt; judged(&state, 5, &again, 0, 2), Some((false, true, false)));
    Ok(())
}

#[test]
fn ends_and_sections(rt: HostRuntime) -> Result<(), Fail> {
    let mut state = SiteState::new(rt.alloc(), 3)?;
    let item = Item::new(b"a")?;
    let (first, second) = (Tx::new(1)?, Tx::new(2)?);
    state.begin(1);
    state.list(&Holding { item, value: 5 })?;
    let read = Entry::Read {
        tx: second,
        item,
        value: 5,
    };
    enter(&mut state, &read, 1, Some(0))?;
    assert!(rt; state.is_active(1) && !state.have_all_ended());
    enter(&mut state, &Entry::Commit { tx: second }, 1, Some(0))?;
    assert!(rt; !state.is_active(1) && state.have_all_ended());
    let early = Entry::Commit { tx: first };
    assert_eq!(rt;
        (state.is_in_order(&early, 0), judged(&state, 5, &read, 1, 0)),
        (false, Some((true, true, false)))
    );
    state.begin(2);
    assert_eq!(rt;
        (
            state.place_of(&item),
            state.is_active(1),
            state.is_in_order(&early, 0)
        ),
        (None, true, true)
    );
    Ok(())
}

#[test]
fn conflicts(rt: HostRuntime) -> Result<(), Fail> {
    let mut state = SiteState::new(rt.alloc(), 3)?;
    let item = Item::new(b"a")?;
    let (first, second, third) = (Tx::new(1)?, Tx::new(2)?, Tx::new(3)?);
    state.begin(1);
    state.list(&Holding { item, value: 5 })?;
    let write = Entry::Write {
        tx: first,
        item,
        value: 6,
    };
    enter(&mut state, &write, 0, Some(2))?;
    let read = Entry::Read {
        tx: second,
        item,
        value: 6,
    };
    enter(&mut state, &read, 1, Some(0))?;
    let add = Entry::Add {
        tx: third,
        item,
        value: 1,
    };
    enter(&mut state, &add, 2, Some(1))?;
    for (kind, from, to, wanted) in [
        (Kind::Wr, Some(0), Some(1), true),
        (Kind::Rw, Some(1), Some(0), false),
        (Kind::Rw, Some(1), Some(2), true),
        (Kind::Ww, Some(0), Some(2), true),
        (Kind::Wr, None, Some(1), false),
    ] {
        assert_eq!(rt; state.have_conflict(kind, &item, from, to), wanted);
    }
    Ok(())
}
