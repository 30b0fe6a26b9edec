//! Names, numbers, lists and messages: that the calls succeed, on values from outside, and what is printed.

use sgt_names::{
    BadName, BadNumber, Change, EngineFail, Entry, Item, Kind, Listed, MAX_ITEMS, MAX_SITES,
    SiteNo, Tx, additions_sum_up, changes_show_at_their_place, increments_commute,
    increments_conflict_with_others, increments_do_not_conflict, value_is_of_the_last_write,
};
use std::alloc::AllocError;
use std::test::Fail;

const LAST: u64 = 18_446_744_073_709_551_615;

const NUMBERS: [(u64, bool, bool); 9] = [
    (0, false, true),
    (1, true, true),
    (63, true, true),
    (64, true, false),
    (256, true, false),
    (4_294_967_295, true, false),
    (4_294_967_296, false, false),
    (4_294_967_297, false, false),
    (LAST, false, false),
];

#[test]
fn numbers_in_their_ranges(rt: HostRuntime) -> Result<(), Fail> {
    for (number, tx, site) in NUMBERS {
        assert!(rt; Tx::new(number).is_ok() == tx, "{number}");
        assert!(rt; SiteNo::new(number).is_ok() == site, "{number}");
    }
    assert!(rt; Tx::new(7)?.number() == 7 && SiteNo::new(63)?.number() == 63);
    assert!(rt; MAX_SITES == 64 && MAX_ITEMS == 1_024);
    Ok(())
}

const NAMES: [(&str, bool); 11] = [
    ("x", true),
    ("z9_", true),
    ("abcdefghijklmnop", true),
    ("abcdefghijklmnopq", false),
    ("", false),
    ("9x", false),
    ("_x", false),
    ("X", false),
    ("xY", false),
    ("x ", false),
    ("é", false),
];

#[test]
fn names_of_items(rt: HostRuntime) {
    for (text, good) in NAMES {
        let same = match Item::new(text.as_bytes()) {
            Ok(item) => item.as_bytes() == text.as_bytes(),
            Err(BadName) => !good,
        };
        assert!(rt; same, "{text}");
    }
}

const LEADING: [(&[u8; 16], &str); 6] = [
    (b"x_1]=5\nr2[y]=05\n", "x_1"),
    (b"abcdefghijklmnop", "abcdefghijklmnop"),
    (b"z9_ a           ", "z9_"),
    (b"9x=5            ", ""),
    (b"_x=5            ", ""),
    (b"Xy=5            ", ""),
];

#[test]
fn names_at_the_front(rt: HostRuntime) -> Result<(), Fail> {
    for (bytes, name) in LEADING {
        let same = match Item::leading(bytes) {
            Some((item, len)) => item.as_bytes() == name.as_bytes() && len == name.len(),
            None => name.is_empty(),
        };
        assert!(rt; same, "{name}");
    }
    assert!(rt; Item::new(b"x")?.key() == 120);
    assert!(rt; Item::new(b"abcdefghi")?.key() == 0x6867_6668_4463_6261);
    Ok(())
}

#[test]
fn what_is_printed(rt: HostRuntime) -> Result<(), Fail> {
    let (tx, site, item) = (Tx::new(7)?, SiteNo::new(3)?, Item::new(b"a_")?);
    let memory = EngineFail::from(AllocError);
    let (read, write) = (EngineFail::ReadFault, EngineFail::WriteFault);
    let told = format!(in rt.alloc();
        "{tx} {site} {item}|{BadName}|{BadNumber}|{memory}|{read}|{write}"
    )?;
    assert!(rt;
        told.as_str()
            == "7 3 a_|N1: a name is a small letter and then up to 15 small letters, digits and underscores|N2: the number is out of range|memory|read fault|write fault"
    );
    Ok(())
}

#[test]
fn laws_and_lists(rt: HostRuntime) -> Result<(), Fail> {
    additions_sum_up();
    changes_show_at_their_place();
    increments_commute();
    increments_conflict_with_others();
    increments_do_not_conflict();
    value_is_of_the_last_write();
    let list = Listed::new(vec![in rt.alloc(); Change::Put(1), Change::Add(2)]?);
    assert!(rt; list.as_slice() == [Change::Put(1), Change::Add(2)].as_slice());
    assert!(rt; list.into_vec().len() == 2);
    Ok(())
}

#[test]
fn conflicts_have_a_kind(rt: HostRuntime) -> Result<(), Fail> {
    let (one, two, item) = (Tx::new(1)?, Tx::new(2)?, Item::new(b"x")?);
    let read = Entry::Read {
        tx: one,
        item,
        value: 5,
    };
    let write = Entry::Write {
        tx: two,
        item,
        value: 7,
    };
    let add = Entry::Add {
        tx: two,
        item,
        value: 7,
    };
    assert!(rt; read.clash_on(&item, &write) == Some(Kind::Rw));
    assert!(rt; write.clash_on(&item, &read) == Some(Kind::Wr));
    assert!(rt; write.clash_on(&item, &add) == Some(Kind::Ww) && add.clash_on(&item, &add) == None);
    assert!(rt; add.clashes(Kind::Wr, &item, &read) && !add.clashes(Kind::Rw, &item, &read));
    Ok(())
}
