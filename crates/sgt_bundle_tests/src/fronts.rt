//! Lines at the front of bytes that hold more.

use sgt_names::{Entry, Holding, Item, MemSource, SiteNo, Tx};
use sgt_notation::{
    Event, EventLine, Lines, Next, SectionLine, behind, front_entry_line, front_event, front_line,
    front_number, front_word_line, held_lines_come_next,
};
use std::test::Fail;

#[test]
fn each_kind_of_line_is_found(rt: HostRuntime) -> Result<(), Fail> {
    let tx = Tx::new(12)?;
    let item = Item::new(b"x_1")?;
    let value = u64::MAX;
    for (text, entry, n) in [
        (
            "r12[x_1]=18446744073709551615\nc12\n",
            Entry::Read { tx, item, value },
            30,
        ),
        ("w12[x_1]=0\n", Entry::Write { tx, item, value: 0 }, 11),
        ("c12\nn", Entry::Commit { tx }, 4),
        ("a12\n", Entry::Withdraw { tx }, 4),
    ] {
        assert!(rt;
            front_line(text.as_bytes()) == Some((SectionLine::Logged(entry), n)),
            "{text}"
        );
        assert!(rt;
            front_entry_line(text.as_bytes()) == Some((SectionLine::Logged(entry), n)),
            "{text}"
        );
        assert!(rt; front_word_line(text.as_bytes()).is_none(), "{text}");
    }
    let holding = Holding { item, value: 70 };
    for (text, line, n) in [
        ("item x_1=70\nitem y=1", SectionLine::Initial(holding), 12),
        ("final x_1=70\n", SectionLine::Final(holding), 13),
        ("site 16\n", SectionLine::Site(SiteNo::new(16)?), 8),
        ("end\nsite 17\n", SectionLine::End, 4),
        (
            "item x_1=70\nitem x_2=70\nitem x_3=70\nitem x_4=70\nitem x_5=70\nitem x_6=70\n",
            SectionLine::Initial(holding),
            12,
        ),
        (
            "final x_1=70\nfinal x_2=70\nfinal x_3=70\nfinal x_4=70\nfinal x_5=70\n",
            SectionLine::Final(holding),
            13,
        ),
    ] {
        assert!(rt; front_line(text.as_bytes()) == Some((line, n)), "{text}");
        assert!(rt;
            front_word_line(text.as_bytes()) == Some((line, n)),
            "{text}"
        );
        assert!(rt; front_entry_line(text.as_bytes()).is_none(), "{text}");
    }
    Ok(())
}

#[test]
fn words_and_numbers_in_front_are_found(rt: HostRuntime) -> Result<(), Fail> {
    assert!(rt; behind(b"site 16", b"site ") == Some(b"16".as_slice()));
    assert!(rt; behind(b"item x=1", b"site ").is_none());
    assert!(rt; front_number(b"70]=1") == Some((70, b"]=1".as_slice())));
    Ok(())
}

#[test]
fn held_lines_are_passed_over(rt: HostRuntime) -> Result<(), Fail> {
    let mut source = MemSource::new(b"site 0\nend\nc1\nla", 65_536, None);
    let mut lines = Lines::new(rt.alloc())?;
    let mut line = Vec::new(rt.alloc());
    assert!(rt; lines.next_held().is_none());
    assert!(rt; lines.next(&mut source, &mut line, 50) == Ok(Next::Line));
    assert!(rt; lines.next_held() == Some(SectionLine::End));
    assert!(rt; lines.held() == b"c1\nla".as_slice());
    let n = lines.held().len();
    assert_eq!(rt; n, 5);
    lines.pass(3);
    assert!(rt; lines.next_held().is_none());
    assert!(rt; lines.next(&mut source, &mut line, 50) == Ok(Next::Cut));
    assert!(rt; line.as_slice() == b"la".as_slice());
    held_lines_come_next();
    Ok(())
}

#[test]
fn an_event_is_found(rt: HostRuntime) -> Result<(), Fail> {
    let tx = Tx::new(12)?;
    let site = SiteNo::new(3)?;
    let item = Item::new(b"x_1")?;
    let read = EventLine::One(Event::Read { tx, site, item });
    assert!(rt; front_event(b"r12[3.x_1]\nb\n") == Some((read, 11)));
    assert!(rt; front_event(b"r12[3.x_1]") == None);
    let site = SiteNo::new(63)?;
    let read = EventLine::One(Event::Read { tx, site, item });
    assert!(rt; front_event(b"r12[63.x_1]\n") == Some((read, 12)));
    assert!(rt; front_event(b"r12[03.x_1]\n") == None);
    assert!(rt; front_event(b"r12[64.x_1]\n") == None);
    assert!(rt; front_event(b"r12[063.x_1]\n") == None);
    Ok(())
}
