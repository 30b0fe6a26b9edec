//! The text of a cycle that isn't of conflicts alone.

ghost use Rattle.std.specs.Prelude.{◌≡◌, ◌++◌, IfOk, OnOk};
ghost use Rattle.std.specs.List.{flat_map};
ghost use Rattle.sgt_check.specs.Told.{spelled, text_at};
ghost use Rattle.sgt_check_kept.specs.Text.{class_text, ends_text, is_read_write, is_time, kept_text, kind_text, link_text, lines_text, read_writes, session_text, time_text, timed, times_text};

use crate::link::Link;
use crate::setting::Setting;
use sgt_check::{Naming, push_line_number, push_name, push_step};
use sgt_history::Conflict;
use sgt_notation::push_number;
use std::alloc::{AllocError, Global};

/// Whether the step is a rw.
fn is_rw(link: &Link) -> bool
    ensures { result ≡ is_read_write link.now }
{
    match link {
        Link::Conflict(step) => match step.kind {
            Conflict::ReadWrite => true,
            _ => false,
        },
        _ => false,
    }
}

/// Whether the step is one of real time.
fn is_rt(link: &Link) -> bool
    ensures { result ≡ is_time link.now }
{
    match link {
        Link::Time { .. } => true,
        _ => false,
    }
}

/// How many of the steps are rw.
fn count_rw(links: &[Link]) -> usize
    ensures { result ≡ read_writes links.now }
{
    let mut count = 0;
    for link in links {
        if is_rw(link) {
            count += 1;
        }
    }
    count
}

/// How many are of real time.
fn count_rt(links: &[Link]) -> usize
    ensures { result ≡ timed links.now }
{
    let mut count = 0;
    for link in links {
        if is_rt(link) {
            count += 1;
        }
    }
    count
}

/// The name of a cycle by how many of its steps are rw.
fn class_word(rw: usize) -> &'static [u8]
    ensures { result.now ≡ class_text rw }
{
    if rw == 0 {
        b"no G1c"
    } else if rw == 1 {
        b"no G-single"
    } else {
        b"no G2-item"
    }
}

/// What stands behind the name, by how many of the steps are of real time.
fn kind_word(rt: usize) -> &'static [u8]
    ensures { result.now ≡ kind_text rt }
{
    if rt == 0 {
        b"-process\n"
    } else {
        b"-realtime\n"
    }
}

/// Puts the ids of two lines, and a word between.
fn push_ends(
    out: &mut Vec<u8>,
    naming: &Naming,
    ends: (u32, u32),
    word: &[u8],
) -> Result<(), AllocError>
    ensures { OnOk result (out.new.items ≡ out.old.items ++ ends_text (spelled naming.now) word.now ends.0 ends.1) }
{
    let (from, to) = ends;
    push_name(out, &naming.ids, from)?;
    out.extend_from_slice(word)?;
    push_name(out, &naming.ids, to)
}

/// Puts the numbers of two lines, and the end of the line.
fn push_lines(out: &mut Vec<u8>, ends: (u32, u32)) -> Result<(), AllocError>
    ensures { OnOk result (out.new.items ≡ out.old.items ++ lines_text ends.0 ends.1) }
{
    let (from, to) = ends;
    out.extend_from_slice(b" lines ")?;
    push_line_number(out, from)?;
    out.extend_from_slice(b" ")?;
    push_line_number(out, to)?;
    out.extend_from_slice(b"\n")
}

/// Puts the line of a step by a session.
fn push_session(
    out: &mut Vec<u8>,
    setting: &Setting,
    ends: (u32, u32),
    session: u32,
) -> Result<(), AllocError>
    ensures { OnOk result (out.new.items ≡ out.old.items
        ++ session_text (spelled setting.now.naming) (text_at setting.now.sessions) ends.0 ends.1 session) }
{
    push_ends(out, &setting.naming, ends, b" po ")?;
    out.extend_from_slice(b" session ")?;
    push_name(out, &setting.sessions, session)?;
    push_lines(out, ends)
}

/// Puts when the one was done, and when the other began.
fn push_times(out: &mut Vec<u8>, done: u64, begin: u64) -> Result<(), AllocError>
    ensures { OnOk result (out.new.items ≡ out.old.items ++ times_text done begin) }
{
    out.extend_from_slice(b" done ")?;
    push_number(out, done)?;
    out.extend_from_slice(b" begin ")?;
    push_number(out, begin)
}

/// Puts the line of a step by time.
fn push_time(
    out: &mut Vec<u8>,
    naming: &Naming,
    ends: (u32, u32),
    done: u64,
    begin: u64,
) -> Result<(), AllocError>
    ensures { OnOk result (out.new.items ≡ out.old.items ++ time_text (spelled naming.now) ends.0 ends.1 done begin) }
{
    push_ends(out, naming, ends, b" rt ")?;
    push_times(out, done, begin)?;
    push_lines(out, ends)
}

/// Puts the line of a step.
pub fn push_link(out: &mut Vec<u8>, setting: &Setting, link: &Link) -> Result<(), AllocError>
    ensures { OnOk result (out.new.items ≡ out.old.items ++ link_text (spelled setting.now.naming)
        (text_at setting.now.sessions) link.now) }
{
    match link {
        Link::Conflict(step) => push_step(out, &setting.naming, step),
        Link::Session { from, to, session } => push_session(out, setting, (*from, *to), *session),
        Link::Time {
            from,
            to,
            done,
            begin,
        } => push_time(out, &setting.naming, (*from, *to), *done, *begin),
    }
}

/// Puts the lines of steps.
fn push_links(out: &mut Vec<u8>, setting: &Setting, links: &[Link]) -> Result<(), AllocError>
    ensures { OnOk result (out.new.items ≡ out.old.items
        ++ flat_map (link_text (spelled setting.now.naming) (text_at setting.now.sessions)) links.now) }
{
    for link in links {
        push_link(out, setting, link)?;
    }
    Ok(())
}

/// The name of a cycle, and its steps.
pub(crate) fn cycle_text(
    alloc: Global,
    setting: &Setting,
    links: &[Link],
) -> Result<Vec<u8>, AllocError>
    ensures { IfOk result (λ text. text.items ≡ kept_text (spelled setting.now.naming) (text_at setting.now.sessions)
        links.now) }
{
    let mut text = Vec::from_slice(alloc, class_word(count_rw(links)))?;
    text.extend_from_slice(kind_word(count_rt(links)))?;
    push_links(&mut text, setting, links)?;
    Ok(text)
}
