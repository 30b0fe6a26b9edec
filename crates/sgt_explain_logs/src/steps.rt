//! The lines behind the first of an answer, read back.

use std::alloc::{AllocError, Global};

/// A step of a cycle: two lines of a site of which the first stands before the second.
#[derive(Clone, Copy)]
pub struct Step {
    pub site: u8,
    pub first: u64,
    pub second: u64,
}

/// The next end of a site that has some left.
#[derive(Clone, Copy)]
pub struct Left {
    pub site: u8,
    pub line: u64,
}

fn number_of(word: &str) -> Option<u64> {
    word.parse::<u64>().ok()
}

/// The site at the front of a text: `0`, or `0 item x`.
fn site_of(text: &str) -> Option<u8> {
    let word = match text.split_once(' ') {
        Some((word, _)) => word,
        None => text,
    };
    word.parse::<u8>().ok()
}

/// The step that a line tells: `1 rw 2 site 0 item x lines 4 8`, `1 before 2 site 0 lines 5 9`.
fn step_of(line: &str) -> Option<Step> {
    let (_, behind) = line.split_once(" site ")?;
    let (site, lines) = behind.split_once(" lines ")?;
    let (first, second) = lines.split_once(' ')?;
    Some(Step {
        site: site_of(site)?,
        first: number_of(first)?,
        second: number_of(second)?,
    })
}

/// The end that a line tells: `n1 site 0 line 8`.
fn left_of(line: &str) -> Option<Left> {
    let (_, behind) = line.split_once(" site ")?;
    let (site, number) = behind.split_once(" line ")?;
    Some(Left {
        site: site_of(site)?,
        line: number_of(number)?,
    })
}

/// The steps that these lines tell.
pub(crate) fn steps_in(alloc: Global, lines: &str) -> Result<Vec<Step>, AllocError> {
    let mut steps = Vec::new(alloc);
    for line in lines.split('\n') {
        if let Some(step) = step_of(line) {
            steps.push(step)?;
        }
    }
    Ok(steps)
}

/// The ends that these lines tell.
pub(crate) fn left_in(alloc: Global, lines: &str) -> Result<Vec<Left>, AllocError> {
    let mut left = Vec::new(alloc);
    for line in lines.split('\n') {
        if let Some(end) = left_of(line) {
            left.push(end)?;
        }
    }
    Ok(left)
}

/// What an answer says in its first line.
#[derive(Clone, Copy, Debug, PartialEq, Eq)]
pub(crate) enum Reason {
    Fault { line: u64, number: u64 },
    Order,
    Ranks,
    Walk,
}

/// The reason of a no, by its first line.
pub(crate) fn reason_of(line: &str) -> Option<Reason> {
    match line {
        "no order" => Some(Reason::Order),
        "no ranks" => Some(Reason::Ranks),
        "no walk" => Some(Reason::Walk),
        _ => {
            let (line, number) = line.strip_prefix("no line ")?.split_once(" F")?;
            Some(Reason::Fault {
                line: number_of(line)?,
                number: number_of(number)?,
            })
        }
    }
}
