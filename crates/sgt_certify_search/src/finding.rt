//! What is found of a text.

ghost use Rattle.std.specs.Prelude.{◌<◌, length, IfSome};

use crate::reading::Reader;
use crate::search::{Finding, Stuck, numbers_of, search};
use crate::steps::{conflict_steps, end_steps};
use sgt_bundle::Certificate;
use sgt_certify_history::History;
use sgt_certify_logs::{ConflictStep, EndStep};
use sgt_certify_stuck::StuckSet;
use sgt_names::{Listed, Tx};
use sgt_notation::{SectionLine, front_entry_line, front_line, read_section, split_line};
use std::alloc::{AllocError, Global};

/// What shows that there is no certificate.
#[derive(Drop)]
pub enum Proof {
    /// A cycle of ends.
    Ends(Vec<EndStep>),
    /// A cycle of conflicts; and an order in which the ends lead onward, so that they are in no cycle.
    Conflicts {
        cycle: Vec<ConflictStep>,
        ends: Vec<Tx>,
    },
    /// A stuck set; and orders in which the ends, and the committed conflicts, lead onward.
    Stuck {
        set: StuckSet,
        ends: Vec<Tx>,
        ranks: Vec<Tx>,
    },
}

/// Why there is no certificate of logs of so many sites: what may show it.
#[derive(Drop)]
pub struct Reason {
    pub sites: u8,
    pub proof: Proof,
}

/// What was found of a text of logs.
#[derive(Drop)]
pub enum Found {
    /// This may be its certificate.
    Certificate(Certificate),
    /// There is none, for this reason.
    Refused(Reason),
    /// No search was made: there is no place for a line.
    Nothing,
}

/// The line of a section that stands at the front, and what stands behind it.
fn split_section(text: &[u8]) -> Option<(SectionLine, &[u8])>
    ensures { IfSome result (λ split. length split.1.now < length text.now) }
{
    if let Some((line, n)) = front_line(text) {
        if n > 0 {
            return Some((line, &text[n..]));
        }
    }
    let (line, behind) = split_line(text)?;
    match read_section(line) {
        Ok(line) => Some((line, behind)),
        Err(_) => None,
    }
}

/// What became of the front of a text.
enum Fed {
    /// The line there was read, of so many bytes with its LF.
    Line(usize),
    /// There is no place for the line.
    Misplaced,
    /// There is no line.
    Unread,
}

/// Feeds the reader the line at the front of the text, whichever it is.
#[inline(never)]
fn feed_line(reader: &mut Reader, text: &[u8]) -> Result<Fed, AllocError> {
    let Some((line, behind)) = split_section(text) else {
        return Ok(Fed::Unread);
    };
    if !reader.next(&line)? {
        return Ok(Fed::Misplaced);
    }
    Ok(Fed::Line(text.len().saturating_sub(behind.len())))
}

/// Feeds the reader all lines of the text, which are lines of sections. Whether it found a place for each. Most are
/// entries, so that these are looked for first.
fn feed(reader: &mut Reader, text: &[u8]) -> Result<bool, AllocError> {
    let mut ahead = text;
    'lines: loop {
        let passed = match front_entry_line(ahead) {
            Some((line, n)) => {
                if !reader.next_entry(&line)? {
                    return Ok(false);
                }
                n
            }
            None => match feed_line(reader, ahead)? {
                Fed::Line(n) => n,
                Fed::Misplaced => return Ok(false),
                Fed::Unread => return Ok(ahead.is_empty()),
            },
        };
        if passed == 0 || passed > ahead.len() {
            return Ok(false);
        }
        ahead = &ahead[passed..];
    }
}

/// The number of the sites.
fn count_of(history: &History) -> u8 {
    match u8::try_from(history.sites.len()) {
        Ok(sites) => sites,
        Err(_) => 0,
    }
}

/// What may show that the set is stuck.
fn stuck_proof(alloc: Global, history: &History, stuck: Stuck) -> Result<Proof, AllocError> {
    let Stuck { set, ends, ranks } = stuck;
    Ok(Proof::Stuck {
        set,
        ends: numbers_of(alloc, history, ends.as_slice())?,
        ranks: numbers_of(alloc, history, ranks.as_slice())?,
    })
}

/// The certificate that was found, or what may show that there is none.
fn told(alloc: Global, history: &History, finding: Finding) -> Result<Found, AllocError> {
    let sites = count_of(history);
    let proof = match finding {
        Finding::Decided(decisions) => {
            return Ok(Found::Certificate(Certificate {
                sites,
                decisions: Listed::new(decisions),
            }));
        }
        Finding::Order(cycle) => Proof::Ends(end_steps(alloc, history, cycle.as_slice())?),
        Finding::Ranks(cycle, ends) => Proof::Conflicts {
            cycle: conflict_steps(alloc, history, cycle.as_slice())?,
            ends: numbers_of(alloc, history, ends.as_slice())?,
        },
        Finding::Walk(stuck) => stuck_proof(alloc, history, stuck)?,
    };
    Ok(Found::Refused(Reason { sites, proof }))
}

/// What the search finds in what the logs say.
fn found_in(alloc: Global, history: &History) -> Result<Found, AllocError> {
    let finding = search(alloc, history)?;
    told(alloc, history, finding)
}

/// Looks for a certificate of the logs that the text spells, or for the reason why there is none. Err: memory ran out.
pub fn find(alloc: Global, text: &[u8]) -> Result<Found, AllocError> {
    let Some((_, sections)) = split_line(text) else {
        return Ok(Found::Nothing);
    };
    let mut reader = Reader::new(alloc, text.len())?;
    if !feed(&mut reader, sections)? {
        return Ok(Found::Nothing);
    }
    let history = reader.finish()?;
    found_in(alloc, &history)
}
