//! How many transactions are to be committed.

ghost use Rattle.std.specs.Prelude.{IfErr};
ghost use Rattle.sgt_driver.specs.Status.{IsStatus};

use crate::host::Host;
use crate::streams::Streams;
use sgt_line::Line;
use sgt_status::{LineName, expected};

/// What the line says of it; the status, where that is no number.
pub(crate) fn expected_of<S: Streams>(streams: &S, line: &Line) -> Result<Option<u64>, u8>
    ensures { IfErr result IsStatus }
{
    let Some(text) = &line.expected else {
        return Ok(None);
    };
    match text.parse::<u64>() {
        Ok(number) => Ok(Some(number)),
        Err(_) => {
            let text = LineName {
                name: text.as_str(),
            };
            let _ = eprintln!(streams; "sgt: --expect-committed {text}: that is no number");
            Err(2)
        }
    }
}

// How many were committed, as a yes says of which this is the front.
fn committed_of(answer: &[u8]) -> Option<u64> {
    let text = str::from_utf8(answer).ok()?;
    let (count, _) = text.strip_prefix("yes ")?.split_once(' ')?;
    count.parse::<u64>().ok()
}

/// The status of an audit, which is called so and of whose answer this is the front: a no, where it is a yes of another
/// number of committed transactions than is expected.
pub(crate) fn expected_status<S: Streams, H>(
    host: &Host<'_, S, H>,
    title: &str,
    answer: &[u8],
    status: u8,
) -> u8
    ensures { IsStatus status → IsStatus result }
{
    let committed = committed_of(answer);
    let found = expected(status, committed, host.expected);
    match (host.expected, committed) {
        (Some(wanted), Some(count)) if found != status => {
            let title = LineName { name: title };
            let _ = eprintln!(host.streams; "sgt: {title}: {count} committed, {wanted} expected");
        }
        _ => {}
    }
    found
}
