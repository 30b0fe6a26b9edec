//! A whole talk.

ghost use Rattle.std.specs.Prelude.{◌≡◌, ◌+◌, [], ℕ, Ok};
ghost use Rattle.std.specs.Io.KnownBytes.{IsAtEnd as NoneLeft};
ghost use Rattle.sgt_pipe.specs.Acts.{all_reads};
ghost use Rattle.sgt_pipe.specs.Fronts.{IsLineOf};
ghost use Rattle.sgt_serve.specs.Devices.{LeavesReader, LeavesWriter};
ghost use Rattle.sgt_serve.specs.Ended.{Served};
ghost use Rattle.sgt_serve.specs.Place.{kept_at};
ghost use Rattle.sgt_serve.specs.Talk.{AreAnswered};
ghost use Rattle.sgt_serve.specs.private.Opening.{refused_in};
ghost use Rattle.sgt_serve.specs.private.Serving.{ServesFrom, TellsFront, closed_by, ends_by};
ghost use Rattle.sgt_serve.specs.private.Talking.{desk};

use crate::bundles::Bundles;
use crate::ending::close;
use crate::fail::ServeFail;
use crate::last::Last;
use crate::opening::{Opened, read_sites, server_of};
use crate::stop::Stop;
use crate::talking::{Server, talk};
use sgt_input::unreadable_line;
use sgt_names::{Outcome, Sink, Source};
use sgt_notation::NotationFault;
use sgt_pipe::{Inbox, Pipe, Refusals};
use std::alloc::Global;

/// The result of an outcome, where the last bundle fared so.
fn closed(outcome: Outcome, last: Last) -> Result<Outcome, ServeFail>
    ensures { result ≡ closed_by outcome last }
{
    match last {
        Last::Done => Ok(outcome),
        Last::Memory => Err(ServeFail::Memory),
        Last::Unwritten => Err(ServeFail::BundleFault),
    }
}

/// The result of a talk that stopped so, and whose last bundle fared so.
fn ended(stop: Stop, last: Last) -> Result<Outcome, ServeFail>
    ensures { result ≡ ends_by stop last }
{
    match stop {
        Stop::Ended => closed(Outcome::Yes, last),
        Stop::TooLong => closed(Outcome::Unreadable, last),
        Stop::ReadFault => Err(ServeFail::ReadFault(last)),
        Stop::WriteFault => Err(ServeFail::WriteFault(last)),
        Stop::Memory => Err(ServeFail::Memory),
    }
}

/// Talks from the first line on, which is of so many bytes and asks for something, and ends the talk. The growths that
/// were refused to it come too.
fn serve_talk<R: Source, W: Sink, B: Bundles>(
    pipe: &mut Pipe<R, W>,
    inbox: &mut Inbox,
    mut server: Server,
    bundles: &mut B,
    n: usize,
) -> (Result<Outcome, ServeFail>, Refusals)
    requires { IsLineOf inbox.old.held n }
    ensures serves { ServesFrom result.0 n (R.tells pipe.new.reader)
        (desk (kept_at (B.handed bundles.old) server.refusals) server.core pipe.old.history
        server.answers.items inbox.old.held)
        pipe.new.history (kept_at (B.handed bundles.new) result.1) }
    ensures hears { LeavesReader result.0 (R.tells pipe.old.reader) (R.tells pipe.new.reader)
        pipe.old.history.given
        pipe.new.history.given (R.failures pipe.old.reader) (R.failures pipe.new.reader)
        inbox.new.reads }
    ensures speaks { LeavesWriter result.0 (W.holds pipe.old.writer) (W.holds pipe.new.writer)
        pipe.old.history.written
        pipe.new.history.written (W.failures pipe.old.writer) (W.failures pipe.new.writer) }
    ensures ends { result.0 ≡ Ok Outcome.Yes → NoneLeft (R.tells pipe.new.reader) }
    ensures asks { R.asked pipe.new.reader + inbox.new.reads
        ≡ R.asked pipe.old.reader + inbox.old.reads }
{
    let stop = talk(pipe, inbox, &mut server, bundles, n);
    let Server {
        alloc,
        core,
        mut refusals,
        ..
    } = server;
    let last = close(alloc, core, bundles, &mut refusals);
    (ended(stop, last), refusals)
}

/// Tells that the line of this number can't be read.
fn tell_unreadable<R: Source, W: Sink>(
    alloc: Global,
    pipe: &mut Pipe<R, W>,
    line: u64,
    fault: NotationFault,
    refusals: &mut Refusals,
) -> Result<Outcome, ServeFail>
    ensures tells { TellsFront result line fault pipe.old.history pipe.new.history }
    ensures speaks { LeavesWriter result (W.holds pipe.old.writer) (W.holds pipe.new.writer)
        pipe.old.history.written
        pipe.new.history.written (W.failures pipe.old.writer) (W.failures pipe.new.writer) }
    ensures reader { pipe.new.reader ≡ pipe.old.reader }
    ensures notes { refusals.new ≡ refusals.old + refused_in result }
{
    let Ok(text) = unreadable_line(alloc, line, fault) else {
        refusals.note();
        return Err(ServeFail::Memory);
    };
    match pipe.write_all(text.as_slice()) {
        Ok(()) => Ok(Outcome::Unreadable),
        Err(_) => Err(ServeFail::WriteFault(Last::Done)),
    }
}

/// Serves a talk, and notes the growths that are refused to it, of which there are none yet.
fn serve_noting<R: Source, W: Sink, B: Bundles>(
    alloc: Global,
    pipe: &mut Pipe<R, W>,
    bundles: &mut B,
    refusals: &mut Refusals,
) -> Result<Outcome, ServeFail>
    requires given { pipe.old.history.given ≡ [] }
    requires written { pipe.old.history.written ≡ [] }
    requires waits { pipe.old.history.waits ≡ [] }
    requires quiet { refusals.old ≡ 0 }
    ensures served { Served result (R.tells pipe.new.reader) pipe.new.history.given
        pipe.new.history.written (kept_at (B.handed bundles.old) refusals.old)
        (kept_at (B.handed bundles.new) refusals.new) }
    ensures flushed { AreAnswered pipe.new.history.waits }
    ensures reader { (reads : ℕ) × LeavesReader result (R.tells pipe.old.reader)
        (R.tells pipe.new.reader) pipe.old.history.given
        pipe.new.history.given (R.failures pipe.old.reader) (R.failures pipe.new.reader) reads
        × (R.asked pipe.new.reader + reads ≡ R.asked pipe.old.reader + all_reads) }
    ensures writer { LeavesWriter result (W.holds pipe.old.writer) (W.holds pipe.new.writer)
        pipe.old.history.written
        pipe.new.history.written (W.failures pipe.old.writer) (W.failures pipe.new.writer) }
    ensures ends { result ≡ Ok Outcome.Yes → NoneLeft (R.tells pipe.new.reader) }
{
    let Ok(mut inbox) = Inbox::new(alloc) else {
        refusals.note();
        return Err(ServeFail::Memory);
    };
    let mut sites = Vec::new(alloc);
    match read_sites(alloc, pipe, &mut inbox, &mut sites, refusals) {
        Ok(opened) => match opened {
            Opened::Begun(n) => match server_of(alloc, sites) {
                Ok(server) => {
                    let (told, noted) = serve_talk(pipe, &mut inbox, server, bundles, n);
                    *refusals = noted;
                    told
                }
                Err(_) => {
                    refusals.note();
                    Err(ServeFail::Memory)
                }
            },
            Opened::Ended => Ok(Outcome::Yes),
            Opened::Unreadable(fault) => {
                tell_unreadable(alloc, pipe, sites.len() as u64 + 1, fault, refusals)
            }
        },
        Err(fault) => Err(fault),
    }
}

/// Serves a talk: the lines of its sites, from site 0 on, and behind them events and cuts, each of which is answered
/// by a line. An event is answered as a replay answers it (want of memory too, `! E9`); a cut `x` by `x N`, and its
/// bundle is kept at the place with the number N. Where no cut may be made, or its bundle isn't kept, `! E8`, `! E9`
/// or `! B` is answered, and all is as before. A line that asks for nothing is answered by `! L1`, also the last one
/// if it has no LF; one that is too long by `! L2`, and that is the end. In front of the first event or cut a line
/// that can't be read is answered by `! L1 line N` or `! L2 line N`, and that is the end. At the end the open step is
/// installed where it lacks, what is active is withdrawn by rising number, and where a transaction was begun since
/// the last cut its bundle is kept too.
///
/// All that was given is answered before the reader is asked for more; lines that came by one read may share a write.
///
/// Yes at the end of the input; Unreadable where a line was too long, or one in front can't be read. An Err beats
/// both: ReadFault where the reader failed, or 2^64 - 1 reads were made, and WriteFault where the writer failed, and
/// then the talk is ended as ever, which the fault tells of; BundleFault where the place refused the last bundle;
/// Memory where there is no memory to begin with, for an answer, or for the last bundle. The pipe tells then how many
/// growths were refused here.
pub fn serve<R: Source, W: Sink, B: Bundles>(
    alloc: Global,
    pipe: &mut Pipe<R, W>,
    bundles: &mut B,
) -> Result<Outcome, ServeFail>
    requires given { pipe.old.history.given ≡ [] }
    requires written { pipe.old.history.written ≡ [] }
    requires waits { pipe.old.history.waits ≡ [] }
    // what was given, written and kept are those of a course; and want of memory is told where a growth was
    // refused here, or the place told it
    ensures served { Served result (R.tells pipe.new.reader) pipe.new.history.given
        pipe.new.history.written (kept_at (B.handed bundles.old) 0)
        (kept_at (B.handed bundles.new) pipe.new.refusals) }
    // at each read: all that was given before it is answered
    ensures flushed { AreAnswered pipe.new.history.waits }

    // A fault tells of its device, and no fault of a device is passed over.
    ensures reader { (reads : ℕ) × LeavesReader result (R.tells pipe.old.reader)
        (R.tells pipe.new.reader) pipe.old.history.given
        pipe.new.history.given (R.failures pipe.old.reader) (R.failures pipe.new.reader) reads
        × (R.asked pipe.new.reader + reads ≡ R.asked pipe.old.reader + all_reads) }
    ensures writer { LeavesWriter result (W.holds pipe.old.writer) (W.holds pipe.new.writer)
        pipe.old.history.written
        pipe.new.history.written (W.failures pipe.old.writer) (W.failures pipe.new.writer) }
    ensures ends { result ≡ Ok Outcome.Yes → NoneLeft (R.tells pipe.new.reader) }
{
    let mut refusals = Refusals::new();
    let told = serve_noting(alloc, pipe, bundles, &mut refusals);
    pipe.tell_refusals(refusals);
    told
}
