//! Events served one by one.

ghost use Rattle.std.specs.Prelude.{◌≡◌, Err};
ghost use Rattle.sgt_driver.specs.Status.{IsStatus};
ghost use Rattle.sgt_driver.specs.Talk.{talk_status};
ghost use Rattle.sgt_program.specs.Ending.{status_of};
ghost use Rattle.sgt_program.specs.declared.ending.Ending.TheVariants.{Ran};

use crate::devices::LastWords;
use crate::folder::{ToldBundles, is_growth};
use crate::host::{Host, ended, open, refuse_file};
use crate::output::Output;
use crate::streams::Streams;
use sgt_line::Line;
use sgt_names::{EngineFail, FromRead, Outcome, ToWrite};
use sgt_program::give_up;
use sgt_serve::{Bundles, Last, NoBundles, Pipe, ServeFail, serve};

// Tells where a device failed and there was no memory for the last bundle, too. Of a place that refused it the place
// has told.
fn tell_lost<S: Streams, H>(host: &Host<'_, S, H>, last: Last) {
    if let Last::Memory = last {
        let _ = eprintln!(host.streams; "sgt: no memory for the last bundle");
    }
}

// The status of a talk that failed so; standard error is told why.
fn failed<S: Streams, H>(host: &Host<'_, S, H>, fail: EngineFail) -> u8
    ensures fail { result ≡ status_of (Ran (Err fail)) }
    ensures status { IsStatus result }
{
    let mut errors = ToWrite::new(LastWords::new(host.streams.errors(), host.hush));
    give_up(&mut errors, fail)
}

// The status; where there is no answer, standard error is told why.
fn status_after<S: Streams, H>(host: &Host<'_, S, H>, told: Result<Outcome, ServeFail>) -> u8
    ensures talk { result ≡ talk_status told }
    ensures status { IsStatus result }
{
    match told {
        Ok(Outcome::Yes) => 0,
        Ok(Outcome::No) => 1,
        Ok(Outcome::Unreadable) => 2,
        Err(ServeFail::Memory) => failed(host, EngineFail::Memory),
        Err(ServeFail::ReadFault(last)) => {
            tell_lost(host, last);
            failed(host, EngineFail::ReadFault)
        }
        Err(ServeFail::WriteFault(last)) => {
            tell_lost(host, last);
            failed(host, EngineFail::WriteFault)
        }
        Err(ServeFail::BundleFault) => {
            let _ = eprintln!(host.streams; "sgt: the last bundle can't be written");
            4
        }
    }
}

// Talks over standard input or a file and standard output, and gives the status.
fn talk<S: Streams, H, B: Bundles>(host: &Host<'_, S, H>, name: &str, bundles: &mut B) -> u8
    ensures { IsStatus result }
{
    let mut steady = match open(host, name) {
        Ok(steady) => steady,
        Err(status) => return status,
    };
    let told = {
        let reader = FromRead::new(&mut steady);
        let writer = ToWrite::new(Output::new(host, None));
        let mut pipe = Pipe::new(reader, writer);
        serve(host.rt.alloc(), &mut pipe, bundles)
    };
    let status = status_after(host, told);
    ended(host, &steady, name, status)
}

/// Serves events, and keeps their bundles in the folder that the line names, if it names one.
pub(crate) fn serve_events<S: Streams, H>(host: &Host<'_, S, H>, line: &Line, name: &str) -> u8
    ensures { IsStatus result }
{
    match &line.place {
        Some(folder) => match ToldBundles::open(host.rt, host.streams, folder.as_str()) {
            Ok(mut bundles) => talk(host, name, &mut bundles),
            Err(why) if is_growth(&why) => failed(host, EngineFail::Memory),
            Err(why) => refuse_file(host.streams, folder.as_str(), &why),
        },
        None => talk(host, name, &mut NoBundles::new()),
    }
}
