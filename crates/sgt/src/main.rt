//! `sgt` reads standard input or files, and writes standard output.
#![tactic(auto)]

use sgt_driver::{NoWords, drive};
use std::fs::File;
use std::os::fd::AsRawFd;
use std::process::ExitCode;
use std::{env, io};

// A file that takes all that is written.
const NOWHERE: &str = "/dev/null";

// The words of the command line.
fn words(rt: &HostRuntime) -> Result<Vec<String>, NoWords> {
    match env::args(rt) {
        Ok(words) => match words.collect(rt.alloc()) {
            Ok(words) => Ok(words),
            Err(_) => Err(NoWords::Memory),
        },
        Err(e) if e.kind() == io::ErrorKind::OutOfMemory => Err(NoWords::Memory),
        Err(_) => Err(NoWords::NotText),
    }
}

// Files that take the numbers of standard streams that are closed, so that no other file gets one: each fails as a
// closed stream does, for it is opened for the other direction alone.
fn stand_ins(rt: &HostRuntime) -> [Option<File>; 3] {
    let mut files = [None, None, None];
    if let Ok(file) = File::options().write(true).open(rt, NOWHERE) {
        if file.as_raw_fd() == 0 {
            files[0] = Some(file);
        }
    }
    for at in 1..3usize {
        if let Ok(file) = File::open(rt, NOWHERE) {
            if file.as_raw_fd() <= 2 {
                files[at] = Some(file);
            }
        }
    }
    files
}

fn main(rt: HostRuntime) -> ExitCode {
    let _files = stand_ins(&rt);
    ExitCode::from(drive(&rt, &rt, &rt, words(&rt)))
}
