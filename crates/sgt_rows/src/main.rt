//! Runs the program on the worked rows, each in its folder and with streams in memory, on words that are no command,
//! and on devices that fail, and says of how many rows the answer differs.
#![tactic(auto)]

mod answer;
mod devices;
mod row;
mod streams;
mod trial;

use crate::devices::{are_no_command, devices_tell, faults_are_told};
use crate::row::Row;
use crate::trial::holds;
use std::{fs, io};

fn main(rt: HostRuntime) -> io::Result<()> {
    let (mut rows, mut differ) = (0u64, 0u64);
    for entry in fs::read_dir(&rt, "rows")? {
        let entry = entry?;
        let row = Row::read(&rt, entry.file_name())?;
        rows = rows.saturating_add(1);
        if !holds(&rt, &rt, &row)? {
            differ = differ.saturating_add(1);
            println!(rt; "{} differs", entry.file_name())?;
        }
    }
    println!(rt; "{rows} rows, {differ} differ")?;
    for line in fs::read_to_string(&rt, "no_commands")?.lines() {
        if !are_no_command(&rt, rt.alloc(), line)? {
            println!(rt; "{line} is taken for a command")?;
        }
    }
    for name in fs::read_to_string(&rt, "devices")?.lines() {
        let row = Row::read(&rt, name)?;
        if !devices_tell(&rt, rt.alloc(), &row)? {
            println!(rt; "{name} differs on a device that fails")?;
        }
    }
    for takes in [100usize, 0] {
        if !faults_are_told(rt.alloc(), takes)? {
            println!(rt; "faults are told otherwise, {takes} bytes taken")?;
        }
    }
    Ok(())
}
