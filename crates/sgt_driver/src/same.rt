//! A file that would be written over what is read, or over what else is written, under whatever names.

use crate::folder::is_growth;
use sgt_line::Line;
use sgt_status::{FileId, Place, overwritten};
use std::fs::Metadata;
use std::os::unix::fs::MetadataExt;
use std::{fs, io};

// What standard input and output are under, as files.
const STANDARD: &str = "/dev/stdin";

const OUTPUT: &str = "/dev/stdout";

/// Why it isn't known whether a file would be written over.
#[derive(Drop)]
pub(crate) enum Unknown<'a> {
    /// A growth was refused.
    Memory,
    /// The system says nothing of the file of this name.
    Refused(&'a str, io::Error),
}

impl<'a> Unknown<'a> {
    // Why nothing is known of this name.
    fn of(name: &'a str, why: io::Error) -> Unknown<'a> {
        if is_growth(&why) {
            Unknown::Memory
        } else {
            Unknown::Refused(name, why)
        }
    }
}

// What is there under this name, if something is.
fn found_at(rt: &HostRuntime, name: &str) -> io::Result<Option<Metadata>> {
    match fs::metadata(rt, name) {
        Ok(found) => Ok(Some(found)),
        Err(why) if why.kind() == io::ErrorKind::NotFound => Ok(None),
        Err(why) => Err(why),
    }
}

fn id_of(found: &Metadata) -> FileId {
    FileId {
        device: found.dev(),
        number: found.ino(),
    }
}

// The file of this name, if one is there.
fn file_at(rt: &HostRuntime, name: &str) -> io::Result<Option<FileId>> {
    match found_at(rt, name)? {
        Some(found) if found.is_file() => Ok(Some(id_of(&found))),
        _ => Ok(None),
    }
}

// The folder of this name, if one is there.
fn folder_at(rt: &HostRuntime, name: &str) -> io::Result<Option<FileId>> {
    match found_at(rt, name)? {
        Some(found) => Ok(Some(id_of(&found))),
        None => Ok(None),
    }
}

// The folder that a file of this name is in, and what it is called there.
fn parts_of(name: &str) -> (&str, &str) {
    match name.rsplit_once('/') {
        Some(("", inner)) => ("/", inner),
        Some((folder, inner)) => (folder, inner),
        None => (".", name),
    }
}

// What the system says of this name.
fn place_of<'a>(rt: &HostRuntime, name: &'a str) -> io::Result<Place<'a>> {
    let (folder, inner) = parts_of(name);
    Ok(Place {
        name,
        file: file_at(rt, name)?,
        folder: folder_at(rt, folder)?,
        inner,
    })
}

// The same of a name that the line may lack.
fn place_at<'a>(
    rt: &HostRuntime,
    name: Option<&'a String>,
) -> Result<Option<Place<'a>>, Unknown<'a>> {
    let Some(name) = name else {
        return Ok(None);
    };
    match place_of(rt, name.as_str()) {
        Ok(place) => Ok(Some(place)),
        Err(why) => Err(Unknown::of(name.as_str(), why)),
    }
}

// The file that is under this name, which is told by that title, behind those before it.
fn add<'a>(
    rt: &HostRuntime,
    taken: &mut Vec<FileId>,
    name: &str,
    title: &'a str,
) -> Result<(), Unknown<'a>> {
    let file = match file_at(rt, name) {
        Ok(file) => file,
        Err(why) => return Err(Unknown::of(title, why)),
    };
    let Some(file) = file else {
        return Ok(());
    };
    match taken.push(file) {
        Ok(()) => Ok(()),
        Err(_) => Err(Unknown::Memory),
    }
}

// The file that is read under this name, behind those before it.
fn add_read<'a>(
    rt: &HostRuntime,
    taken: &mut Vec<FileId>,
    name: &'a str,
) -> Result<(), Unknown<'a>> {
    if name == "-" {
        add(rt, taken, STANDARD, "standard input")
    } else {
        add(rt, taken, name, name)
    }
}

// The files that are read, and standard output.
fn taken_by<'a>(rt: &HostRuntime, line: &'a Line) -> Result<Vec<FileId>, Unknown<'a>> {
    let mut taken = Vec::new(rt.alloc());
    add(rt, &mut taken, OUTPUT, "standard output")?;
    for file in &line.files {
        add_read(rt, &mut taken, file.as_str())?;
    }
    if let Some(order) = &line.against {
        add_read(rt, &mut taken, order.as_str())?;
    }
    if line.files.is_empty() {
        add_read(rt, &mut taken, "-")?;
    }
    Ok(taken)
}

/// The file that would be written over what is read, or twice, if there is one. What the system says nothing of might
/// be: only a file that isn't there is none.
pub(crate) fn written_over<'a>(
    rt: &HostRuntime,
    line: &'a Line,
) -> Result<Option<&'a str>, Unknown<'a>> {
    if line.output.is_none() && line.place.is_none() {
        return Ok(None);
    }
    let taken = taken_by(rt, line)?;
    let output = place_at(rt, line.output.as_ref())?;
    let place = place_at(rt, line.place.as_ref())?;
    Ok(overwritten(output, place, taken.as_slice()))
}
