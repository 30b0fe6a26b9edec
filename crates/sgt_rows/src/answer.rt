//! What the program answers to a row, run in the row's folder.

use crate::row::{Row, text_of};
use crate::streams::Kept;
use sgt_driver::drive;
use std::alloc::{AllocError, Global};
use std::sync::Wait;
use std::thread::Threads;
use std::{env, fs, io};

/// What the program answered.
#[derive(Drop)]
pub struct Answer {
    pub status: u8,
    pub output: Vec<u8>,
    pub errors: Vec<u8>,
    /// Whether it wrote the files that it must write, and no others.
    pub is_written: bool,
}

// The same words once more.
fn again(alloc: Global, words: &[String]) -> Result<Vec<String>, AllocError> {
    let mut copies = Vec::new(alloc);
    for word in words {
        copies.push(String::from_str(alloc, word.as_str())?)?;
    }
    Ok(copies)
}

// How many names there are in the folder.
fn count(rt: &HostRuntime, folder: &str) -> io::Result<u64> {
    let mut count = 0u64;
    for entry in fs::read_dir(rt, folder)? {
        let _ = entry?;
        count = count.saturating_add(1);
    }
    Ok(count)
}

// Whether the files that must be written have their texts. They are taken away, and the folder of a bundle with its
// last one.
fn take_away(rt: &HostRuntime, row: &Row) -> io::Result<bool> {
    let folder = row.folder.as_str();
    let mut is_written = true;
    for file in &row.wanted.files {
        let name = file.name.as_str();
        match text_of(rt, folder, name)? {
            Some(text) => is_written = is_written && text.as_str() == file.text.as_str(),
            None => return Ok(false),
        }
        let path = format!(in rt.alloc(); "{folder}/{name}")?;
        fs::remove_file(rt, path.as_str())?;
        if let Some((inner, _)) = name.split_once('/') {
            let path = format!(in rt.alloc(); "{folder}/{inner}")?;
            if count(rt, path.as_str())? == 0 {
                fs::remove_dir(rt, path.as_str())?;
            }
        }
    }
    Ok(is_written)
}

/// The program's answer to the row, standard input read in pieces of so many bytes.
pub(crate) fn answer_to<H: Threads + Wait + Sync>(
    rt: &HostRuntime,
    threads: &H,
    row: &Row,
    per_read: usize,
) -> io::Result<Answer> {
    let text = match &row.given.input {
        Some(text) => Some(text.as_str()),
        None => None,
    };
    let words = again(rt.alloc(), row.given.words.as_slice())?;
    let before = count(rt, row.folder.as_str())?;
    let streams = Kept::new(rt.alloc(), text, per_read);
    env::set_current_dir(rt, row.folder.as_str())?;
    let status = drive(rt, &&streams, threads, Ok(words));
    env::set_current_dir(rt, "../..")?;
    let (output, errors) = streams.into_texts();
    let is_written = take_away(rt, row)? && count(rt, row.folder.as_str())? == before;
    Ok(Answer {
        status,
        output,
        errors,
        is_written,
    })
}
