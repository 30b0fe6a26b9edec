//! Worked rows, read from their folders.

use std::alloc::{AllocError, Global};
use std::rt::Files;
use std::{fs, io};

/// What the program is given; the files that its words name lie in the row's folder.
#[derive(Drop)]
pub struct Given {
    /// The words, the program's name first.
    pub words: Vec<String>,
    /// Standard input. None: nothing is read, so each read would fail.
    pub input: Option<String>,
}

/// A file that must be written.
#[derive(Drop)]
pub struct WantedFile {
    /// Its name, as it is called from the row's folder.
    pub name: String,
    pub text: String,
}

/// What the program must answer.
#[derive(Drop)]
pub struct Wanted {
    /// Standard output. None: the threads of a run leave it open, but for what it must have.
    pub output: Option<String>,
    /// Lines that the output must have.
    pub must: String,
    /// What the error stream must be told, where the row says so.
    pub errors: Option<String>,
    pub status: u8,
    /// The files that must be written.
    pub files: Vec<WantedFile>,
}

/// A worked row of the program.
#[derive(Drop)]
pub struct Row {
    /// The folder of the row, where it is run.
    pub folder: String,
    pub given: Given,
    pub wanted: Wanted,
}

/// The words of a line, the program's name before them.
pub(crate) fn words_of(alloc: Global, line: &str) -> Result<Vec<String>, AllocError> {
    let mut words = Vec::new(alloc);
    words.push(String::from_str(alloc, "sgt")?)?;
    for word in line.split_whitespace() {
        words.push(String::from_str(alloc, word)?)?;
    }
    Ok(words)
}

/// The text of a file of the folder, if it is there.
pub(crate) fn text_of<R: Files + AllocGlobal>(
    rt: &R,
    folder: &str,
    file: &str,
) -> io::Result<Option<String>> {
    let path = format!(in rt.alloc(); "{folder}/{file}")?;
    if !fs::exists(rt, path.as_str())? {
        return Ok(None);
    }
    Ok(Some(fs::read_to_string(rt, path.as_str())?))
}

/// The same, and no text where there is no such file.
fn text_or_none<R: Files + AllocGlobal>(rt: &R, folder: &str, file: &str) -> io::Result<String> {
    match text_of(rt, folder, file)? {
        Some(text) => Ok(text),
        None => Ok(String::new(rt.alloc())),
    }
}

fn given_of<R: Files + AllocGlobal>(rt: &R, folder: &str) -> io::Result<Given> {
    let args = text_or_none(rt, folder, "args")?;
    Ok(Given {
        words: words_of(rt.alloc(), args.as_str())?,
        input: text_of(rt, folder, "stdin")?,
    })
}

fn status_of<R: Files + AllocGlobal>(rt: &R, folder: &str) -> io::Result<u8> {
    let status = text_or_none(rt, folder, "status")?;
    Ok(status.trim().parse::<u8>().unwrap_or(0))
}

/// The files that must be written, a name each line of `written`: under `written.N` lies the text of the N-th.
fn files_of<R: Files + AllocGlobal>(rt: &R, folder: &str) -> io::Result<Vec<WantedFile>> {
    let mut files = Vec::new(rt.alloc());
    let names = text_or_none(rt, folder, "written")?;
    for name in names.lines() {
        let number = files.len().saturating_add(1);
        let file = format!(in rt.alloc(); "written.{number}")?;
        files.push(WantedFile {
            name: String::from_str(rt.alloc(), name)?,
            text: text_or_none(rt, folder, file.as_str())?,
        })?;
    }
    Ok(files)
}

fn wanted_of<R: Files + AllocGlobal>(rt: &R, folder: &str) -> io::Result<Wanted> {
    Ok(Wanted {
        output: text_of(rt, folder, "stdout")?,
        must: text_or_none(rt, folder, "must")?,
        errors: text_of(rt, folder, "stderr")?,
        status: status_of(rt, folder)?,
        files: files_of(rt, folder)?,
    })
}

impl Row {
    /// The row of this name: of its folder the files `args` (none: no words), `stdin`, `stdout`, `status` (none: 0),
    /// `must`, `stderr`, and `written` with the texts of the files that it names.
    pub(crate) fn read<R: Files + AllocGlobal>(rt: &R, name: &str) -> io::Result<Row> {
        let folder = format!(in rt.alloc(); "rows/{name}")?;
        let given = given_of(rt, folder.as_str())?;
        let wanted = wanted_of(rt, folder.as_str())?;
        Ok(Row {
            folder,
            given,
            wanted,
        })
    }
}
