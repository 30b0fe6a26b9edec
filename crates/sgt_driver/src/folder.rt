//! The folder of a server's bundles.

ghost use Rattle.std.specs.Prelude.{◌≡◌, ◌<◌, Err};
ghost use Rattle.sgt_folder.specs.Keeping.{refusals_of};

use crate::streams::Streams;
use sgt_folder::{Folder, FolderBundles, FolderFault};
use sgt_serve::{Bundles, Handed, HandedBundle, KeepFault};
use sgt_status::LineName;
use std::alloc::Global;
use std::fs::{File, ReadDir};
use std::io::Write;
use std::{fs, io};

// A new file, and what it is called.
#[derive(Drop)]
struct Made {
    name: String,
    file: File,
}

/// A folder of the system, and why it last refused to do what it was asked.
#[derive(Drop)]
pub struct SystemFolder<'a> {
    rt: &'a HostRuntime,
    folder: &'a str,
    names: Option<ReadDir<HostRuntime, Global>>,
    made: Option<Made>,
    why: Option<io::Error>,
}

/// Whether a growth of the program was refused. What the system itself has no memory for is a device that failed, and
/// has its number.
pub(crate) fn is_growth(why: &io::Error) -> bool {
    why.kind() == io::ErrorKind::OutOfMemory && why.raw_os_error().is_none()
}

impl<'a> SystemFolder<'a> {
    // The folder of this name.
    fn new(rt: &'a HostRuntime, folder: &'a str) -> SystemFolder<'a> {
        SystemFolder {
            rt,
            folder,
            names: None,
            made: None,
            why: None,
        }
    }

    // Keeps why something was refused, and says which fault that is.
    fn fault(&mut self, why: io::Error) -> FolderFault {
        let fault = if is_growth(&why) {
            FolderFault::Memory
        } else if why.kind() == io::ErrorKind::AlreadyExists {
            FolderFault::Taken
        } else {
            FolderFault::Refused
        };
        self.why = Some(why);
        fault
    }

    // The same where something may have been refused.
    fn done(&mut self, done: io::Result<()>) -> Result<(), FolderFault> {
        match done {
            Ok(()) => Ok(()),
            Err(why) => Err(self.fault(why)),
        }
    }

    // The name of the bundle of this number.
    fn name(&self, number: u64) -> io::Result<String> {
        let folder = self.folder;
        Ok(format!(in self.rt.alloc(); "{folder}/{number:08}.sgt")?)
    }

    // The next name in the folder. One that is no text is no bundle's, and is told as none of its letters.
    fn next_text(&mut self) -> io::Result<Option<String>> {
        let alloc = self.rt.alloc();
        if self.names.is_none() {
            self.names = Some(fs::read_dir(self.rt, self.folder)?);
        }
        let Some(names) = &mut self.names else {
            return Ok(None);
        };
        match names.next() {
            Some(Ok(entry)) => Ok(Some(String::from_str(alloc, entry.file_name())?)),
            Some(Err(why)) if why.kind() == io::ErrorKind::InvalidFilename => {
                Ok(Some(String::new(alloc)))
            }
            Some(Err(why)) => Err(why),
            None => Ok(None),
        }
    }

    // A new file beside the name of this number.
    fn make_file(&self, number: u64, at: u32) -> io::Result<Made> {
        let folder = self.folder;
        let name = format!(in self.rt.alloc(); "{folder}/{number:08}.{at}.part")?;
        let file = File::create_new(self.rt, name.as_str())?;
        Ok(Made { name, file })
    }

    // Writes the text to the new file, and waits until it is stored.
    fn store_text(&mut self, text: &[u8]) -> io::Result<()> {
        match &mut self.made {
            Some(made) => {
                made.file.write_all(text)?;
                made.file.sync_all()
            }
            None => Err(io::Error::from(io::ErrorKind::NotFound)),
        }
    }

    // Gives the new file the name of this number, which nothing has.
    fn link_file(&self, number: u64) -> io::Result<()> {
        let name = self.name(number)?;
        match &self.made {
            Some(made) => fs::hard_link(self.rt, made.name.as_str(), name.as_str()),
            None => Err(io::Error::from(io::ErrorKind::NotFound)),
        }
    }

    // Waits until the names of the folder are stored.
    fn sync_names(&self) -> io::Result<()> {
        File::open(self.rt, self.folder)?.sync_all()
    }
}

impl Folder for SystemFolder<'_> {
    fn next_name(&mut self) -> Result<Option<String>, FolderFault> {
        match self.next_text() {
            Ok(name) => Ok(name),
            Err(why) => Err(self.fault(why)),
        }
    }

    fn make(&mut self, number: u64, at: u32) -> Result<(), FolderFault> {
        match self.make_file(number, at) {
            Ok(made) => {
                self.made = Some(made);
                Ok(())
            }
            Err(why) => Err(self.fault(why)),
        }
    }

    fn store(&mut self, text: &[u8]) -> Result<(), FolderFault> {
        let stored = self.store_text(text);
        self.done(stored)
    }

    fn link(&mut self, number: u64) -> Result<(), FolderFault> {
        let linked = self.link_file(number);
        self.done(linked)
    }

    fn sync(&mut self) -> Result<(), FolderFault> {
        let synced = self.sync_names();
        self.done(synced)
    }

    // Why it can't be taken away is told to nobody: what came before it is what was refused.
    fn unlink(&mut self, number: u64) -> Result<(), FolderFault> {
        match self.name(number) {
            Ok(name) if fs::remove_file(self.rt, name.as_str()).is_ok() => Ok(()),
            _ => Err(FolderFault::Refused),
        }
    }

    fn remove(&mut self) -> Result<(), FolderFault> {
        let removed = match &self.made {
            Some(made) => fs::remove_file(self.rt, made.name.as_str()),
            None => Ok(()),
        };
        self.made = None;
        self.done(removed)
    }
}

/// The bundles of a folder; why one can't be written is told on standard error.
#[derive(Drop)]
pub struct ToldBundles<'a, S> {
    streams: &'a S,
    folder: &'a str,
    bundles: FolderBundles<SystemFolder<'a>>,
    handed: Handed,
}

// Why the folder can't be opened.
fn unopened(folder: SystemFolder<'_>, fault: FolderFault) -> io::Error {
    match folder.why {
        Some(why) if fault != FolderFault::UsedUp => why,
        _ => io::Error::new(io::ErrorKind::AlreadyExists, "its numbers are used up"),
    }
}

impl<'a, S: Streams> ToldBundles<'a, S> {
    /// The folder, which is made where it isn't there, and can be written, and has a number left.
    pub(crate) fn open(
        rt: &'a HostRuntime,
        streams: &'a S,
        folder: &'a str,
    ) -> io::Result<ToldBundles<'a, S>> {
        fs::create_dir_all(rt, folder)?;
        let mut bundles = FolderBundles::new(SystemFolder::new(rt, folder));
        match bundles.open() {
            Ok(()) => Ok(ToldBundles {
                streams,
                folder,
                bundles,
                handed: Handed::new(),
            }),
            Err(fault) => Err(unopened(bundles.into_folder(), fault)),
        }
    }

    // Tells why a bundle can't be written.
    fn tell(&self, fault: FolderFault) {
        let name = LineName { name: self.folder };
        let _ = match &self.bundles.folder().why {
            Some(why) if fault != FolderFault::UsedUp => {
                eprintln!(self.streams; "sgt: {name}: a bundle can't be written: {why}")
            }
            _ => eprintln!(self.streams; "sgt: {name}: a bundle can't be written: {fault}"),
        };
    }

    // Keeps the text, and tells standard error why it can't be written, if that isn't for want of memory.
    fn answer_to(&mut self, text: &[u8]) -> Result<u64, KeepFault>
        ensures handed { self.new.handed ≡ self.old.handed }
        ensures memory { result ≡ Err KeepFault.Memory
            → refusals_of self.old.bundles.asked.calls.items
            < refusals_of self.new.bundles.asked.calls.items }
    {
        match self.bundles.keep(text) {
            Ok(number) => Ok(number),
            Err(FolderFault::Memory) => Err(KeepFault::Memory),
            Err(fault) => {
                self.tell(fault);
                Err(KeepFault::Refused)
            }
        }
    }
}

impl<S: Streams> Bundles for ToldBundles<'_, S> {
    ghost handed = { λ b. b.handed };

    // what the folder's calls told
    ghost refusals = { λ b. refusals_of b.bundles.asked.calls.items };

    fn keep(&mut self, text: &[u8]) -> Result<u64, KeepFault> {
        let answer = self.answer_to(text);
        self.handed = self.handed.with(&HandedBundle { text, answer });
        answer
    }
}
