//! Writes a file whole or not at all. The text goes to a temporary file beside the old one, and then
//! takes its place, so that whatever fails, even the system, the old file is as it was.

use crate::read_files::{ReadFiles, folder_and_name, is_link, is_open_file};
use groklog_reports::{FileFailure, Report, RunFault};
use std::alloc::{AllocError, Global};
use std::fs::{self, File, Metadata, OpenOptions};
use std::io::{self, ErrorKind, Write};
use std::os::unix::fs::{MetadataExt, OpenOptionsExt, fchown};
use std::rt::Files;

/// How many names of temporary files are tried in a folder. Those of runs that were killed while they
/// wrote are taken.
const MOST_TEMPORARIES: u32 = 1000;

/// The advice if the disk has no room for a file.
const MORE_SPACE: &str = "free some space, or write to another disk";

/// A file that an option asks for.
#[derive(Clone, Copy)]
pub struct WholeFile<'a> {
    /// The option, such as `--html`.
    pub option: &'static str,
    /// The name of the file, as the user wrote it. `-` means standard output.
    pub name: &'a str,
    /// The files that the run uses. None of them may be written over.
    pub read: &'a ReadFiles,
}

/// Where a text is written.
#[derive(Drop)]
enum Place {
    /// To standard output.
    Output,
    /// At the end of a device, of a pipe or of an open file of the program.
    End,
    /// In place of a file.
    File(Replaced),
}

/// A file that is replaced.
#[derive(Drop)]
struct Replaced {
    /// The path of the file. If its name is that of a link, this is the path of the file that the link leads to.
    path: String,
    /// The metadata of the file, or `None` if there is no such file yet.
    old: Option<Metadata>,
}

/// A new file beside the one that it will replace.
#[derive(Drop)]
struct Temporary {
    file: File,
    path: String,
}

/// Why a file isn't written.
#[derive(Drop)]
enum Refusal {
    /// The system reported an error.
    System(io::Error),
    /// The file has further names, which would lead to its old text.
    HardLinks,
    /// The new file can't have the owner, the group and the permissions of the old one.
    Owner,
}

impl From<io::Error> for Refusal {
    fn from(error: io::Error) -> Refusal {
        Refusal::System(error)
    }
}

impl From<AllocError> for Refusal {
    fn from(error: AllocError) -> Refusal {
        Refusal::System(io::Error::from(error))
    }
}

fn place_of(rt: &(impl Files + AllocGlobal), name: &str) -> Result<Place, Refusal> {
    if name == "-" {
        return Ok(Place::Output);
    }
    let alloc = rt.alloc();
    let old = match fs::metadata(rt, name) {
        Ok(old) => old,
        // A link that leads nowhere is there, so it would be lost.
        Err(error) if error.kind() != ErrorKind::NotFound || is_link(rt, name) => {
            return Err(Refusal::System(error));
        }
        Err(_) => {
            let path = String::from_str(alloc, name)?;
            return Ok(Place::File(Replaced { path, old: None }));
        }
    };
    if old.is_dir() {
        // own error: the system reported that the file is a folder.
        return Err(Refusal::System(io::Error::from(ErrorKind::IsADirectory)));
    }
    if !old.is_file() || is_open_file(name) {
        return Ok(Place::End);
    }
    if old.permissions().readonly() {
        // own error: the system reported that nobody may write to the file.
        return Err(Refusal::System(io::Error::from(ErrorKind::PermissionDenied)));
    }
    // This changes nothing, and fails if the user may not write to the file.
    OpenOptions::new().append(true).open(rt, name)?;
    if old.nlink() > 1 {
        return Err(Refusal::HardLinks);
    }
    let path = String::from_str(alloc, fs::canonicalize(rt, name)?.as_str())?;
    let old = Some(old);
    Ok(Place::File(Replaced { path, old }))
}

impl Replaced {
    fn folder(&self) -> &str {
        let (folder, _) = folder_and_name(self.path.as_str());
        folder
    }

    /// Opens a new file beside it. If there is an old one, nobody else may read the new one yet.
    fn open_temporary(
        &self,
        rt: &(impl Files<File = File> + AllocGlobal),
    ) -> io::Result<Temporary> {
        let mut options = OpenOptions::new();
        options.write(true).create_new(true);
        if self.old.is_some() {
            options.mode(0o600);
        }
        for number in 0..MOST_TEMPORARIES {
            let path = format!(in rt.alloc(); "{}/.groklog-{number}.tmp", self.folder())?;
            match options.open(rt, path.as_str()) {
                Ok(file) => return Ok(Temporary { file, path }),
                Err(error) if error.kind() == ErrorKind::AlreadyExists => {}
                Err(error) => return Err(error),
            }
        }
        // own error: the system reported for each of these names that it is taken.
        Err(io::Error::from(ErrorKind::AlreadyExists))
    }

    /// Makes a new file beside it, with the owner, the group and the permissions of the old one.
    fn make_temporary(
        &self,
        rt: &(impl Files<File = File> + AllocGlobal),
    ) -> Result<Temporary, Refusal> {
        let temporary = self.open_temporary(rt)?;
        if let Some(old) = &self.old
            && let Err(refusal) = temporary.take_over(old)
        {
            temporary.remove(rt);
            return Err(refusal);
        }
        Ok(temporary)
    }
}

impl Temporary {
    fn take_over(&self, old: &Metadata) -> Result<(), Refusal> {
        // Whether the system did that shows below. It may also take a permission away without an error.
        let _ = fchown(&self.file, Some(old.uid()), Some(old.gid()));
        self.file.set_permissions(old.permissions())?;
        let new = self.file.metadata()?;
        if new.uid() == old.uid() && new.gid() == old.gid() && new.mode() == old.mode() {
            Ok(())
        } else {
            Err(Refusal::Owner)
        }
    }

    /// Removes the new file. If that fails, it stays.
    fn remove(&self, rt: &impl Files) {
        let _ = fs::remove_file(rt, self.path.as_str());
    }

    /// Writes a text to the new file, and puts this file in the place of the old one.
    fn replace(&mut self, rt: &impl Files, text: &str, replaced: &Replaced) -> io::Result<()> {
        self.file.write_all(text.as_bytes())?;
        // After this, the text is on the disk, and not only on its way there.
        self.file.sync_all()?;
        fs::rename(rt, self.path.as_str(), replaced.path.as_str())
    }
}

/// Returns why the file with this name can't be written, as far as that is known before it is.
fn try_place(rt: &(impl Files<File = File> + AllocGlobal), name: &str) -> Result<(), Refusal> {
    if let Place::File(replaced) = place_of(rt, name)? {
        let temporary = replaced.make_temporary(rt)?;
        fs::remove_file(rt, temporary.path.as_str())?;
    }
    Ok(())
}

/// Writes the file with this name. If that fails, its old text is still there.
fn write_text(
    rt: &(impl Files<File = File> + Print + AllocGlobal),
    name: &str,
    text: &str,
) -> Result<(), Refusal> {
    match place_of(rt, name)? {
        Place::Output => io::writer(rt).write_all(text.as_bytes())?,
        Place::End => OpenOptions::new()
            .append(true)
            .open(rt, name)?
            .write_all(text.as_bytes())?,
        Place::File(replaced) => {
            let mut temporary = replaced.make_temporary(rt)?;
            if let Err(error) = temporary.replace(rt, text, &replaced) {
                temporary.remove(rt);
                return Err(Refusal::System(error));
            }
        }
    }
    Ok(())
}

/// Returns the advice for a file that can't be written.
fn advice_for_unwritable(kind: ErrorKind) -> &'static str {
    match kind {
        ErrorKind::NotFound => "make its folder first, or the file that it is a link to",
        ErrorKind::IsADirectory => "name a file in it",
        ErrorKind::StorageFull | ErrorKind::QuotaExceeded => MORE_SPACE,
        ErrorKind::FileTooLarge => MORE_SPACE,
        _ => "check with ls -ld whether you may write to it, and make files in its folder",
    }
}

impl WholeFile<'_> {
    /// Returns what messages call the file.
    fn shown_name(&self) -> &str {
        if self.name == "-" {
            "standard output"
        } else {
            self.name
        }
    }

    fn unwritten(&self, alloc: Global, why: &str, advice: &str) -> Result<RunFault, AllocError> {
        let what = format!(in alloc; "can't write {}: {why}", self.shown_name())?;
        // own error: the system reported that the file can't be written, or what a new one would lose.
        Ok(RunFault::Write(Report::new(alloc, what.as_str(), advice)?))
    }

    /// Returns the fault that reports this error of the system, or `Ok` if the reader of the file closed the pipe.
    fn outcome_of_error(&self, alloc: Global, error: &io::Error) -> Result<(), RunFault> {
        let failure = FileFailure::of(error);
        match failure.kind {
            ErrorKind::BrokenPipe => Ok(()),
            // own error: the system reported that an allocation failed.
            ErrorKind::OutOfMemory => Err(RunFault::Memory),
            kind => {
                let why = format!(in alloc; "{failure}")?;
                Err(self.unwritten(alloc, why.as_str(), advice_for_unwritable(kind))?)
            }
        }
    }

    /// Returns the fault that reports why the file couldn't be written. Returns `Ok` if it was written, or if its
    /// reader closed the pipe.
    fn outcome(&self, alloc: Global, written: Result<(), Refusal>) -> Result<(), RunFault> {
        let (why, advice) = match written {
            Ok(()) => return Ok(()),
            Err(Refusal::System(error)) => return self.outcome_of_error(alloc, &error),
            Err(Refusal::HardLinks) => (
                "it has further names (hard links), which would keep the old text",
                "name another file, or remove this one first",
            ),
            Err(Refusal::Owner) => (
                "a new file can't have its owner, group and permissions",
                "name another file, and copy that one over this one with cp",
            ),
        };
        Err(self.unwritten(alloc, why, advice)?)
    }

    fn no_name(&self, alloc: Global) -> Result<RunFault, AllocError> {
        let what = format!(in alloc; "the name after {} is empty", self.option)?;
        let advice = "name a file, or - for standard output";
        Ok(RunFault::Usage(Report::new(alloc, what.as_str(), advice)?))
    }

    /// Checks that the file isn't one that the run uses, and that it can be written. It is not written yet.
    ///
    /// # Errors
    ///
    /// If the name is empty, or if the file is used or can't be written.
    pub fn check(&self, rt: &(impl Files<File = File> + AllocGlobal)) -> Result<(), RunFault> {
        if self.name.is_empty() {
            return Err(self.no_name(rt.alloc())?);
        }
        self.read.check(rt, self.option, self.name)?;
        self.outcome(rt.alloc(), try_place(rt, self.name))
    }

    /// Writes the file, if all was read.
    ///
    /// # Errors
    ///
    /// If not all was read, or if the file is used or can't be written. Then an old file with this name is as it
    /// was.
    pub fn write(
        &self,
        rt: &(impl Files<File = File> + Print + AllocGlobal),
        is_all_read: bool,
        text: &str,
    ) -> Result<(), RunFault> {
        if !is_all_read {
            // own error: a log couldn't be read, which was reported.
            return Err(RunFault::Read(self.unread_report(rt.alloc())?));
        }
        self.read.check(rt, self.option, self.name)?;
        self.outcome(rt.alloc(), write_text(rt, self.name, text))
    }

    fn unread_report(&self, alloc: Global) -> Result<Report, AllocError> {
        let what = format!(in alloc;
            "{} isn't written, since not all was read",
            self.shown_name()
        )?;
        Report::new(alloc, what.as_str(), "leave out the log that can't be read")
    }
}
