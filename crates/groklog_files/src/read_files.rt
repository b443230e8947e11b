//! The files that a run reads, and those that its output goes to. It never writes over them.

use crate::standard_input::{INPUT, STANDARD_INPUT, shown_name};
use groklog_reports::{FileFailure, Report, RunFault, TextFile, file_fault};
use std::alloc::{AllocError, Global};
use std::fs::{self, File, Metadata};
use std::io::{self, ErrorKind};
use std::os::unix::fs::MetadataExt;
use std::rt::Files;

/// The link to the open file of standard output on Linux. `ERRORS` is that of standard error.
const OUTPUT: &str = "/proc/self/fd/1";

const ERRORS: &str = "/proc/self/fd/2";

/// The names that lead to open files of the program begin with one of these.
const OPEN_FILES: [&str; 4] = ["/dev/stdout", "/dev/stderr", "/dev/fd/", "/proc/"];

/// How the system identifies a file, by whatever name it is opened.
#[derive(Clone, Copy, PartialEq, Eq)]
struct Identity {
    device: u64,
    inode: u64,
}

/// What a run does with a file.
#[derive(Clone, Copy, PartialEq, Eq)]
enum Use {
    Read,
    /// The output goes to its end.
    Output,
}

/// A file that a run uses.
#[derive(Drop)]
struct UsedFile {
    how: Use,
    /// What messages call it.
    shown: String,
    identity: Identity,
}

fn identity_of(metadata: &Metadata) -> Identity {
    Identity {
        device: metadata.dev(),
        inode: metadata.ino(),
    }
}

/// Returns whether this name leads to standard output, or to another open file of the program.
pub(crate) fn is_open_file(name: &str) -> bool {
    name == "-" || OPEN_FILES.iter().any(|start| name.starts_with(*start))
}

/// Returns whether a name that leads to no file is that of a link.
pub(crate) fn is_link(rt: &impl Files, name: &str) -> bool {
    fs::symlink_metadata(rt, name).is_ok()
}

/// Returns the folder of a file, and its name there.
pub(crate) fn folder_and_name(path: &str) -> (&str, &str) {
    match path.rsplit_once('/') {
        Some(("", name)) => ("/", name),
        Some((folder, name)) => (folder, name),
        None => (".", path),
    }
}

/// Returns whether these are two names of one file or folder that exists.
fn are_same(rt: &impl Files, a: &str, b: &str) -> bool {
    match (fs::metadata(rt, a), fs::metadata(rt, b)) {
        (Ok(a), Ok(b)) => identity_of(&a) == identity_of(&b),
        _ => false,
    }
}

/// Returns whether these are two names of one file, even if that doesn't exist yet.
pub fn is_same_file(rt: &impl Files, a: &str, b: &str) -> bool {
    let (folder, name) = folder_and_name(a);
    let (other_folder, other_name) = folder_and_name(b);
    are_same(rt, a, b) || (name == other_name && are_same(rt, folder, other_folder))
}

/// The files that a run reads, its logs and its files of definitions, and those that standard output and
/// standard error go to. Pipes and terminals aren't among them, since they have no text that could be lost.
#[derive(Drop)]
pub struct ReadFiles {
    files: Vec<UsedFile>,
}

/// Returns why the log with this name can't be opened. A pipe isn't opened for that, since its writer
/// would notice.
fn try_open(rt: &impl Files, name: &str) -> io::Result<()> {
    let metadata = fs::metadata(rt, name)?;
    if metadata.is_dir() {
        // own error: the system reported that the file is a folder.
        return Err(io::Error::from(ErrorKind::IsADirectory));
    }
    if metadata.is_file() {
        File::open(rt, name)?;
    }
    Ok(())
}

/// Checks that these logs can be opened.
///
/// # Errors
///
/// If a log can't be opened, or if an allocation fails.
pub fn check_logs(rt: &(impl Files + AllocGlobal), logs: &[&str]) -> Result<(), RunFault> {
    for name in logs {
        if *name != "-"
            && let Err(error) = try_open(rt, name)
        {
            return Err(file_fault(rt.alloc(), name, FileFailure::of(&error))?);
        }
    }
    Ok(())
}

/// Returns the fault that reports that an option would write over a file that the run uses.
fn would_overwrite(
    alloc: Global,
    option: &str,
    name: &str,
    file: &UsedFile,
) -> Result<RunFault, AllocError> {
    let shown = file.shown.as_str();
    let also = match file.how {
        Use::Output => String::from_str(alloc, shown)?,
        Use::Read if name == shown => String::from_str(alloc, "read")?,
        Use::Read => format!(in alloc; "read as {shown}")?,
    };
    let what = format!(in alloc; "{option} would write over {name}, which is also {also}")?;
    let advice = format!(in alloc; "name another file after {option}")?;
    Ok(RunFault::Usage(Report::new(alloc, what.as_str(), advice.as_str())?))
}

impl ReadFiles {
    /// Returns the files of a run that reads these logs, or standard input if there are none, and these files of
    /// definitions.
    pub fn of(
        rt: &(impl Files + AllocGlobal),
        logs: &[&str],
        definitions: &[TextFile],
    ) -> Result<ReadFiles, AllocError> {
        let mut read = ReadFiles {
            files: Vec::new(rt.alloc()),
        };
        let logs = if logs.is_empty() {
            STANDARD_INPUT
        } else {
            logs
        };
        for name in logs {
            let path = if *name == "-" { INPUT } else { name };
            read.add(rt, Use::Read, path, shown_name(name))?;
        }
        for file in definitions {
            read.add(rt, Use::Read, file.name.as_str(), file.name.as_str())?;
        }
        read.add(rt, Use::Output, OUTPUT, "standard output")?;
        read.add(rt, Use::Output, ERRORS, "standard error")?;
        Ok(read)
    }

    /// Adds the file with this path, if there is one.
    fn add(
        &mut self,
        rt: &(impl Files + AllocGlobal),
        how: Use,
        path: &str,
        shown: &str,
    ) -> Result<(), AllocError> {
        if let Ok(metadata) = fs::metadata(rt, path)
            && metadata.is_file()
        {
            self.files.push(UsedFile {
                how,
                shown: String::from_str(rt.alloc(), shown)?,
                identity: identity_of(&metadata),
            })?;
        }
        Ok(())
    }

    /// Checks that the file `name`, which `option` asks to write, isn't one that the run uses. Writing to the end of
    /// an open file is allowed, since that overwrites none of its output.
    ///
    /// # Errors
    ///
    /// If the run uses the file, or if an allocation fails.
    pub(crate) fn check(
        &self,
        rt: &(impl Files + AllocGlobal),
        option: &str,
        name: &str,
    ) -> Result<(), RunFault> {
        let path = if name == "-" { OUTPUT } else { name };
        // What is not there, or can't be asked about, isn't read either.
        let Ok(metadata) = fs::metadata(rt, path) else {
            return Ok(());
        };
        let identity = identity_of(&metadata);
        let is_lost = |file: &UsedFile| file.how == Use::Read || !is_open_file(name);
        let used = self
            .files
            .iter()
            .find(|file| file.identity == identity && is_lost(file));
        match used {
            Some(file) => Err(would_overwrite(rt.alloc(), option, name, file)?),
            None => Ok(()),
        }
    }
}
