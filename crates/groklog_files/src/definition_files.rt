//! Reads the files and folders of definitions that are named after `-d`.

use crate::read_files::is_link;
use groklog_reports::{FileFailure, Report, RunFault, TextFile, file_fault};
use std::alloc::{AllocError, Global};
use std::fs::{self, Metadata};
use std::io::{self, ErrorKind};
use std::rt::Files;

/// Returns the result of an operation on this file or folder, or the fault that reports its error.
fn or_file_fault<T>(alloc: Global, name: &str, outcome: io::Result<T>) -> Result<T, RunFault> {
    match outcome {
        Ok(value) => Ok(value),
        Err(error) => Err(file_fault(alloc, name, FileFailure::of(&error))?),
    }
}

/// Returns the entry of a folder, or the fault that reports why it can't be read. The system can't say
/// the name of a file if it isn't UTF-8.
fn or_entry_fault<T>(alloc: Global, folder: &str, entry: io::Result<T>) -> Result<T, RunFault> {
    match entry {
        Err(error) if error.kind() == ErrorKind::InvalidFilename => {
            let what = format!(in alloc; "a file in {folder} has a name that isn't UTF-8")?;
            let advice = "look for it by ls -b, and give it another name";
            // own error: the folder was read, and the name of an entry isn't UTF-8.
            Err(RunFault::Read(Report::new(alloc, what.as_str(), advice)?))
        }
        entry => or_file_fault(alloc, folder, entry),
    }
}

/// The ends of the names of copies that editors and package managers keep of a file.
const COPIES: [&str; 12] = [
    "~",
    ".bak",
    ".old",
    ".orig",
    ".rej",
    ".save",
    ".swp",
    ".dpkg-dist",
    ".dpkg-new",
    ".dpkg-old",
    ".rpmnew",
    ".rpmsave",
];

/// Returns whether a file of a folder isn't read: it is hidden, since its name begins with a dot, or it is the
/// copy of another file, as `names~`, `names.orig` or `#names#`.
fn is_left_out(name: &str) -> bool {
    name.starts_with('.') || name.starts_with('#') || COPIES.iter().any(|end| name.ends_with(*end))
}

/// Returns the metadata of a file or folder, or the fault that reports why there are none.
fn metadata_of(rt: &(impl Files + AllocGlobal), name: &str) -> Result<Metadata, RunFault> {
    let alloc = rt.alloc();
    match fs::metadata(rt, name) {
        Err(error) if error.kind() == ErrorKind::NotFound && is_link(rt, name) => {
            let what = format!(in alloc; "{name} is a link to a file that isn't there")?;
            let advice = "remove the link, or make the file that it leads to";
            // own error: the system knows the link, and not the file that it leads to.
            Err(RunFault::Read(Report::new(alloc, what.as_str(), advice)?))
        }
        found => or_file_fault(alloc, name, found),
    }
}

/// Returns the paths of the files in a folder, in the byte order of their names. Hidden files,
/// copies of other files, and folders are left out.
fn files_in(
    rt: &(impl Files + AllocGlobal + Clone + Drop),
    folder: &str,
) -> Result<Vec<String>, RunFault> {
    let alloc = rt.alloc();
    let mut paths = Vec::new(alloc);
    for entry in or_file_fault(alloc, folder, fs::read_dir(rt, folder))? {
        let entry = or_entry_fault(alloc, folder, entry)?;
        if is_left_out(entry.file_name()) {
            continue;
        }
        let path = entry.path().to_string_lossy();
        if metadata_of(rt, path)?.is_file() {
            paths.push(String::from_str(alloc, path)?)?;
        }
    }
    paths.sort()?;
    Ok(paths)
}

/// Returns the fault that reports that a file of definitions isn't UTF-8 after its first `valid`
/// bytes.
fn not_utf8(alloc: Global, name: &str, bytes: &[u8], valid: usize) -> Result<RunFault, AllocError> {
    let before = bytes.get(..valid).unwrap_or(bytes);
    let number = before
        .iter()
        .filter(|b| **b == b'\n')
        .count()
        .saturating_add(1);
    let what = format!(in alloc; "{name}:{number} isn't UTF-8")?;
    let advice = "save the file as UTF-8, for instance by iconv -f LATIN1 -t UTF-8";
    // own error: the file was read, and what it holds isn't UTF-8.
    Ok(RunFault::Read(Report::new(alloc, what.as_str(), advice)?))
}

fn add_file(
    rt: &(impl Files + AllocGlobal),
    files: &mut Vec<TextFile>,
    name: &str,
) -> Result<(), RunFault> {
    let alloc = rt.alloc();
    let bytes = or_file_fault(alloc, name, fs::read(rt, name))?;
    match str::from_utf8(&bytes) {
        Ok(text) => {
            let text = String::from_str(alloc, text)?;
            let name = String::from_str(alloc, name)?;
            files.push(TextFile { name, text })?;
            Ok(())
        }
        Err(error) => Err(not_utf8(alloc, name, &bytes, error.valid_up_to())?),
    }
}

/// Reads the files of definitions with these names. If a name is that of a folder, reads each file
/// in it, in the byte order of their names, but no hidden files, no copies of other files, and no folders.
///
/// # Errors
///
/// If a file or a folder can't be read, or if a file isn't UTF-8.
pub fn read_definition_files(
    rt: &(impl Files + AllocGlobal + Clone + Drop),
    names: &[&str],
) -> Result<Vec<TextFile>, RunFault> {
    let mut files = Vec::new(rt.alloc());
    for name in names {
        if metadata_of(rt, name)?.is_dir() {
            for path in &files_in(rt, name)? {
                add_file(rt, &mut files, path.as_str())?;
            }
        } else {
            add_file(rt, &mut files, name)?;
        }
    }
    Ok(files)
}
