// How a file of the system is opened: for one disk alone, and so that it stays in its folder.

use std::fs;
use std::os::unix::fs::OpenOptionsExt;
use std::rt::Files;

// Only who owns a store reads it: it holds digests of passwords.
const OWNERS_ALONE: u32 = 0o600;

// The folder that holds the file of this name.
fn folder_of(name: &str) -> &str {
    match name.rsplit_once('/') {
        Some(("", _)) => "/",
        Some((folder, _)) => folder,
        None => ".",
    }
}

// Has the folder of this file put on the disk, so that the file is in it after a loss of power.
fn put_folder<R: Files<File = fs::File>>(rt: &R, name: &str) -> bool {
    let folder = fs::OpenOptions::new().read(true).open(rt, folder_of(name));
    match folder {
        Ok(folder) => folder.sync_all().is_ok(),
        Err(_) => false,
    }
}

fn open_or_make<R: Files<File = fs::File>>(rt: &R, name: &str) -> Option<fs::File> {
    fs::OpenOptions::new()
        .read(true)
        .write(true)
        .create(true)
        .mode(OWNERS_ALONE)
        .open(rt, name)
        .ok()
}

/// How many bytes the file has.
pub(crate) fn length_of(file: &fs::File) -> Option<u64> {
    let data = file.metadata().ok()?;
    Some(data.len())
}

/// Opens the file of this name, which is made where there is none, for this process alone: where another one has it
/// open so, there is no answer, and nothing was read or written. The folder of a file without a byte is put on the
/// disk. So that of each file with one was, whoever made it.
pub(crate) fn opened<R: Files<File = fs::File>>(rt: &R, name: &str) -> Option<fs::File> {
    let file = open_or_make(rt, name)?;
    file.try_lock().ok()?;
    if length_of(&file)? == 0 && !put_folder(rt, name) {
        return None;
    }
    Some(file)
}
