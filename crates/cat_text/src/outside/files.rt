//! Files of the system, loaded whole and replaced in one step.

use super::shelf::SaveFault;
use std::alloc::AllocGlobal;
use std::fs::{File, OpenFile, OpenOptions, Permissions};
use std::io::{ErrorKind, Write};
use std::os::unix::fs::{OpenOptionsExt, PermissionsExt};
use std::path::{Path, PathBuf};
use std::rt::Files;
use std::{fs, io};

/// Saves a file. Memory is wanted only before the file is another.
pub(super) fn save_file<R: Files + AllocGlobal>(
    rt: &R,
    path: &str,
    bytes: &[u8],
) -> Result<(), SaveFault> {
    match replace_file(rt, path, bytes) {
        Ok(folder) if sync_folder(rt, folder.as_path()).is_ok() => Ok(()),
        Err(error) if error.kind() == ErrorKind::OutOfMemory => Err(SaveFault::NoMemory),
        _ => Err(SaveFault::Failed),
    }
}

/// The bytes of a regular file; None where there is none.
pub(super) fn read_file<R: Files + AllocGlobal>(rt: &R, path: &str) -> io::Result<Option<Vec<u8>>> {
    match permissions_of(rt, path)? {
        Some(_) => Ok(Some(fs::read(rt, path)?)),
        None => Ok(None),
    }
}

/// The mode bits of a regular file; None where there is none, and an error where it is no regular file.
fn permissions_of<R: Files>(rt: &R, path: &str) -> io::Result<Option<Permissions>> {
    match fs::metadata(rt, path) {
        Ok(found) if found.is_file() => Ok(Some(found.permissions())),
        Ok(_) => Err(io::Error::from(ErrorKind::InvalidInput)),
        Err(error) if error.kind() == ErrorKind::NotFound => Ok(None),
        Err(error) => Err(error),
    }
}

/// Gives a file new bytes in one step, and answers its folder. After an error nothing of the new file is left.
fn replace_file<R: Files + AllocGlobal>(rt: &R, path: &str, bytes: &[u8]) -> io::Result<PathBuf> {
    let target = followed(rt, path)?;
    let permissions = permissions_of(rt, target.as_str())?;
    if permissions.is_some() {
        // A file that may not be written isn't replaced either.
        OpenOptions::new().write(true).open(rt, &target)?;
    }
    let folder = folder_of(rt, target.as_path())?;
    let (beside, file) = create_beside(rt, folder.as_path(), &permissions)?;
    let filled = fill::<R>(file, bytes, permissions);
    let replaced = filled.and_then(|()| fs::rename(rt, &beside, &target));
    if replaced.is_err() {
        let _ = fs::remove_file(rt, &beside);
    }
    replaced?;
    Ok(folder)
}

/// The path of the file that links lead to, or the path itself where nothing is there yet.
fn followed<R: Files + AllocGlobal>(rt: &R, path: &str) -> io::Result<PathBuf> {
    match fs::symlink_metadata(rt, path) {
        // A link that leads nowhere is an error here.
        Ok(_) => fs::canonicalize(rt, path),
        Err(error) if error.kind() == ErrorKind::NotFound => {
            Ok(PathBuf::from_str(rt.alloc(), path)?)
        }
        Err(error) => Err(error),
    }
}

/// The folder that a path's file is in.
fn folder_of<R: AllocGlobal>(rt: &R, path: Path<'_>) -> io::Result<PathBuf> {
    match path.parent() {
        Some(folder) if !folder.as_str().is_empty() => Ok(folder.to_path_buf(rt.alloc())?),
        _ => Ok(PathBuf::from_str(rt.alloc(), ".")?),
    }
}

/// Makes a new file in a folder under a name that no file there has, be it a user's, one of a save that goes on beside
/// this one, or one that a killed process left.
fn create_beside<R: Files + AllocGlobal>(
    rt: &R,
    folder: Path<'_>,
    permissions: &Option<Permissions>,
) -> io::Result<(PathBuf, R::File)> {
    let mode = permissions.as_ref().map_or(0o666, |old| old.mode());
    for number in 0..u64::MAX {
        let name = format!(in rt.alloc(); ".catalog-{number}.new")?;
        let path = folder.join(rt.alloc(), &name)?;
        match OpenOptions::new()
            .write(true)
            .create_new(true)
            .mode(mode)
            .open(rt, &path)
        {
            Ok(file) => return Ok((path, file)),
            Err(error) if error.kind() == ErrorKind::AlreadyExists => {}
            Err(error) => return Err(error),
        }
    }
    Err(io::Error::from(ErrorKind::AlreadyExists))
}

/// Writes and flushes the bytes of a new file, and gives it the mode bits of the one that it is to replace.
fn fill<R: Files>(
    mut file: R::File,
    bytes: &[u8],
    permissions: Option<Permissions>,
) -> io::Result<()> {
    file.write_all(bytes)?;
    if let Some(permissions) = permissions {
        file.set_permissions(permissions)?;
    }
    file.sync_all()
}

/// Flushes a folder, so that the name of a new file in it is kept. Where the folder can't be opened, or a folder can't
/// be flushed, the system is left to do it.
fn sync_folder<R: Files>(rt: &R, folder: Path<'_>) -> io::Result<()> {
    let Ok(folder) = File::open(rt, folder) else {
        return Ok(());
    };
    match folder.sync_all() {
        Err(error) if error.kind() != ErrorKind::InvalidInput => Err(error),
        _ => Ok(()),
    }
}
