//! A save on the file system, each of whose steps fails in turn.

use cat_text::{Counted, Shelf};
use std::alloc::{Alloc, Allocator, Global};
use std::cell::Cell;
use std::fs::{Metadata, OpenOptions};
use std::io::ErrorKind;
use std::path::PathBuf;
use std::rt::Files;
use std::test::Fail;
use std::{env, fs, io, process};

/// The files of the system, of which one call fails: the one with the number `fails`, from 1.
#[derive(Drop)]
struct Tripping {
    rt: HostRuntime,
    calls: Cell<u64>,
    fails: u64,
}

impl Tripping {
    fn count(&self) -> io::Result<()> {
        let number = self.calls.get().saturating_add(1);
        self.calls.set(number);
        if number == self.fails {
            return Err(io::Error::from(ErrorKind::PermissionDenied));
        }
        Ok(())
    }
}

impl Alloc for Tripping {
    type A = Global;

    fn alloc(&self) -> Global {
        self.rt.alloc()
    }
}

impl Files for Tripping {
    type File = <HostRuntime as Files>::File;

    type Dir = <HostRuntime as Files>::Dir;

    fn open_file(&self, how: &OpenOptions, path: &str) -> io::Result<Self::File> {
        self.count()?;
        self.rt.open_file(how, path)
    }

    fn open_dir(&self, path: &str) -> io::Result<Self::Dir> {
        self.rt.open_dir(path)
    }

    fn metadata(&self, path: &str) -> io::Result<Metadata> {
        self.count()?;
        self.rt.metadata(path)
    }

    fn symlink_metadata(&self, path: &str) -> io::Result<Metadata> {
        self.count()?;
        self.rt.symlink_metadata(path)
    }

    fn canonicalize<B: Allocator>(&self, alloc: B, path: &str) -> io::Result<PathBuf<B>> {
        self.count()?;
        self.rt.canonicalize(alloc, path)
    }

    fn rename(&self, from: &str, to: &str) -> io::Result<()> {
        self.count()?;
        self.rt.rename(from, to)
    }

    fn remove_file(&self, path: &str) -> io::Result<()> {
        self.rt.remove_file(path)
    }

    fn copy(&self, from: &str, to: &str) -> io::Result<u64> {
        self.rt.copy(from, to)
    }

    fn create_dir(&self, path: &str) -> io::Result<()> {
        self.rt.create_dir(path)
    }

    fn remove_dir(&self, path: &str) -> io::Result<()> {
        self.rt.remove_dir(path)
    }

    fn remove_dir_all<B: Allocator>(&self, alloc: B, path: &str) -> io::Result<()> {
        self.rt.remove_dir_all(alloc, path)
    }
}

/// A new empty folder.
fn new_folder(rt: &HostRuntime) -> Result<PathBuf, Fail> {
    let number = process::id(rt.process());
    let name = format!(in rt.alloc(); "saving-{number}")?;
    let folder = env::temp_dir(rt)?.join(rt.alloc(), &name)?;
    let _ = fs::remove_dir_all(rt, &folder);
    fs::create_dir(rt, &folder)?;
    Ok(folder)
}

/// Saves a file that has other bytes, of which step one fails: whether the save says so, whether the file has the new
/// bytes then, or the old ones, and how many files, folders and links its folder has.
fn save_of(
    rt: &HostRuntime,
    folder: &PathBuf,
    file: &PathBuf,
    fails: u64,
) -> io::Result<(bool, bool, bool, usize)> {
    fs::write(rt, file, "old")?;
    let files = Tripping {
        rt: *rt,
        calls: Cell::new(0),
        fails,
    };
    let is_saved = Counted::new(files).save(file.as_str(), b"new").is_ok();
    let bytes = fs::read(rt, file)?;
    let (is_new, is_old) = (
        bytes.as_slice() == b"new".as_slice(),
        bytes.as_slice() == b"old".as_slice(),
    );
    Ok((is_saved, is_new, is_old, fs::read_dir(rt, folder)?.count()))
}

/// The six steps before the file is another fail in turn: it has its old bytes, and nothing else is left. The seventh
/// opens the folder, which may not be allowed.
#[test]
fn each_step_of_a_save_fails(rt: HostRuntime) -> Result<(), Fail> {
    let folder = new_folder(&rt)?;
    let file = folder.join(rt.alloc(), "catalogue")?;
    for fails in 1..9 {
        let is_saved = fails >= 7;
        let wanted = (is_saved, is_saved, !is_saved, 1);
        assert!(rt;
            save_of(&rt, &folder, &file, fails)? == wanted,
            "step {fails}"
        );
    }
    fs::remove_dir_all(&rt, &folder)?;
    Ok(())
}
