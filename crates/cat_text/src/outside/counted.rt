//! Any reader of std as a source, any writer of std as a sink, and the files of a runtime as a shelf. They tell the
//! bytes that those tell, and count their faults. Of the process's standard streams and of its files std tells no
//! bytes: what these give and take is the system's word.
ghost use Rattle.std.specs.Prelude.{◌≡◌, ℕ, None};

use super::fault_count::FaultCount;
use super::files::{read_file, save_file};
use super::shelf::{LoadFault, SaveFault, Shelf};
use super::sink::{Sink, WriteFault};
use super::source::{Failed, Source};
use std::alloc::AllocGlobal;
use std::io::{ErrorKind, Read, Write};
use std::marker::Model;
use std::rt::Files;

/// A reader, a writer, or a runtime with files by their paths, seen with the number of its calls that failed. Each
/// write of a writer is passed on at once.
///
/// A save of a file writes a new one beside the old one, flushes it, and gives it the name in one step, so that a
/// process that is killed leaves the old bytes or the new ones under the name. The mode bits stay. A symbolic link is
/// followed: the file that it leads to is loaded or replaced, and the link stays; a save under a link that leads
/// nowhere fails. Only regular files are loaded and replaced.
#[derive(Drop)]
pub struct Counted<T> {
    inner: T,
    faults: FaultCount,
}

impl<T> Model for Counted<T> {
    ghost Value = { T × ℕ };

    ghost view = { λ s. (s.inner, s.faults.count) };
}

impl<T> Counted<T> {
    /// A reader, a writer or files, before the first call.
    pub fn new(inner: T) -> Counted<T>
        ensures { result ≡ (inner, 0) }
    {
        let faults = FaultCount::new();
        Counted { inner, faults }
    }
}

impl<R: Read> Source for Counted<R> {
    ghost left = { λ s. R.remaining s.0 };

    ghost faults = { λ s. s.1 };

    ghost steady = { λ _. ⊥ };

    fn read(&mut self, into: &mut [u8]) -> Result<usize, Failed> {
        match self.inner.read(into) {
            Ok(taken) => Ok(taken),
            Err(_) => {
                self.faults.rise();
                Err(Failed)
            }
        }
    }
}

impl<W: Write> Sink for Counted<W> {
    ghost written = { λ s. W.contents s.0 };

    ghost faults = { λ s. s.1 };

    ghost steady = { λ _. ⊥ };

    fn write(&mut self, piece: &[u8]) -> Result<usize, WriteFault> {
        match self.inner.write(piece) {
            Ok(taken) if taken > 0 || piece.is_empty() => Ok(taken),
            // A write that takes nothing of a piece would be tried for ever.
            _ => {
                self.faults.rise();
                Err(WriteFault::Failed)
            }
        }
    }
}

impl<R: Files + AllocGlobal> Shelf for Counted<R> {
    ghost files = { λ _. None };

    ghost faults = { λ s. s.1 };

    ghost steady = { λ _. ⊥ };

    fn load(&mut self, name: &str) -> Result<Option<Vec<u8>>, LoadFault> {
        match read_file(&self.inner, name) {
            Ok(found) => Ok(found),
            Err(error) if error.kind() == ErrorKind::OutOfMemory => Err(LoadFault::NoMemory),
            Err(_) => {
                self.faults.rise();
                Err(LoadFault::Failed)
            }
        }
    }

    fn save(&mut self, name: &str, bytes: &[u8]) -> Result<(), SaveFault> {
        let saved = save_file(&self.inner, name, bytes);
        if saved == Err(SaveFault::Failed) {
            self.faults.rise();
        }
        saved
    }
}
