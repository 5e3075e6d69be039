//! How a run of the program ends.

ghost use Rattle.std.specs.Prelude.{◌≡◌, Some};
ghost use Rattle.catalog_cli.specs.Statuses.{code_of, refusal_text, status_text};
ghost use Rattle.catalog_cli.specs.Statuses.{status_of_bytes, status_of_open, status_of_read, status_of_script};
ghost use Rattle.catalog_cli.specs.Statuses.{status_of_shelf};
ghost use Rattle.catalog_cli.specs.declared.status.Status.TheVariants.{NoMemory as OutOfMemory};

use cat_history::NoMemory;
use cat_script::ScriptFault;
use cat_text::{OutsideFault, ReadFault};
use crowd_rounds::recovery::OpenFault;
use pm_words::{Field, ImageFault};
use std::fmt;

/// Why a command was not done on a file.
#[derive(Clone, Copy)]
pub enum ImageRefusal {
    /// There is no file of this name.
    Missing,
    /// There is one already.
    Exists,
    /// Its bytes are no image, for this first fault.
    Bytes(ImageFault),
    /// Its image breaks this rule first, at this word.
    Damaged { rule: u64, word: u64 },
    /// Its image has too late a generation: none is left for its next opening, or for those behind the script's rounds
    /// that a crash ends or that several callers play.
    Generations,
}

impl fmt::Display for ImageRefusal {
    ghost output = { λ refusal. Some (refusal_text refusal) };

    fn fmt<W: fmt::Write>(&self, f: &mut fmt::Formatter<W>) -> fmt::Result {
        match self {
            ImageRefusal::Missing => write!(f, "missing"),
            ImageRefusal::Exists => write!(f, "exists"),
            ImageRefusal::Bytes(ImageFault::Length { found }) => write!(f, "length {found}"),
            ImageRefusal::Bytes(ImageFault::Magic) => write!(f, "magic"),
            ImageRefusal::Bytes(ImageFault::Format { found }) => write!(f, "format {found}"),
            ImageRefusal::Bytes(ImageFault::Layout { field }) => match field {
                Field::Nodes => write!(f, "nodes"),
                Field::Slots => write!(f, "slots"),
                Field::Callers => write!(f, "callers"),
            },
            ImageRefusal::Bytes(ImageFault::NoMemory) => write!(f, "out of memory"),
            ImageRefusal::Damaged { rule, word } => write!(f, "rule {rule} at word {word}"),
            ImageRefusal::Generations => write!(f, "generations"),
        }
    }
}

/// How a command ended.
#[derive(Clone, Copy)]
pub enum Status {
    /// What the command prints was written whole.
    Done,
    /// The words are no form of a command.
    Usage,
    /// The script was refused.
    Script(ScriptFault),
    /// The script could not be read.
    Read,
    /// The report could not be written.
    Write,
    /// The file could not be loaded or saved.
    Shelf,
    /// There was not enough memory.
    NoMemory,
    /// The file was refused.
    Image(ImageRefusal),
}

impl Status {
    /// The exit code.
    pub fn code(&self) -> u8
        ensures { result ≡ code_of self.now }
    {
        match self {
            Status::Done => 0,
            Status::Usage => 2,
            Status::Script(_) => 3,
            Status::Read => 4,
            Status::Write => 5,
            Status::Shelf => 6,
            Status::NoMemory => 7,
            Status::Image(_) => 8,
        }
    }
}

impl From<ReadFault> for Status {
    ghost from_gives = { λ fault status. status ≡ status_of_read fault };

    fn from(fault: ReadFault) -> Status {
        match fault {
            ReadFault::Failed => Status::Read,
            ReadFault::TooLong => Status::Script(ScriptFault::Bytes),
            ReadFault::NoMemory => Status::NoMemory,
        }
    }
}

impl From<ScriptFault> for Status {
    ghost from_gives = { λ fault status. status ≡ status_of_script fault };

    fn from(fault: ScriptFault) -> Status {
        match fault {
            ScriptFault::Bytes => Status::Script(ScriptFault::Bytes),
            ScriptFault::Rounds { line } => Status::Script(ScriptFault::Rounds { line }),
            ScriptFault::Calls { line } => Status::Script(ScriptFault::Calls { line }),
            ScriptFault::Scans { line } => Status::Script(ScriptFault::Scans { line }),
            ScriptFault::Line { line, reason } => Status::Script(ScriptFault::Line {
                line,
                reason,
            }),
            ScriptFault::NoMemory => Status::NoMemory,
        }
    }
}

impl From<OutsideFault> for Status {
    ghost from_gives = { λ fault status. status ≡ status_of_shelf fault };

    fn from(fault: OutsideFault) -> Status {
        match fault {
            OutsideFault::Failed => Status::Shelf,
            OutsideFault::NoMemory => Status::NoMemory,
        }
    }
}

impl From<ImageFault> for Status {
    ghost from_gives = { λ fault status. status ≡ status_of_bytes fault };

    fn from(fault: ImageFault) -> Status {
        match fault {
            ImageFault::NoMemory => Status::NoMemory,
            ImageFault::Length { found } => Status::Image(ImageRefusal::Bytes(ImageFault::Length {
                found,
            })),
            ImageFault::Magic => Status::Image(ImageRefusal::Bytes(ImageFault::Magic)),
            ImageFault::Format { found } => Status::Image(ImageRefusal::Bytes(ImageFault::Format {
                found,
            })),
            ImageFault::Layout { field } => Status::Image(ImageRefusal::Bytes(ImageFault::Layout {
                field,
            })),
        }
    }
}

impl From<OpenFault> for Status {
    ghost from_gives = { λ fault status. status ≡ status_of_open fault };

    fn from(fault: OpenFault) -> Status {
        match fault {
            OpenFault::Damaged { rule, word } => {
                Status::Image(ImageRefusal::Damaged { rule, word })
            }
            OpenFault::Generations => Status::Image(ImageRefusal::Generations),
            OpenFault::NoMemory => Status::NoMemory,
        }
    }
}

impl From<NoMemory> for Status {
    ghost from_gives = { λ _ status. status ≡ OutOfMemory };

    fn from(_error: NoMemory) -> Status {
        Status::NoMemory
    }
}

impl fmt::Display for Status {
    ghost output = { λ status. Some (status_text status) };

    fn fmt<W: fmt::Write>(&self, f: &mut fmt::Formatter<W>) -> fmt::Result {
        match self {
            Status::Done => write!(f, "done"),
            Status::Usage => write!(
                f,
                "usage: catalog format FILE NODES SLOTS CALLERS, run FILE, play NODES SLOTS CALLERS, \
                 gen SEED COUNT CALLERS, words FILE FROM COUNT"
            ),
            Status::Script(fault) => write!(f, "{fault}"),
            Status::Read => write!(f, "script: cannot read"),
            Status::Write => write!(f, "report: cannot write"),
            Status::Shelf => write!(f, "file: cannot load or save"),
            Status::NoMemory => write!(f, "out of memory"),
            Status::Image(refusal) => write!(f, "image: {refusal}"),
        }
    }
}
