//! `catalog`: its words, its streams and its exit code.
#![tactic(auto)]

use cat_text::Counted;
use catalog_cli::{Status, catalog};
use pac_index::OpenGate;
use std::process::ExitCode;
use std::rt::Env;
use std::{env, io};

/// What each form of the command line does, and what a script may have.
const FORMS: &str = "\
    format: makes a file of an empty catalogue\n\
    run: reads a script on standard input to its end, then plays it on a file, saves that, and prints the report\n\
    play: the same on an empty catalogue, without a file\n\
    gen: plays COUNT calls that are made from SEED, and prints what they come to\n\
    words: prints COUNT words of a file from number FROM on\n\
    \n\
    a script has a line for each call: CALLER put NAME NUMBER, CALLER get NAME, CALLER del NAME, \
    CALLER scan NAME COUNT\n\
    join, or crash SEED BUDGETS, ends a round; updater CALLS and limit WRITES hold from their round on\n\
    the callers of a round make their calls at once, each in a thread of its own: a report of several callers differs \
    from run to run";

const VERSION: &str = "catalog 0.1.0";

/// Answers `--help` and `--version`, and hands every other command on.
fn main(rt: HostRuntime) -> ExitCode {
    let status = match arguments(&rt) {
        Err(status) => status,
        Ok(words) => match only_word(&words) {
            Some("--help") => shown(println!(rt; "{}\n{FORMS}", Status::Usage)),
            Some("--version") => shown(println!(rt; "{VERSION}")),
            _ => {
                let mut script = Counted::new(rt.stdin());
                let mut out = Counted::new(rt.stdout());
                let mut shelf = Counted::new(&rt);
                catalog(
                    &rt,
                    rt.alloc(),
                    &words,
                    &mut script,
                    &mut out,
                    &mut shelf,
                    &OpenGate,
                )
            }
        },
    };
    if !matches!(status, Status::Done) {
        // Where not even this can be written, the exit code still tells.
        let _ = eprintln!(rt; "catalog: {status}");
    }
    ExitCode::from(status.code())
}

/// How an answer of `main`'s own ends.
fn shown(printed: io::Result<()>) -> Status {
    match printed {
        Ok(()) => Status::Done,
        Err(_) => Status::Write,
    }
}

/// The words behind the program's name. Words that are no text are those of no command.
fn arguments<R: Env + AllocGlobal>(rt: &R) -> Result<Vec<String>, Status> {
    let args = match env::args(rt) {
        Ok(args) => args,
        Err(error) if matches!(error.kind(), io::ErrorKind::InvalidData) => {
            return Err(Status::Usage);
        }
        Err(_) => return Err(Status::NoMemory),
    };
    let mut words = Vec::new(rt.alloc());
    for word in args.skip(1) {
        if words.push(word).is_err() {
            return Err(Status::NoMemory);
        }
    }
    Ok(words)
}

/// The word, where there is just one.
fn only_word(words: &[String]) -> Option<&str> {
    match words {
        [word] => Some(word.as_str()),
        _ => None,
    }
}
