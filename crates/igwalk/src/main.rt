//! The program `igwalk`: matches a path against the rules of gitignore lines, lists what they keep
//! of a tree, and answers about paths below a root.
#![tactic(auto)]

use commands::{Stop, World, report_stop, run_buffered, words_after_name};
use ignore_files::{DiskFiles, Env};
use std::io::Write;
use std::process::ExitCode;
use std::{env, io, rt};

/// What `igwalk --help` prints.
const HELP: &str = "\
igwalk: gitignore rules on the command line

  igwalk list ROOT..                  the paths that the rules keep, one a line, in order
  igwalk check ROOT PATH..            none, ignore or whitelist, and the path, of each PATH in ROOT
  igwalk match ROOT RULES PATH d|f    the answer of the lines of RULES for a directory or a file
  igwalk --help | --version

Status: 0; 1 where something was reported on standard error; 2 for wrong words, out of memory and a
failed write. README.md and docs/CALLING.md say which rules count, man/igwalk.1 is its manual page.
";

/// What `igwalk --version` prints.
const VERSION: &str = "igwalk 1.1.0\n";

/// The words after the program's name; none where one of them isn't UTF-8.
fn words(rt: &(impl rt::Env + AllocGlobal)) -> io::Result<Vec<String>> {
    match env::args(rt) {
        Ok(args) => Ok(words_after_name(rt.alloc(), args)?),
        Err(error) if error.kind() == io::ErrorKind::InvalidData => Ok(Vec::new(rt.alloc())),
        Err(error) => Err(error),
    }
}

/// What is printed where the only word asks about the program itself.
fn own_answer(words: &[String]) -> Option<&'static str> {
    let (first, rest) = words.split_first()?;
    if !rest.is_empty() {
        return None;
    }
    match first.as_str() {
        "--help" | "-h" => Some(HELP),
        "--version" | "-V" => Some(VERSION),
        _ => None,
    }
}

/// Prints a text, and returns the status.
fn print(rt: &HostRuntime, text: &str) -> Result<u8, Stop> {
    match rt.stdout().write_all(text.as_bytes()) {
        Ok(()) => Ok(0),
        Err(_) => report_stop(&mut rt.stderr(), Stop::Write),
    }
}

/// The status of a run of the words over the machine's files.
fn status(rt: &HostRuntime, words: &[String], env: &Env) -> Result<u8, Stop> {
    if let Some(text) = own_answer(words) {
        return print(rt, text);
    }
    let files = DiskFiles::new(rt);
    let mut err = rt.stderr();
    let world = World {
        alloc: rt.alloc(),
        files: &files,
        env,
    };
    let (status, _) = run_buffered(&world, words, rt.stdout(), &mut err)?;
    Ok(status)
}

fn main(rt: HostRuntime) -> ExitCode {
    let status = match (words(&rt), Env::of_process(&rt)) {
        (Ok(words), Ok(env)) => status(&rt, words.as_slice(), &env),
        _ => report_stop(&mut rt.stderr(), Stop::Memory),
    };
    ExitCode::from(status.unwrap_or(2))
}
