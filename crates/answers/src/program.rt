//! The files of vectors of a run, and what it reports at its end.

use std::io::Read;
use std::rt::Env;
use std::{env, fs, io};
use vectors::{File, Kinds, Reports, Tally, replay};

/// The name of standard input in reports.
const STDIN: &str = "stdin";

/// Why a run ends before its end.
#[derive(Clone, Copy, Drop)]
enum Stop<'n> {
    /// An allocation failed twice.
    Memory,
    /// What has this name can't be read.
    Read(&'n str),
    /// A report can't be written.
    Write,
}

/// Asks the vectors of the files that the words after the program's name name, in turn, and then
/// those of standard input. The last line on standard output counts them.
///
/// It returns the status: 0; 1 where an answer was not the wanted one, or a line was no vector; 2
/// for out of memory and for what can't be read or written, reported on standard error.
pub fn replay_all<K: Kinds>(rt: &HostRuntime, kinds: &K) -> u8 {
    match words(rt) {
        Ok(words) => replay_words(rt, kinds, words.as_slice()),
        Err(stop) => report_stop(rt, stop),
    }
}

fn replay_words<K: Kinds>(rt: &HostRuntime, kinds: &K, words: &[String]) -> u8 {
    let mut tally = Tally::new();
    match replay_files(rt, kinds, words, &mut tally) {
        Ok(()) => tally.status(),
        Err(stop) => report_stop(rt, stop),
    }
}

fn replay_files<'w, K: Kinds>(
    rt: &HostRuntime,
    kinds: &K,
    words: &'w [String],
    tally: &mut Tally,
) -> Result<(), Stop<'w>> {
    for word in words {
        let bytes = contents(rt, word.as_str())?;
        replay_bytes(rt, kinds, word.as_str(), &bytes, tally)?;
    }
    let bytes = standard_input(rt)?;
    replay_bytes(rt, kinds, STDIN, &bytes, tally)?;
    report_tally(rt, tally)
}

fn replay_bytes<'w, K: Kinds>(
    rt: &HostRuntime,
    kinds: &K,
    name: &'w str,
    bytes: &[u8],
    tally: &mut Tally,
) -> Result<(), Stop<'w>> {
    let file = File { name, bytes };
    let mut reports = Reports {
        out: rt.stdout(),
        err: rt.stderr(),
    };
    match replay(rt.alloc(), kinds, file, tally, &mut reports) {
        Ok(()) => Ok(()),
        Err(vectors::Stop::Memory) => Err(Stop::Memory),
        Err(vectors::Stop::Write) => Err(Stop::Write),
    }
}

/// The words after the program's name, retried once where it is out of memory.
fn words(rt: &HostRuntime) -> Result<Vec<String>, Stop<'static>> {
    match words_once(rt) {
        Err(Stop::Memory) => words_once(rt),
        words => words,
    }
}

fn words_once(rt: &HostRuntime) -> Result<Vec<String>, Stop<'static>> {
    match all_words(rt) {
        Ok(words) => Ok(words),
        Err(error) => Err(stop_of(error, "the words")),
    }
}

fn all_words(rt: &(impl Env + AllocGlobal)) -> io::Result<Vec<String>> {
    let mut words = Vec::new(rt.alloc());
    for word in env::args(rt)?.skip(1) {
        words.push(word)?;
    }
    Ok(words)
}

/// What a file holds, read again where that is out of memory.
fn contents<'w>(rt: &HostRuntime, path: &'w str) -> Result<Vec<u8>, Stop<'w>> {
    match contents_once(rt, path) {
        Err(Stop::Memory) => contents_once(rt, path),
        bytes => bytes,
    }
}

fn contents_once<'w>(rt: &HostRuntime, path: &'w str) -> Result<Vec<u8>, Stop<'w>> {
    match fs::read(rt, path) {
        Ok(bytes) => Ok(bytes),
        Err(error) => Err(stop_of(error, path)),
    }
}

/// What standard input holds. After out of memory, reading continues from there.
fn standard_input(rt: &HostRuntime) -> Result<Vec<u8>, Stop<'static>> {
    let mut bytes = Vec::new(rt.alloc());
    match read_on(rt, &mut bytes) {
        Err(Stop::Memory) => read_on(rt, &mut bytes)?,
        read => read?,
    }
    Ok(bytes)
}

fn read_on(rt: &HostRuntime, bytes: &mut Vec<u8>) -> Result<(), Stop<'static>> {
    match rt.reader().read_to_end(bytes) {
        Ok(_) => Ok(()),
        Err(error) => Err(stop_of(error, STDIN)),
    }
}

fn stop_of(error: io::Error, name: &str) -> Stop<'_> {
    match error.kind() {
        io::ErrorKind::OutOfMemory => Stop::Memory,
        _ => Stop::Read(name),
    }
}

fn report_tally<'w>(rt: &HostRuntime, tally: &Tally) -> Result<(), Stop<'w>> {
    match println!(rt; "{tally}") {
        Ok(()) => Ok(()),
        Err(_) => Err(Stop::Write),
    }
}

/// Reports why a run ended, and returns its status. A report that can't be written is dropped.
fn report_stop(rt: &HostRuntime, stop: Stop<'_>) -> u8 {
    let _ = match stop {
        Stop::Memory => eprintln!(rt; "replay: out of memory"),
        Stop::Read(name) => eprintln!(rt; "replay: {name}: cannot read"),
        Stop::Write => eprintln!(rt; "replay: cannot write"),
    };
    2
}
