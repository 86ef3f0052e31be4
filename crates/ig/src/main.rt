//! The program `ig`: what the ignore rules of a tree keep, what they ignore, and why.
#![tactic(auto)]

use ig_commands::run::{Ran, run};
use ig_commands::{Stop, World, report_stop};
use ignore_files::{DiskFiles, Env};
use std::io::{BufRead, BufReader, BufWriter, Write};
use std::process::ExitCode;
use std::rt::Env as _;
use std::time::Instant;
use std::{env, io, rt};

/// How many bytes of the output are kept before they are written.
const CAPACITY: usize = 64 * 1024;

/// How many bytes the longest word has.
const LONGEST: usize = 128 * 1024;

/// The words after the program's name; none where one of them isn't UTF-8.
fn words_after_name(rt: &(impl rt::Env + AllocGlobal)) -> io::Result<Option<Vec<String>>> {
    let args = match env::args(rt) {
        Ok(args) => args,
        Err(error) if error.kind() == io::ErrorKind::InvalidData => return Ok(None),
        Err(error) => return Err(error),
    };
    let mut words = Vec::new(rt.alloc());
    for word in args.skip(1) {
        words.push(word)?;
    }
    Ok(Some(words))
}

/// Runs the words by the process's environment.
fn run_words(rt: &HostRuntime, words: &[String]) -> Result<u8, Stop> {
    match Env::of_process(rt) {
        Ok(env) => run_buffered(rt, words, &env),
        Err(_) => report_memory(rt),
    }
}

/// Runs the words, with a buffer behind the input and before the output.
fn run_buffered(rt: &HostRuntime, words: &[String], env: &Env) -> Result<u8, Stop> {
    let Ok(mut out) = BufWriter::with_capacity(rt.alloc(), CAPACITY, rt.stdout()) else {
        return report_memory(rt);
    };
    let Ok(input) = BufReader::with_capacity(rt.alloc(), CAPACITY, rt.stdin()) else {
        return report_memory(rt);
    };
    let begun = Instant::now(rt);
    let ran = run_over_disk(rt, words, env, input, &mut out);
    end(rt, ran, begun)
}

/// Runs the words over the machine's files.
fn run_over_disk<R: BufRead + Drop, W: Write>(
    rt: &HostRuntime,
    words: &[String],
    env: &Env,
    input: R,
    out: &mut W,
) -> Result<Ran, Stop> {
    let files = DiskFiles::new(rt);
    let world = World {
        alloc: rt.alloc(),
        files: &files,
        env,
    };
    run(&world, words, input, out, &mut rt.stderr())
}

/// The status of a run, once the time that it took is reported where it is to be.
fn end(rt: &HostRuntime, ran: Result<Ran, Stop>, begun: io::Result<Instant>) -> Result<u8, Stop> {
    let ran = ran?;
    if ran.is_timed {
        report_time(rt, begun)?;
    }
    Ok(ran.status)
}

/// Reports that memory ran out before anything was run, and returns the status.
fn report_memory(rt: &HostRuntime) -> Result<u8, Stop> {
    report_stop(&mut rt.stderr(), Stop::Memory)
}

/// Reports how long a run took, where the clock can be read.
fn report_time(rt: &HostRuntime, begun: io::Result<Instant>) -> Result<(), Stop> {
    let Ok(begun) = begun else {
        return Ok(());
    };
    let Ok(time) = begun.elapsed(rt) else {
        return Ok(());
    };
    let mut err = rt.stderr();
    match writeln!(err, "ig: {} ms", time.as_millis()) {
        Ok(()) => Ok(()),
        Err(_) => Err(Stop::Silence),
    }
}

/// Reports the place of the first word that isn't UTF-8, and returns the status.
fn report_word(rt: &HostRuntime) -> Result<u8, Stop> {
    let Ok(place) = bad_place(rt) else {
        return report_memory(rt);
    };
    match writeln!(rt.stderr(), "ig: word {place} is not UTF-8") {
        Ok(()) => Ok(2),
        Err(_) => Err(Stop::Silence),
    }
}

/// The place of the first word after the program's name that isn't UTF-8; 0 where there is none.
fn bad_place(rt: &(impl rt::Env + AllocGlobal)) -> io::Result<usize> {
    let mut buffer = vec![in rt.alloc(); 0u8; LONGEST]?;
    for place in 1..usize::MAX {
        match rt.arg(place, buffer.as_mut_slice()) {
            Ok(len) if std::str::from_utf8(&buffer[..len]).is_ok() => {}
            Ok(_) => return Ok(place),
            Err(_) => return Ok(0),
        }
    }
    Ok(0)
}

fn main(rt: HostRuntime) -> ExitCode {
    let status = match words_after_name(&rt) {
        Ok(Some(words)) => run_words(&rt, words.as_slice()),
        Ok(None) => report_word(&rt),
        Err(_) => report_memory(&rt),
    };
    ExitCode::from(status.unwrap_or(2))
}
