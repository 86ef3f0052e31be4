//! Lists what the rules keep of the folders that it is given.
#![tactic(auto)]

use ignore::files::{DiskFiles, Env};
use ignore::{Error, WalkBuilder, collect_walk};
use std::env;

fn main(rt: HostRuntime) -> Result<(), Error> {
    let (files, process) = (DiskFiles::new(&rt), Env::of_process(&rt)?);
    for root in env::args(&rt)?.skip(1) {
        let builder = WalkBuilder::new(rt.alloc(), root.as_str())?;
        for entry in collect_walk(&builder, &files, &process)? {
            match entry {
                Ok(entry) => println!(rt; "{}", entry.path())?,
                Err(error) => eprintln!(rt; "{error}")?,
            }
        }
    }
    Ok(())
}
