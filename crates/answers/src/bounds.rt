//! How often the files may be called, for a walk and for questions about single paths.

use crate::counting::{Asked, Calls, holds, is_of_git, last_name, push_new, trimmed};
use std::alloc::{AllocError, Global};

/// How often a kind is asked where a directory is loaded: of its `.ignore`, its `.gitignore`, its
/// `.git`, its `.jj` and its exclude file. Once more for each custom name.
const PER_LOAD: u64 = 5;

/// How often a kind is asked where a walk begins a root: whether it is a directory, its canonical
/// path, its own kind, and the kind of what it leads to.
const PER_ROOT: u64 = 4;

/// Besides, on one device: whether the identity of a root is known, its device as that of the root,
/// and its device as that of a directory to be entered.
const PER_ROOT_ON_DEVICE: u64 = 3;

/// On one device, of each directory that is listed as an entry: whether its identity is known, and
/// its device.
const PER_DIR_ON_DEVICE: u64 = 2;

/// Of a link that is followed: the kind of what it leads to, and its identity; and the identity of
/// each directory that was entered on the way to it.
const PER_LINK: u64 = 2;

/// What the calls of a walk or of a matcher are bounded by.
#[derive(Drop)]
pub struct Bounds<'v> {
    /// The roots, each as often as it is given.
    pub roots: Vec<&'v str>,
    /// The custom names.
    pub customs: Vec<&'v str>,
    /// Whether sizes are limited.
    pub has_sizes: bool,
    /// Whether links are followed.
    pub follows: bool,
    /// Whether a walk stays on one device.
    pub has_devices: bool,
    /// The paths that the rules from outside are asked of (`outside_paths`), where their calls are
    /// among those that are bounded.
    pub outside: &'v [String],
}

/// The questions about single paths that a matcher was asked since it kept nothing.
#[derive(Drop)]
pub struct Questions {
    /// The directories on the way to the paths, from the root's down, each once: `a` and `a/b` for
    /// `a/b/c`, and the empty text for the root.
    pub dirs: Vec<String>,
    /// How many paths were asked about.
    pub paths: u64,
    /// Whether the root is a directory.
    pub is_dir: bool,
    /// Whether the kind of each path is asked for the caller.
    pub are_looked_up: bool,
}

impl Questions {
    /// None, of a root that is no directory.
    pub fn new(alloc: Global) -> Questions {
        Questions {
            dirs: Vec::new(alloc),
            paths: 0,
            is_dir: false,
            are_looked_up: false,
        }
    }

    /// Notes a question about a path.
    pub fn note(&mut self, alloc: Global, path: &str) -> Result<(), AllocError> {
        self.paths = self.paths.saturating_add(1);
        push_new(&mut self.dirs, String::new(alloc))?;
        for (at, _) in path.match_indices('/') {
            push_new(&mut self.dirs, String::from_str(alloc, &path[..at])?)?;
        }
        Ok(())
    }
}

impl<'v> Bounds<'v> {
    /// Of the settings at first, and of no root.
    pub fn new(alloc: Global) -> Bounds<'v> {
        Bounds {
            roots: Vec::new(alloc),
            customs: Vec::new(alloc),
            has_sizes: false,
            follows: false,
            has_devices: false,
            outside: &[],
        }
    }

    /// What of the calls of a walk is too much, if anything is: a directory is listed more often than
    /// there are roots at or above it; what is in a directory that isn't entered is asked; kinds are
    /// asked too often; or a file is read more often than its directory is loaded.
    pub fn excess_of_walk(&self, calls: &Calls) -> Option<&'static str> {
        for call in &calls.made {
            let path = call.path.as_str();
            if call.asked == Asked::Entries
                && calls.times(Asked::Entries, path) > self.holders(path)
            {
                return Some("a directory is listed again");
            }
            if self.is_stray(calls, path) {
                return Some("a directory that isn't entered is asked");
            }
        }
        if calls.count(Asked::Kind) > self.kinds_of_walk(calls) {
            return Some("kinds are asked too often");
        }
        self.excess_of_reads(calls, false)
    }

    /// What of the calls for questions is too much, if anything is: a directory is listed, a file is
    /// read more often than its directory is loaded, or kinds are asked too often.
    pub fn excess_of_questions(&self, calls: &Calls, asked: &Questions) -> Option<&'static str> {
        if calls.count(Asked::Entries) > 0 {
            return Some("a directory is listed for a question");
        }
        if calls.count(Asked::Kind) > self.kinds_of_questions(calls, asked) {
            return Some("kinds are asked too often");
        }
        self.excess_of_reads(calls, true)
    }

    /// That a file is read more often than it may be, if one is; a matcher loads each directory once.
    fn excess_of_reads(&self, calls: &Calls, is_once: bool) -> Option<&'static str> {
        for call in &calls.made {
            if call.asked == Asked::Contents {
                let path = call.path.as_str();
                let loads = if is_once { 1 } else { self.loads(path) };
                let most = loads.saturating_mul(self.roles(path));
                let most = most.saturating_add(led_to(calls, path));
                if calls.times(Asked::Contents, path) > most {
                    return Some("a file is read again, or isn't one of rules");
                }
            }
        }
        None
    }

    /// How often a walk loads a directory, by the path of something in it: once for each root at or
    /// above it, and once as one that is above other roots.
    fn loads(&self, path: &str) -> u64 {
        let holders = self.holders(path);
        if holders < self.roots.len() as u64 {
            holders.saturating_add(1)
        } else {
            holders
        }
    }

    /// How many roots are at or above a path.
    fn holders(&self, path: &str) -> u64 {
        let mut holders = 0u64;
        for root in &self.roots {
            if holds(*root, path) {
                holders = holders.saturating_add(1);
            }
        }
        holders
    }

    /// As how many files of rules a path is read: of its directory, and from outside.
    fn roles(&self, path: &str) -> u64 {
        let is_standard = matches!(last_name(path), ".ignore" | ".gitignore" | ".git")
            || path.ends_with(".git/info/exclude");
        let mut roles = (is_standard as u64).saturating_add(self.times_outside(path));
        for custom in &self.customs {
            if is_at_end(*custom, path) {
                roles = roles.saturating_add(1);
            }
        }
        roles
    }

    /// How often a path is one that the rules from outside are asked of.
    fn times_outside(&self, path: &str) -> u64 {
        let mut times = 0u64;
        for other in self.outside {
            if other.as_str() == path {
                times = times.saturating_add(1);
            }
        }
        times
    }

    /// Whether a path below the only root is asked that isn't in a directory that is listed. The
    /// user's own files of git may lie there.
    fn is_stray(&self, calls: &Calls, path: &str) -> bool {
        let [root] = self.roots.as_slice() else {
            return false;
        };
        if self.has_devices || !self.customs.is_empty() || !holds(*root, path) || is_of_git(path) {
            return false;
        }
        if self.times_outside(path) > 0 {
            return false;
        }
        match path.rsplit_once('/') {
            Some((dir, _)) if trimmed(*root) != trimmed(path) => {
                !calls.has_listed(if dir.is_empty() { "/" } else { dir })
            }
            _ => false,
        }
    }

    /// How often kinds may be asked for the rules from outside: of git's excludes file.
    fn kinds_outside(&self) -> u64 {
        !self.outside.is_empty() as u64
    }

    /// How often kinds may be asked for the load of so many directories.
    fn kinds_of_loads(&self, dirs: u64) -> u64 {
        dirs.saturating_mul(PER_LOAD.saturating_add(self.customs.len() as u64))
    }

    /// How often a walk may ask for kinds.
    fn kinds_of_walk(&self, calls: &Calls) -> u64 {
        let roots = self.roots.len() as u64;
        let above = calls.above.len() as u64;
        let mut most = self.kinds_outside();
        most = most.saturating_add(roots.saturating_mul(PER_ROOT));
        most = most.saturating_add(self.kinds_of_loads(above));
        if self.has_devices {
            most = most.saturating_add(self.kinds_on_device(calls));
        } else {
            most = most.saturating_add(self.kinds_of_loads(calls.count(Asked::Entries)));
        }
        if self.has_sizes {
            most = most.saturating_add(calls.others);
        }
        if self.follows {
            most = most.saturating_add(calls.links.saturating_mul(PER_LINK));
            most = most.saturating_add(calls.around_links);
        }
        most
    }

    /// The same of loads and devices on one device, where a directory on another one is loaded, and
    /// isn't listed.
    fn kinds_on_device(&self, calls: &Calls) -> u64 {
        let roots = self.roots.len() as u64;
        let mut dirs = calls.dirs;
        if self.follows {
            dirs = dirs.saturating_add(calls.links);
        }
        let mut most = self.kinds_of_loads(roots.saturating_add(dirs));
        most = most.saturating_add(roots.saturating_mul(PER_ROOT_ON_DEVICE));
        most.saturating_add(dirs.saturating_mul(PER_DIR_ON_DEVICE))
    }

    /// How often questions may ask for kinds: of the root once, and where it is no directory by each;
    /// its canonical path once; of what is loaded; and of each path for its size, and for the caller.
    fn kinds_of_questions(&self, calls: &Calls, asked: &Questions) -> u64 {
        let above = calls.above.len() as u64;
        let mut most = self.kinds_outside();
        most = most.saturating_add(if asked.is_dir { 1 } else { asked.paths });
        most = most.saturating_add(self.roots.len() as u64);
        let loaded = above.saturating_add(asked.dirs.len() as u64);
        most = most.saturating_add(self.kinds_of_loads(loaded));
        if self.has_sizes {
            most = most.saturating_add(asked.paths);
        }
        if asked.are_looked_up {
            most = most.saturating_add(asked.paths);
        }
        most
    }
}

/// Whether a path is in a directory, by this name there.
fn is_at_end(name: &str, path: &str) -> bool {
    match path.strip_suffix(name) {
        Some(front) => front.is_empty() || front.ends_with('/'),
        None => false,
    }
}

/// How often a path may be read since a `.git` that is a file leads to it: each leads to one
/// `commondir` and to one exclude file.
fn led_to(calls: &Calls, path: &str) -> u64 {
    if !matches!(last_name(path), "commondir" | "exclude") {
        return 0;
    }
    let mut led = 0u64;
    for call in &calls.made {
        if call.asked == Asked::Contents && last_name(call.path.as_str()) == ".git" {
            led = led.saturating_add(1);
        }
    }
    led
}
