//! The machine's files.
ghost use Rattle.std.specs.Prelude.{◌≡◌, [], ◌∷◌, ◌++◌, Ok, Err, IfOk, MatchResult, MatchOption, ⊤};
ghost use Rattle.std.specs.Path.{path_buf_bytes};
ghost use Rattle.std.specs.Iterator.{IsFinite};
ghost use Rattle.ignore_files.specs.Reported.{IsEntryOf};
ghost use Rattle.ignore_files.specs.Machine.{metadata_gives, IsStatOf, IsReported, IsGone, IsListingOf, IsReadOf, IsTruthful, Disk, MayStat};
ghost use Rattle.ignore_files.specs.Machine.{MayList, MayRead, MayCanonicalize};
ghost use Rattle.ignore_files.specs.declared.types.Refusal.TheVariants.{Memory};

use crate::ask::{ask, ask_at, fault_of, is_interrupted, is_not_found, kind_of, refusal_of};
use crate::files::Files;
use crate::machine::Machine;
use crate::stat::Stat;
use crate::types::{Bytes, Contents, FileType, Identity, Listed, Listing, Metadata, Name, Refusal};
use ignore_base::Fault;
use std::alloc::{AllocError, Global};
use std::io;

/// How much room a read begins with, in bytes: most files of rules fit in, and all of it is filled
/// with zeros first. Where little is spare, reading an opened directory can fail otherwise than the
/// system reports.
const FIRST_READ: usize = 4 * 1024;

/// The machine's files, as std reports them through a runtime `R`; or those of any other
/// `Machine`, as a fake one in a test.
///
/// Each call asks the machine and returns its answer in this crate's types. Contracts state each
/// answer from the machine's (`GivesStat`, `MayList` ..); where the machine answers truly from
/// one disk, these files are consistent with the tree on it (`is_honest`). The machine is asked
/// again where a signal interrupted it (`EINTR`), and never about a path with a NUL, which is not
/// found. Of its errors five keep their name (not found, permission denied, not a directory, is a
/// directory, invalid data); a name that isn't UTF-8 is `Fault::BadName` (one that the system
/// finds too long isn't), a loop of links `Fault::LinkLimit`, out of memory `Refusal::Memory`, and
/// all else `Fault::Other`.
///
/// - `stat` and `identity`: one system call.
/// - `list`: each thing that the directory gives, in its order. An entry that is gone when its
///   kind is asked is left out; one whose kind can't be had otherwise (asking is denied, or its
///   path is too long) is a fault without its name. At a runtime of std a system call for each
///   entry whose kind the system didn't leave with its name. Before that, a directory with more
///   than 8 of these is read again, for them alone and up to three times, or, if it took several
///   reads, once and whole where they are more than 48; each reading leaves other kinds.
/// - `contents`: what leads to neither a file nor a directory, as a pipe or a device, is
///   `Fault::Other` and isn't opened (unless it is put in a file's place between the two system
///   calls). What was read of a file stands before the fault that ended the reading.
#[derive(Drop)]
pub struct DiskFiles<'r, R> {
    rt: &'r R,
}

impl<'r, R> DiskFiles<'r, R> {
    ghost use Rattle.std.specs.Prelude.{◌≡◌};
    ghost use Rattle.ignore_files.specs.Disk.{machine_of};

    /// The files that this runtime reaches.
    pub fn new(rt: &'r R) -> DiskFiles<'r, R>
        ensures { machine_of result ≡ rt.now }
    {
        DiskFiles { rt }
    }
}

/// What the machine reports of a path.
fn stat<R: Machine>(machine: &R, path: &str, follow: bool) -> Result<Stat, Refusal>
    ensures { MayStat R.Machine machine.now path.now follow result }
{
    let metadata = ask_at(path, || metadata(machine, path, follow))?;
    Ok(stat_of::<R>(&metadata))
}

/// What the machine reports of a path, asked once.
fn metadata<R: Machine>(machine: &R, path: &str, follow: bool) -> io::Result<R::Metadata>
    ensures { metadata_gives R.Machine machine.now follow path.now result }
{
    if follow {
        machine.metadata(path)
    } else {
        machine.symlink_metadata(path)
    }
}

/// What is read off an answer about a path.
fn stat_of<R: Machine>(metadata: &R::Metadata) -> Stat
    ensures { IsStatOf R.Machine metadata.now result }
{
    Stat {
        metadata: Metadata {
            file_type: kind_of(R::file_type(metadata)),
            len: R::len(metadata),
        },
        identity: Identity {
            device: R::dev(metadata),
            inode: R::ino(metadata),
        },
    }
}

/// What the machine lists of a directory, or `None` where it was interrupted. An opened directory
/// is a large value, so it is moved as seldom as can be.
fn list_once<R: Machine>(alloc: Global, machine: &R, path: &str) -> Result<Option<Listing>, Refusal>
    ensures { MatchResult result
        (λ found. MatchOption found
        (MayList R.Machine R.Dir.next_gives machine.now path.now (Err Memory))
        (λ listing. MayList R.Machine R.Dir.next_gives machine.now path.now (Ok listing)))
        (λ e. MayList R.Machine R.Dir.next_gives machine.now path.now (Err e)) }
{
    if path.as_bytes().contains(&0) {
        return Err(Refusal::Fault(Fault::NotFound));
    }
    let opened = machine.read_dir(path);
    if is_interrupted(&opened) {
        return Ok(None);
    }
    match opened {
        Ok(dir) => listing_of::<R>(alloc, dir),
        Err(error) => Err(refusal_of(error)),
    }
}

/// All that a directory gives, or `None` where the machine was interrupted on the way.
fn listing_of<R: Machine>(alloc: Global, dir: R::Dir) -> Result<Option<Listing>, Refusal>
where
    requires callable { R.Dir.can_next dir }
    requires ends { IsFinite (R.Dir.remaining dir) }
    ensures { MatchResult result
        (λ found. MatchOption found ⊤ (λ listing. IsListingOf R.Machine R.Dir.next_gives dir listing)) (λ e. e ≡ Memory) }
{
    let mut listed = Vec::new(alloc);
    for entry in dir {
        if is_interrupted(&entry) {
            return Ok(None);
        }
        let item = listed_of::<R>(alloc, entry)?;
        push_some(&mut listed, item)?;
    }
    Ok(Some(Listing::new(listed)))
}

/// Pushes a thing, if there is one.
fn push_some(listed: &mut Vec<Listed>, item: Option<Listed>) -> Result<(), AllocError>
    ensures { IfOk result (λ _. MatchOption item (listed.new.items ≡ listed.old.items)
        (λ x. listed.new.items ≡ listed.old.items ++ x ∷ [])) }
{
    if let Some(item) = item {
        listed.push(item)?;
    }
    Ok(())
}

/// As what one of the things that a directory gives is reported, or `None` where it is gone.
fn listed_of<R: Machine>(
    alloc: Global,
    entry: io::Result<R::Entry>,
) -> Result<Option<Listed>, AllocError>
    ensures { IfOk result (λ item. MatchOption item (IsGone R.Machine entry) (λ listed. IsReported R.Machine entry listed)) }
{
    match entry {
        Ok(entry) => entry_of::<R>(alloc, entry),
        Err(error) => Ok(Some(Listed::Fault(fault_of(error)?))),
    }
}

/// As what an entry is reported, or `None` where it is gone.
fn entry_of<R: Machine>(alloc: Global, entry: R::Entry) -> Result<Option<Listed>, AllocError>
    ensures { IfOk result (λ item. MatchOption item (IsGone R.Machine (Ok entry))
        (λ listed. IsReported R.Machine (Ok entry) listed)) }
{
    match ask(|| R::entry_type(&entry)) {
        Ok(kind) => Ok(Some(Listed::Entry {
            name: Name::new(R::into_name(alloc, entry)?),
            file_type: kind_of(kind),
        })),
        Err(error) if is_not_found(&error) => Ok(None),
        Err(error) => Ok(Some(Listed::Fault(fault_of(error)?))),
    }
}

/// What the machine has of a file's bytes.
fn contents<R: Machine>(alloc: Global, machine: &R, path: &str) -> Result<Contents, Refusal>
    ensures { MayRead R.Machine machine.now path.now result }
{
    let file = ask_at(path, || machine.open(path))?;
    read::<R>(alloc, file)
}

/// All that an opened file gives, or what it gave before a fault.
fn read<R: Machine>(alloc: Global, mut file: R::File) -> Result<Contents, Refusal>
    ensures { IsReadOf R.Machine file result }
{
    let mut bytes = Vec::with_capacity(alloc, FIRST_READ)?;
    let fault = match R::read_to_end(&mut file, &mut bytes) {
        Ok(_) => None,
        Err(error) => Some(fault_of(error)?),
    };
    let bytes = Bytes::new(bytes);
    Ok(Contents { bytes, fault })
}

/// The one path without links, as the machine has it.
fn canonical<R: Machine>(machine: &R, path: &str) -> Result<Name, Refusal>
    ensures { MayCanonicalize R.Machine machine.now path.now result }
{
    let found = ask_at(path, || machine.canonicalize(path))?;
    Ok(Name::new(found.into_string()))
}

impl<'r, R: Machine> Files for DiskFiles<'r, R> {
    ghost use Rattle.std.specs.Prelude.{true};
    ghost use Rattle.ignore_files.specs.Machine.{MayList, MayCanonicalize};
    ghost use Rattle.ignore_files.specs.Disk.{machine_of, GivesStat, GivesIdentity, GivesContents};

    ghost stat_gives = { λ files path follow answer. GivesStat R.Machine (machine_of files) path follow answer };

    ghost list_gives = { λ files path answer. MayList R.Machine R.Dir.next_gives (machine_of files) path answer };

    ghost contents_gives = { λ files path answer. GivesContents R.Machine (machine_of files) path answer };

    ghost canonical_gives = { λ files path answer. MayCanonicalize R.Machine (machine_of files) path answer };

    ghost identity_gives = { λ files path follow answer. GivesIdentity R.Machine (machine_of files) path follow answer };

    fn stat(&self, _alloc: Global, path: &str, follow: bool) -> Result<Metadata, Refusal> {
        Ok(stat(self.rt, path, follow)?.metadata)
    }

    fn list(&self, alloc: Global, path: &str) -> Result<Listing, Refusal> {
        for _ in 0..u64::MAX {
            if let Some(listing) = list_once(alloc, self.rt, path)? {
                return Ok(listing);
            }
        }
        list_once(alloc, self.rt, path)?.ok_or(Refusal::Memory)
    }

    fn contents(&self, alloc: Global, path: &str) -> Result<Contents, Refusal> {
        match stat(self.rt, path, true)?.metadata.file_type {
            FileType::File => contents(alloc, self.rt, path),
            FileType::Dir => contents(alloc, self.rt, path),
            FileType::Symlink => Err(Refusal::Fault(Fault::Other)),
            FileType::Other => Err(Refusal::Fault(Fault::Other)),
        }
    }

    fn canonical(&self, _alloc: Global, path: &str) -> Result<Name, Refusal> {
        canonical(self.rt, path)
    }

    fn identity(
        &self,
        _alloc: Global,
        path: &str,
        follow: bool,
    ) -> Result<Option<Identity>, Refusal> {
        Ok(Some(stat(self.rt, path, follow)?.identity))
    }

    fn listings_are_whole(&self) -> bool {
        self.rt.listings_are_whole()
    }

    /// They do: a file is opened after its `stat`.
    fn reads_what_is_there(&self) -> bool {
        true
    }
}

impl<'r, R: Machine> DiskFiles<'r, R> {
    ghost use Rattle.ignore_files.specs.Machine.{Disk, IsTruthful};
    ghost use Rattle.ignore_files.specs.Gives.{IsHonest};
    ghost use Rattle.ignore_files.specs.Disk.{machine_of, tree_on};

    /// Where the machine answers truly from one disk, these files are consistent with the tree on
    /// it.
    pub fn is_honest(&self)
        ensures { (disk : Disk) → IsTruthful R.Machine R.Dir.next_gives (machine_of self.now) disk
            → IsHonest ⟦<DiskFiles<'r, R> as Files>⟧ self.now (tree_on disk) }
    {}
}
