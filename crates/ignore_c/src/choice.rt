//! The exports of builders that tell globs, file types and files of rules.
ghost use Rattle.std.specs.Prelude.{◌≡◌, List, ℕ, length, map, string_bytes};
ghost use Rattle.ignore.specs.TypeWords.{all_default_rows};
ghost use Rattle.ignore_kept.specs.Kinds.{setup_in};
ghost use Rattle.ignore_kept.specs.Rooms.{put_in};
ghost use Rattle.ignore_kept.specs.Wishes.{Adds, DefaultsAdded, TellsOf, Wished};
ghost use Rattle.ignore_kept.specs.declared.wish.Wish.TheVariants as wish;

use crate::handle::{Handle, close, give_back, lend, open};
use core::mem;
use ignore::default_types::DEFAULT_TYPES;
use ignore_kept::done;
use ignore_kept::lines::Problem;
use ignore_kept::room::put;
use ignore_kept::wish::{self, Wish};

fn told(builder: Handle, wish: Wish<'_>) -> (Handle, u32)
    ensures { Wished wish.entry builder.value result.1 result.0.value }
{
    let mut kept = open(builder);
    let alloc = *Box::allocator(&kept);
    let code = done(wish::tell(alloc, &mut kept, wish));
    (close(kept), code)
}

/// Begins the globs of a command line anew, relative to a directory.
#[unsafe(no_mangle)]
pub extern "C" fn ignore_builder_overrides(
    builder: &mut Handle,
    root: &[u8],
    both_cases: bool,
) -> u32
    ensures { Wished (wish.Overrides root.entry both_cases) builder.old.value result builder.new.value }
{
    mem::replace_with(builder, Wish::Overrides(root, both_cases), told)
}

/// Adds a glob of the command line.
#[unsafe(no_mangle)]
pub extern "C" fn ignore_builder_add_override(builder: &mut Handle, glob: &[u8]) -> u32
    ensures { Wished (wish.Glob glob.entry) builder.old.value result builder.new.value }
{
    mem::replace_with(builder, Wish::Glob(glob), told)
}

/// Has the globs of the command line count.
#[unsafe(no_mangle)]
pub extern "C" fn ignore_builder_set_overrides(builder: &mut Handle) -> u32
    ensures { Wished wish.SetOverrides builder.old.value result builder.new.value }
{
    mem::replace_with(builder, Wish::SetOverrides, told)
}

/// Adds a glob to a file type.
#[unsafe(no_mangle)]
pub extern "C" fn ignore_builder_type_add(builder: &mut Handle, name: &[u8], glob: &[u8]) -> u32
    ensures { Wished (wish.TypeGlob name.entry glob.entry) builder.old.value result builder.new.value }
{
    mem::replace_with(builder, Wish::TypeGlob(name, glob), told)
}

/// Adds a definition of a file type.
#[unsafe(no_mangle)]
pub extern "C" fn ignore_builder_type_add_def(builder: &mut Handle, text: &[u8]) -> u32
    ensures { Wished (wish.TypeDef text.entry) builder.old.value result builder.new.value }
{
    mem::replace_with(builder, Wish::TypeDef(text), told)
}

/// Chooses a file type.
#[unsafe(no_mangle)]
pub extern "C" fn ignore_builder_type_select(builder: &mut Handle, name: &[u8]) -> u32
    ensures { Wished (wish.Select name.entry) builder.old.value result builder.new.value }
{
    mem::replace_with(builder, Wish::Select(name), told)
}

/// Chooses a file type to be ignored.
#[unsafe(no_mangle)]
pub extern "C" fn ignore_builder_type_negate(builder: &mut Handle, name: &[u8]) -> u32
    ensures { Wished (wish.Negate name.entry) builder.old.value result builder.new.value }
{
    mem::replace_with(builder, Wish::Negate(name), told)
}

/// Removes a file type.
#[unsafe(no_mangle)]
pub extern "C" fn ignore_builder_type_clear(builder: &mut Handle, name: &[u8]) -> u32
    ensures { Wished (wish.Clear name.entry) builder.old.value result builder.new.value }
{
    mem::replace_with(builder, Wish::Clear(name), told)
}

/// Adds the file types that are there by default.
#[unsafe(no_mangle)]
pub extern "C" fn ignore_builder_type_add_defaults(builder: &mut Handle) -> u32
    ensures { DefaultsAdded (map (λ r. (map (λ n. n.now) r.0.now, map (λ g. g.now) r.1.now)) DEFAULT_TYPES) builder.old.value result builder.new.value }
{
    mem::replace_with(builder, (), |builder, ()| defaults_added(builder))
}

fn defaults_added(builder: Handle) -> (Handle, u32)
    ensures { DefaultsAdded (map (λ r. (map (λ n. n.now) r.0.now, map (λ g. g.now) r.1.now)) DEFAULT_TYPES) builder.value result.1 result.0.value }
{
    let mut kept = open(builder);
    let code = done(wish::add_defaults(&mut kept));
    (close(kept), code)
}

/// Adds all file types of the original's table.
#[unsafe(no_mangle)]
pub extern "C" fn ignore_builder_type_add_all_defaults(builder: &mut Handle) -> u32
    ensures { DefaultsAdded all_default_rows builder.old.value result builder.new.value }
{
    mem::replace_with(builder, (), |builder, ()| all_defaults_added(builder))
}

fn all_defaults_added(builder: Handle) -> (Handle, u32)
    ensures { DefaultsAdded all_default_rows builder.value result.1 result.0.value }
{
    let mut kept = open(builder);
    let code = done(wish::add_all_defaults(&mut kept));
    (close(kept), code)
}

/// Has the chosen file types count.
#[unsafe(no_mangle)]
pub extern "C" fn ignore_builder_set_types(builder: &mut Handle) -> u32
    ensures { Wished wish.SetTypes builder.old.value result builder.new.value }
{
    mem::replace_with(builder, Wish::SetTypes, told)
}

/// Reads a file of rules of a tree now, and adds it after the others that were added so.
#[unsafe(no_mangle)]
pub extern "C" fn ignore_builder_add_ignore(
    builder: &mut Handle,
    tree: &mut Handle,
    path: &[u8],
) -> u32
    ensures tree { tree.new.value ≡ tree.old.value }
    ensures added { Adds builder.old.value tree.old.value path.now result builder.new.value }
{
    let files = mem::replace_with(tree, (), |tree, ()| lend(tree));
    let code = mem::replace_with(builder, (&files, path), |builder, (files, path)| {
        let mut kept = open(builder);
        let code = done(wish::add_ignore(&mut kept, files, path));
        (close(kept), code)
    });
    mem::replace_with(tree, files, give_back);
    code
}

/// Tells what is wrong with what the builder was told last: its length, and its first bytes.
#[unsafe(no_mangle)]
pub extern "C" fn ignore_builder_problem(
    builder: &mut Handle,
    room: &mut [u8],
    whole: &mut usize,
) -> u32
    ensures kept { builder.new.value ≡ builder.old.value }
    ensures told { (text : List ℕ) × TellsOf (setup_in builder.old.value) result text × (whole.new ≡ length text) × (room.new ≡ put_in text room.old) }
{
    let told = mem::replace_with(builder, (), |builder, ()| problem_told(builder));
    *whole = told.text.len();
    put(told.text.as_bytes(), room);
    told.code
}

fn problem_told(builder: Handle) -> (Handle, Problem)
    ensures kept { result.0.value ≡ builder.value }
    ensures told { TellsOf (setup_in builder.value) result.1.code (string_bytes result.1.text) }
{
    let kept = open(builder);
    let told = wish::problem(*Box::allocator(&kept), &kept);
    (close(kept), told)
}
