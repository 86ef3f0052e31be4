//! The command `types`: the file types and their globs.
ghost use Rattle.std.specs.Prelude.{◌≡◌, ◌⊎◌, [], OnOk, IfOk, IfErr, map, string_bytes};
ghost use Rattle.std.specs.Io.KnownBytes.{Appends};
ghost use Rattle.std.specs.List.{flat_map};
ghost use Rattle.ig_commands.specs.Stops.{EndsAfter, IsUnwritten, SaidBy};
ghost use Rattle.ig_commands.specs.Types.{ListsTypes, after_comma, glob_list, type_line};

use crate::stop::Stop;
use crate::writing::{refuse_or_end, write_bytes};
use commands::Output;
use ig_options::{Options, defined_types};
use ignore_types::types::{FileTypeDef, TypesBuilder};
use std::io::Write;

/// Writes each file type on a line: its name, a colon, and its globs, between commas; types and
/// globs in text order. They are those that a builder has at first, and those of `--type-add`. It
/// returns the status: 0, or 2 where a definition is rejected.
///
/// # Errors
/// Why it ended early, of which nothing was reported.
pub fn list_types<W: Output, E: Write>(
    first: TypesBuilder,
    options: &Options,
    out: &mut W,
    err: &mut E,
) -> Result<u8, Stop>
    ensures lists { IfOk result (λ status. ListsTypes options.now.type_add first status (Appends (W.contents out.old) (W.contents out.new)) (Appends (E.contents err.old) (E.contents err.new))) }
    ensures ended { IfErr result (EndsAfter [] [] (Appends (W.contents out.old) (W.contents out.new)) (Appends (E.contents err.old) (E.contents err.new))) }
    ensures said { IfErr result (SaidBy (W.fails out.new)) }
{
    match defined_types(first, options) {
        Ok(definitions) => {
            write_types(&definitions, out)?;
            Ok(0)
        }
        Err(error) => refuse_or_end(&error, err),
    }
}

/// Writes each type on a line.
fn write_types<W: Output>(definitions: &[FileTypeDef], out: &mut W) -> Result<(), Stop>
    ensures writes { OnOk result (Appends (W.contents out.old) (W.contents out.new) (flat_map type_line definitions.now)) }
    ensures ended { IfErr result IsUnwritten }
    ensures said { IfErr result (SaidBy (W.fails out.new)) }
{
    for definition in definitions {
        write_type(definition, out)?;
    }
    Ok(())
}

/// Writes a type on a line.
fn write_type<W: Output>(definition: &FileTypeDef, out: &mut W) -> Result<(), Stop>
    ensures writes { OnOk result (Appends (W.contents out.old) (W.contents out.new) (type_line definition.now)) }
    ensures ended { IfErr result IsUnwritten }
    ensures said { IfErr result (SaidBy (W.fails out.new)) }
{
    write_bytes(definition.name().as_bytes(), out)?;
    write_bytes(b": ", out)?;
    write_globs(definition.globs(), out)?;
    write_bytes(b"\n", out)
}

/// Writes globs, between commas.
fn write_globs<W: Output>(globs: &[String], out: &mut W) -> Result<(), Stop>
    ensures writes { OnOk result (Appends (W.contents out.old) (W.contents out.new) (glob_list (map string_bytes globs.now))) }
    ensures ended { IfErr result IsUnwritten }
    ensures said { IfErr result (SaidBy (W.fails out.new)) }
{
    let Some((first, rest)) = globs.split_first() else {
        return Ok(());
    };
    write_bytes(first.as_str().as_bytes(), out)?;
    for glob in rest {
        write_after_comma(glob.as_str(), out)?;
    }
    Ok(())
}

/// Writes a glob after a comma.
fn write_after_comma<W: Output>(glob: &str, out: &mut W) -> Result<(), Stop>
    ensures writes { OnOk result (Appends (W.contents out.old) (W.contents out.new) (after_comma glob.now)) }
    ensures ended { IfErr result IsUnwritten }
    ensures said { IfErr result (SaidBy (W.fails out.new)) }
{
    write_bytes(b", ", out)?;
    write_bytes(glob.as_bytes(), out)
}
