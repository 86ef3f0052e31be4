//! Names that aren't UTF-8: those of a folder are counted, and reported in one line.
ghost use Rattle.std.specs.Prelude.{◌≡◌, ◌++◌, ◌∷◌, [], Some, OnOk, IfErr, codes};
ghost use Rattle.std.specs.Fmt.{decimal};
ghost use Rattle.std.specs.Io.KnownBytes.{Appends};
ghost use Rattle.ig_commands.specs.Names.{first_name, names_line, names_told, still, told_at, told_before, with_name};

use crate::stop::Stop;
use ignore_files::Name;
use std::io::Write;

/// How many names at a place aren't UTF-8: its text, and the depth of the names.
#[derive(Drop)]
pub(crate) struct Unnamed {
    place: Name,
    depth: usize,
    count: u64,
}

/// Counts a name at a place. What was counted at another place is reported.
pub(crate) fn count_name<E: Write>(
    place: Name,
    depth: usize,
    names: &mut Option<Unnamed>,
    err: &mut E,
) -> Result<(), Stop>
    ensures counted { OnOk result (names.new ≡ Some (with_name place depth names.old)) }
    ensures told { OnOk result (Appends (E.contents err.old) (E.contents err.new) (told_before place names.old)) }
    ensures ended { IfErr result (λ stop. stop ≡ Stop.Silence) }
{
    match names.take() {
        None => {
            *names = Some(first_name(place, depth));
            Ok(())
        }
        Some(one) => count_beside(one, place, depth, names, err),
    }
}

/// The first name at a place.
fn first_name(place: Name, depth: usize) -> Unnamed
    ensures { result ≡ first_name place depth }
{
    Unnamed {
        place,
        depth,
        count: 1,
    }
}

/// Counts a name after others, which are reported where they are at another place.
fn count_beside<E: Write>(
    one: Unnamed,
    place: Name,
    depth: usize,
    names: &mut Option<Unnamed>,
    err: &mut E,
) -> Result<(), Stop>
    ensures counted { OnOk result (names.new ≡ Some (with_name place depth (Some one))) }
    ensures told { OnOk result (Appends (E.contents err.old) (E.contents err.new) (told_before place (Some one))) }
    ensures ended { IfErr result (λ stop. stop ≡ Stop.Silence) }
{
    if one.place.as_str() == place.as_str() {
        *names = Some(Unnamed {
            place: one.place,
            depth: one.depth,
            count: one.count.saturating_add(1),
        });
        return Ok(());
    }
    report_names(&one, err)?;
    *names = Some(first_name(place, depth));
    Ok(())
}

/// Reports what was counted deeper than an entry of this depth, since that folder is left.
pub(crate) fn leave_names<E: Write>(
    depth: usize,
    names: &mut Option<Unnamed>,
    err: &mut E,
) -> Result<(), Stop>
    ensures told { OnOk result (Appends (E.contents err.old) (E.contents err.new) (told_at depth names.old)) }
    ensures still { OnOk result (names.new ≡ still depth names.old) }
    ensures ended { IfErr result (λ stop. stop ≡ Stop.Silence) }
{
    match names.take() {
        None => Ok(()),
        Some(one) => {
            if depth < one.depth {
                return report_names(&one, err);
            }
            *names = Some(one);
            Ok(())
        }
    }
}

/// Reports what was counted, if anything was.
pub(crate) fn end_names<E: Write>(names: &Option<Unnamed>, err: &mut E) -> Result<(), Stop>
    ensures told { OnOk result (Appends (E.contents err.old) (E.contents err.new) (names_told names.now)) }
    ensures ended { IfErr result (λ stop. stop ≡ Stop.Silence) }
{
    match names {
        None => Ok(()),
        Some(one) => report_names(one, err),
    }
}

/// Reports how many names at a place aren't UTF-8.
fn report_names<E: Write>(one: &Unnamed, err: &mut E) -> Result<(), Stop>
    ensures told { OnOk result (Appends (E.contents err.old) (E.contents err.new) (names_line one.now)) }
    ensures ended { IfErr result (λ stop. stop ≡ Stop.Silence) }
{
    let place = one.place.as_str();
    if one.count == 1 {
        return report_one(place, err);
    }
    report_many(place, one.count, err)
}

/// Reports that one name at a place isn't UTF-8.
fn report_one<E: Write>(place: &str, err: &mut E) -> Result<(), Stop>
    ensures told { OnOk result (Appends (E.contents err.old) (E.contents err.new) (codes "ig: " ++ (place.now ++ (codes ": " ++ (codes "1 name isn't UTF-8" ++ 10 ∷ []))))) }
    ensures ended { IfErr result (λ stop. stop ≡ Stop.Silence) }
{
    match writeln!(err, "ig: {place}: 1 name isn't UTF-8") {
        Ok(()) => Ok(()),
        Err(_) => Err(Stop::Silence),
    }
}

/// Reports that so many names at a place aren't UTF-8.
fn report_many<E: Write>(place: &str, count: u64, err: &mut E) -> Result<(), Stop>
    ensures told { OnOk result (Appends (E.contents err.old) (E.contents err.new) (codes "ig: " ++ (place.now ++ (codes ": " ++ (decimal count ++ (codes " names aren't UTF-8" ++ 10 ∷ [])))))) }
    ensures ended { IfErr result (λ stop. stop ≡ Stop.Silence) }
{
    match writeln!(err, "ig: {place}: {count} names aren't UTF-8") {
        Ok(()) => Ok(()),
        Err(_) => Err(Stop::Silence),
    }
}
