//! How what is wrong with a line is said: as a text, and as an object of JSON.
ghost use Rattle.std.specs.Prelude.{◌≡◌, ◌++◌, IfOk, OnOk, codes, map, string_bytes};
ghost use Rattle.std.specs.Fmt.{decimal};
ghost use Rattle.serde_json.specs.View.{view};
ghost use Rattle.ig_every.specs.Texts.{finding_data, finding_json, folder_text, kind_word, line_end, lines_named, lines_text, number_data, wrong_text};

use crate::diagnostic::{Diagnostic, Wrong};
use serde_json::{Value, json};
use std::alloc::{AllocError, Global};

/// What is wrong, as a text.
///
/// # Errors
/// Out of memory.
pub fn text_of(alloc: Global, wrong: &Wrong) -> Result<String, AllocError>
    ensures { IfOk result (λ text. string_bytes text ≡ wrong_text wrong.now) }
{
    match wrong {
        Wrong::NotUtf8 => plain(
            alloc,
            "isn't UTF-8: neither this line nor any after it is read",
        ),
        Wrong::Mark => plain(
            alloc,
            "has a byte order mark that isn't the first of the file",
        ),
        Wrong::Return => plain(
            alloc,
            "has a carriage return that isn't the last of the line",
        ),
        Wrong::Space => plain(alloc, "the white space at its end counts"),
        Wrong::GitSpace => plain(alloc, "git reads the white space at its end otherwise"),
        Wrong::Invalid(why) => invalid_text(alloc, why.as_str()),
        Wrong::Again(line) => again_text(alloc, *line),
        Wrong::Nothing => plain(alloc, "matches no path"),
        Wrong::Overruled(lines) => overruled_text(alloc, lines),
        Wrong::InFolders(folder, line) => folder_text(alloc, folder.as_str(), *line),
        Wrong::Unreached => plain(alloc, "decides on no path outside of ignored folders"),
        Wrong::NoEffect => plain(alloc, "note: re-includes nothing"),
    }
}

/// A text.
fn plain(alloc: Global, text: &str) -> Result<String, AllocError>
    ensures { IfOk result (λ copy. string_bytes copy ≡ text.now) }
{
    String::from_str(alloc, text)
}

/// That a glob is invalid.
fn invalid_text(alloc: Global, why: &str) -> Result<String, AllocError>
    ensures { IfOk result (λ text. string_bytes text ≡ codes "invalid: " ++ why.now) }
{
    format!(in alloc; "invalid: {why}")
}

/// That a rule stands again.
fn again_text(alloc: Global, line: u64) -> Result<String, AllocError>
    ensures { IfOk result (λ text. string_bytes text ≡ codes "stands again at line " ++ decimal line) }
{
    format!(in alloc; "stands again at line {line}")
}

/// That a rule decides in ignored folders alone.
fn folder_text(alloc: Global, folder: &str, line: u64) -> Result<String, AllocError>
    ensures { IfOk result (λ text. string_bytes text ≡ folder_text folder.now line) }
{
    format!(in alloc;
        "decides only in ignored folders, as {folder}/ by line {line}, unless another file re-includes {folder}/"
    )
}

/// That later lines decide.
fn overruled_text(alloc: Global, lines: &[u64]) -> Result<String, AllocError>
    ensures { IfOk result (λ text. string_bytes text ≡ codes "decides on no path: overruled by line" ++ lines_text lines.now) }
{
    let mut text = String::from_str(alloc, "decides on no path: overruled by line")?;
    push_lines(lines, &mut text)?;
    Ok(text)
}

/// Adds the numbers of lines after the word `line`.
fn push_lines(lines: &[u64], text: &mut String) -> Result<(), AllocError>
    ensures { OnOk result (string_bytes text.new ≡ string_bytes text.old ++ lines_text lines.now) }
{
    let Some((first, more)) = lines.split_first() else {
        return Ok(());
    };
    text.push_str(line_end(more))?;
    push_number(*first, text)?;
    for line in more {
        text.push_str(", ")?;
        push_number(*line, text)?;
    }
    Ok(())
}

/// What follows the word `line` where there are so many more.
fn line_end(more: &[u64]) -> &'static str
    ensures { result.now ≡ line_end more.now }
{
    if more.is_empty() { " " } else { "s " }
}

/// Adds a number.
fn push_number(number: u64, text: &mut String) -> Result<(), AllocError>
    ensures { OnOk result (string_bytes text.new ≡ string_bytes text.old ++ decimal number) }
{
    let digits = format!(in *text.allocator(); "{number}")?;
    text.push_str(digits.as_str())
}

/// What is wrong, as a word.
fn kind_of(wrong: &Wrong) -> &'static str
    ensures { result.now ≡ kind_word wrong.now }
{
    match wrong {
        Wrong::NotUtf8 => "not-utf8",
        Wrong::Mark => "byte-order-mark",
        Wrong::Return => "carriage-return",
        Wrong::Space => "space",
        Wrong::GitSpace => "git-space",
        Wrong::Invalid(_) => "invalid",
        Wrong::Again(_) => "again",
        Wrong::Nothing => "nothing",
        Wrong::Overruled(_) => "overruled",
        Wrong::InFolders(..) => "ignored-folders",
        Wrong::Unreached => "unreached",
        Wrong::NoEffect => "note",
    }
}

/// The lines that are named by what is wrong.
fn lines_in(alloc: Global, wrong: &Wrong) -> Result<Vec<Value>, AllocError>
    ensures { IfOk result (λ lines. map view lines.items ≡ map number_data (lines_named wrong.now)) }
{
    match wrong {
        Wrong::Again(line) => numbers(alloc, &[*line]),
        Wrong::InFolders(_, line) => numbers(alloc, &[*line]),
        Wrong::Overruled(lines) => numbers(alloc, lines),
        _ => Ok(Vec::new(alloc)),
    }
}

/// Numbers as values.
fn numbers(alloc: Global, lines: &[u64]) -> Result<Vec<Value>, AllocError>
    ensures { IfOk result (λ values. map view values.items ≡ map number_data lines.now) }
{
    let mut values = Vec::new(alloc);
    for line in lines {
        values.push(Value::from(*line))?;
    }
    Ok(values)
}

/// What is wrong with a line of a file, as an object of JSON.
///
/// # Errors
/// Out of memory.
pub fn json_of(alloc: Global, file: &str, found: &Diagnostic) -> Result<String, AllocError>
    ensures { IfOk result (λ text. string_bytes text ≡ finding_json file.now found.now) }
{
    let value = value_of(alloc, file, found)?;
    value.to_string(alloc)
}

/// The same as a value.
fn value_of(alloc: Global, file: &str, found: &Diagnostic) -> Result<Value, AllocError>
    ensures { IfOk result (λ value. view value ≡ finding_data file.now found.now) }
{
    let lines = Value::Array(lines_in(alloc, &found.wrong)?);
    let text = text_of(alloc, &found.wrong)?;
    json!(in alloc; {
        "file": file,
        "kind": kind_of(&found.wrong),
        "line": found.line,
        "lines": lines,
        "rule": found.rule.as_str(),
        "text": text.as_str()
    })
}
