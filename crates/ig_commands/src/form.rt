//! How reasons and rules are written: as `git check-ignore -v -n` writes them.
ghost use Rattle.std.specs.Prelude.{◌≡◌, ◌⊎◌, OnOk, IfErr, option_map, unwrap_or, string_bytes, []};
ghost use Rattle.std.specs.Io.KnownBytes.{Appends};
ghost use Rattle.std.specs.Option.{option_copied};
ghost use Rattle.ignore_base.specs.Match.{match_map};
ghost use Rattle.ignore_why.specs.Cited.{cited_of, named_of};
ghost use Rattle.ignore_why.specs.QueryWhy.{query_why_of};
ghost use Rattle.ig_options.specs.Quotes.{quoted_byte};
ghost use Rattle.ig_commands.specs.Form.{after_path, before_path, between, field, is_decided, no_rule, number_text, reasoned, relative, rule_fields, rule_in, rule_of, word_fields};
ghost use Rattle.ig_commands.specs.Stops.{IsUnwritten, SaidBy};

use crate::stop::Stop;
use crate::writing::{write_bytes, write_stop};
use commands::Output;
use ig_options::quotes::{is_quoted, letter_of};
use ignore_base::Match;
use ignore_base::text::strip;
use ignore_why::{Cause, Explanation, NamedRule, Reason};

/// How fields are written.
#[derive(Clone, Copy)]
pub(crate) struct Form<'a> {
    /// The directory that sources are relative to; without one they are written as they are.
    pub(crate) base: Option<&'a str>,
    /// Whether each field ends in NUL, and nothing is quoted.
    pub(crate) null: bool,
}

/// Where a rule was read, its line there, and the rule.
#[derive(Clone, Copy)]
pub(crate) struct Origin<'a> {
    /// The path of the file; empty for none.
    pub(crate) source: &'a str,
    /// The number of the line, from 1.
    pub(crate) line: Option<u64>,
    /// The rule as it was written.
    pub(crate) pattern: &'a str,
}

/// The rule that decides, if one does.
pub(crate) fn rule_of(reason: &Reason) -> Option<&NamedRule>
    ensures { option_map (λ r. named_of r.now) result ≡ rule_of (query_why_of reason.now) }
{
    match reason {
        Reason::Decided(said) => rule_in(said),
        Reason::Inside { cause, .. } => rule_in(cause),
        _ => None,
    }
}

/// The rule that is a cause, if one is.
fn rule_in(said: &Match<Cause>) -> Option<&NamedRule>
    ensures { option_map (λ r. named_of r.now) result ≡ rule_in (match_map cited_of said.now) }
{
    match said {
        Match::Ignore(Cause::Rule(rule)) => Some(rule),
        Match::Whitelist(Cause::Rule(rule)) => Some(rule),
        _ => None,
    }
}

/// Whether anything decides.
fn is_decided(reason: &Reason) -> bool
    ensures { result ≡ is_decided (query_why_of reason.now) }
{
    match reason {
        Reason::Unasked => false,
        Reason::Unruled => false,
        Reason::Decided(Match::None) => false,
        Reason::Inside {
            cause: Match::None,
            ..
        } => false,
        _ => true,
    }
}

/// Where a named rule was read.
pub(crate) fn origin_of(rule: &NamedRule) -> Origin<'_>
    ensures source { result.source.now ≡ unwrap_or (named_of rule.now).from [] }
    ensures line { result.line ≡ (named_of rule.now).line }
    ensures pattern { result.pattern.now ≡ (named_of rule.now).original }
{
    Origin {
        source: match &rule.source {
            Some(source) => source.as_str(),
            None => "",
        },
        line: rule.line,
        pattern: rule.original.as_str(),
    }
}

/// Writes a path after its reason.
pub(crate) fn write_reasoned<W: Output>(
    form: Form<'_>,
    explanation: &Explanation,
    path: &str,
    out: &mut W,
) -> Result<(), Stop>
    ensures writes { OnOk result (Appends (W.contents out.old) (W.contents out.new) (reasoned (option_copied form.entry.base) form.entry.null (query_why_of explanation.now.reason) path.now)) }
    ensures ended { IfErr result IsUnwritten }
    ensures said { IfErr result (SaidBy (W.fails out.new)) }
{
    match rule_of(&explanation.reason) {
        Some(rule) => write_rule(form, &origin_of(rule), out)?,
        None => write_word(form, &explanation.reason, out)?,
    }
    write_bytes(if form.null { b"\0" } else { b"\t" }, out)?;
    write_text(form, path, out)?;
    write_bytes(if form.null { b"\0" } else { b"\n" }, out)
}

/// Writes the three fields of a rule: its source, the number of its line, and the rule.
pub(crate) fn write_rule<W: Output>(
    form: Form<'_>,
    origin: &Origin<'_>,
    out: &mut W,
) -> Result<(), Stop>
    ensures writes { OnOk result (Appends (W.contents out.old) (W.contents out.new) (rule_fields (option_copied form.entry.base) form.entry.null origin.now.source.now origin.now.line origin.now.pattern.now)) }
    ensures ended { IfErr result IsUnwritten }
    ensures said { IfErr result (SaidBy (W.fails out.new)) }
{
    write_text(form, relative(form.base, origin.source), out)?;
    write_between(form, out)?;
    write_number(origin.line, out)?;
    write_between(form, out)?;
    write_bytes(origin.pattern.as_bytes(), out)
}

/// Writes three fields, of which the last is the word for a reason that is no rule; it is empty
/// where nothing decides.
#[tactic(auto, using(crate::proofs::StopLemmas::said_as))]
fn write_word<W: Output>(form: Form<'_>, reason: &Reason, out: &mut W) -> Result<(), Stop>
    ensures writes { OnOk result (Appends (W.contents out.old) (W.contents out.new) (word_fields form.entry.null (query_why_of reason.now))) }
    ensures ended { IfErr result IsUnwritten }
    ensures said { IfErr result (SaidBy (W.fails out.new)) }
{
    write_between(form, out)?;
    write_between(form, out)?;
    if !is_decided(reason) {
        return Ok(());
    }
    match write!(out, "{reason}") {
        Ok(()) => Ok(()),
        Err(error) => Err(write_stop(error.kind())),
    }
}

/// Writes the first two of three fields that no rule has, which are empty.
pub(crate) fn write_no_rule<W: Output>(form: Form<'_>, out: &mut W) -> Result<(), Stop>
    ensures writes { OnOk result (Appends (W.contents out.old) (W.contents out.new) (no_rule form.entry.null)) }
    ensures ended { IfErr result IsUnwritten }
    ensures said { IfErr result (SaidBy (W.fails out.new)) }
{
    write_between(form, out)?;
    write_between(form, out)
}

/// Writes a path after what is said of it.
pub(crate) fn write_after<W: Output>(form: Form<'_>, path: &str, out: &mut W) -> Result<(), Stop>
    ensures writes { OnOk result (Appends (W.contents out.old) (W.contents out.new) (after_path form.entry.null path.now)) }
    ensures ended { IfErr result IsUnwritten }
    ensures said { IfErr result (SaidBy (W.fails out.new)) }
{
    write_before(form, out)?;
    write_text(form, path, out)?;
    write_bytes(if form.null { b"\0" } else { b"\n" }, out)
}

/// Writes what separates a path from what is said of it.
pub(crate) fn write_before<W: Output>(form: Form<'_>, out: &mut W) -> Result<(), Stop>
    ensures writes { OnOk result (Appends (W.contents out.old) (W.contents out.new) (before_path form.entry.null)) }
    ensures ended { IfErr result IsUnwritten }
    ensures said { IfErr result (SaidBy (W.fails out.new)) }
{
    write_bytes(if form.null { b"\0" } else { b"\t" }, out)
}

/// Writes what separates the three fields of a rule.
pub(crate) fn write_between<W: Output>(form: Form<'_>, out: &mut W) -> Result<(), Stop>
    ensures writes { OnOk result (Appends (W.contents out.old) (W.contents out.new) (between form.entry.null)) }
    ensures ended { IfErr result IsUnwritten }
    ensures said { IfErr result (SaidBy (W.fails out.new)) }
{
    write_bytes(if form.null { b"\0" } else { b":" }, out)
}

/// Writes the number of a line, if there is one.
#[tactic(auto, using(crate::proofs::StopLemmas::said_as))]
pub(crate) fn write_number<W: Output>(line: Option<u64>, out: &mut W) -> Result<(), Stop>
    ensures writes { OnOk result (Appends (W.contents out.old) (W.contents out.new) (number_text line)) }
    ensures ended { IfErr result IsUnwritten }
    ensures said { IfErr result (SaidBy (W.fails out.new)) }
{
    let Some(line) = line else {
        return Ok(());
    };
    match write!(out, "{line}") {
        Ok(()) => Ok(()),
        Err(error) => Err(write_stop(error.kind())),
    }
}

/// A source relative to a directory, where one is given.
fn relative<'a>(base: Option<&str>, source: &'a str) -> &'a str
    ensures { result.now ≡ relative (option_copied base.entry) source.now }
{
    match base {
        Some(base) => strip(base, source),
        None => source,
    }
}

/// Writes a path: as it is where fields end in NUL, else quoted as git quotes it, where it must be.
pub(crate) fn write_text<W: Output>(form: Form<'_>, text: &str, out: &mut W) -> Result<(), Stop>
    ensures writes { OnOk result (Appends (W.contents out.old) (W.contents out.new) (field form.entry.null text.now)) }
    ensures ended { IfErr result IsUnwritten }
    ensures said { IfErr result (SaidBy (W.fails out.new)) }
{
    let bytes = text.as_bytes();
    if form.null || !bytes.iter().any(|byte| is_quoted(*byte)) {
        return write_bytes(bytes, out);
    }
    write_bytes(b"\"", out)?;
    for byte in bytes {
        write_byte(*byte, out)?;
    }
    write_bytes(b"\"", out)
}

/// Writes a byte between quotes.
fn write_byte<W: Output>(byte: u8, out: &mut W) -> Result<(), Stop>
    ensures writes { OnOk result (Appends (W.contents out.old) (W.contents out.new) (quoted_byte byte)) }
    ensures ended { IfErr result IsUnwritten }
    ensures said { IfErr result (SaidBy (W.fails out.new)) }
{
    if !is_quoted(byte) {
        return write_bytes(&[byte], out);
    }
    match letter_of(byte) {
        Some(letter) => write_bytes(&[b'\\', letter], out),
        None => write_bytes(
            &[
                b'\\',
                b'0' + byte / 64,
                b'0' + byte / 8 % 8,
                b'0' + byte % 8,
            ],
            out,
        ),
    }
}
