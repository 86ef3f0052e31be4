//! Rules of files, by where they stand.
ghost use Rattle.std.specs.Prelude.{◌≡◌, ◌⊎◌, ◌==◌, ◌++◌, [], ℕ, List, None, Some, OnOk, IfOk, IfErr, length, is_some, if◌then◌else◌, string_bytes};
ghost use Rattle.std.specs.BTreeMap.{IsOrdered, get, get_by_text};
ghost use Rattle.std.specs.Io.KnownBytes.{Appends};
ghost use Rattle.std.specs.List.{flat_map};
ghost use Rattle.std.specs.Option.{IsSome, option_copied};
ghost use Rattle.std.specs.Ordering.{nat_cmp};
ghost use Rattle.ignore_base.specs.Text.{Path};
ghost use Rattle.ignore_why.specs.Cited.{named_of};
ghost use Rattle.ig_commands.specs.Counts.{capped};
ghost use Rattle.ig_commands.specs.Form.{at_end, rule_fields};
ghost use Rattle.ig_commands.specs.Rules.{Adds, AreWithout, Grows, alone_at, file_rule, is_free, left_of, rule_at, rule_line};
ghost use Rattle.ig_commands.specs.Unused.{FileRule};
ghost use Rattle.ig_commands.specs.Stops.{IsUnwritten, SaidBy};

use crate::form::{Form, Origin, write_rule};
use crate::stop::Stop;
use crate::writing::write_bytes;
use commands::Output;
use ignore_why::NamedRule;
use std::alloc::{AllocError, Global};
use std::collections::BTreeMap;

/// The rules of a file, by the numbers of their lines.
type File = BTreeMap<u64, String>;

/// Rules of files, by the paths of the files and the numbers of the lines.
#[derive(Drop)]
pub(crate) struct FileRules {
    alloc: Global,
    files: BTreeMap<String, File>,
}

impl FileRules {
    /// No rules.
    pub(crate) fn new(alloc: Global) -> FileRules
        ensures none { (source : Path) (line : ℕ) → rule_at result source line ≡ None }
    {
        FileRules {
            alloc,
            files: BTreeMap::new(alloc),
        }
    }

    /// Adds a rule, where it stands in a file. One that stands there already stays.
    pub(crate) fn add(&mut self, rule: &NamedRule) -> Result<(), AllocError>
        ensures adds { OnOk result (Adds (named_of rule.now) self.old self.new) }
    {
        let Some(source) = &rule.source else {
            return Ok(());
        };
        let Some(line) = rule.line else {
            return Ok(());
        };
        self.add_at(source.as_str(), line, rule.original.as_str())
    }

    /// Adds a rule at a line of a file. One that stands there already stays.
    fn add_at(&mut self, source: &str, line: u64, pattern: &str) -> Result<(), AllocError>
        ensures adds { OnOk result (Grows (alone_at source.now line pattern.now) self.old self.new) }
    {
        if self.has(source, line) {
            return Ok(());
        }
        let pattern = String::from_str(self.alloc, pattern)?;
        self.add_file(source)?;
        match self.files.get_mut(source) {
            Some(file) => insert(file, line, pattern),
            None => unreachable!(),
        }
    }

    /// Adds a file without rules, unless it is there.
    fn add_file(&mut self, source: &str) -> Result<(), AllocError>
        ensures same { OnOk result ((s : Path) (line : ℕ) → rule_at self.new s line ≡ rule_at self.old s line) }
        ensures there { OnOk result (IsSome (get_by_text self.new.files source.now)) }
    {
        if self.files.get(source).is_some() {
            return Ok(());
        }
        let key = String::from_str(self.alloc, source)?;
        match self.files.insert(key, BTreeMap::new(self.alloc)) {
            Ok(_) => Ok(()),
            Err(_) => Err(AllocError),
        }
    }

    /// Whether a rule stands at a line of a file.
    fn has(&self, source: &str, line: u64) -> bool
        ensures { result ≡ is_some (rule_at self.now source.now line) }
    {
        match self.files.get(source) {
            Some(file) => file.get(&line).is_some(),
            None => false,
        }
    }

    /// Writes the rules of these that aren't among others, in the order of the paths of their files
    /// and of their lines, where `is_written` says so. It returns how many there are.
    pub(crate) fn write_without<W: Output>(
        &self,
        others: &FileRules,
        form: Form<'_>,
        is_written: bool,
        out: &mut W,
    ) -> Result<u64, Stop>
        ensures writes { IfOk result (λ count. (all : List FileRule) × AreWithout self.now others.now all × (count ≡ capped (length all))
            × Appends (W.contents out.old) (W.contents out.new) (flat_map (rule_line (option_copied form.entry.base) form.entry.null is_written) all)) }
        ensures ended { IfErr result IsUnwritten }
        ensures said { IfErr result (SaidBy (W.fails out.new)) }
    {
        let others = Without {
            others,
            form,
            is_written,
        };
        let mut count = 0u64;
        for (source, file) in &self.files {
            let more = write_file(others, source.as_str(), file, out)?;
            count = count.saturating_add(more);
        }
        Ok(count)
    }
}

/// Adds a rule at a line of a file.
fn insert(file: &mut File, line: u64, pattern: String) -> Result<(), AllocError>
    ensures adds { OnOk result ((at : ℕ) → get nat_cmp file.new at ≡ (if line == at then Some pattern else get nat_cmp file.old at)) }
{
    match file.insert(line, pattern) {
        Ok(_) => Ok(()),
        Err(_) => Err(AllocError),
    }
}

/// Which rules are left out, whether the others are written, and how.
#[derive(Clone, Copy)]
struct Without<'a> {
    others: &'a FileRules,
    form: Form<'a>,
    is_written: bool,
}

/// Writes the rules of a file that aren't left out. It returns how many there are.
fn write_file<W: Output>(
    without: Without<'_>,
    source: &str,
    file: &File,
    out: &mut W,
) -> Result<u64, Stop>
    ensures writes { IfOk result (λ count. (count ≡ capped (length (left_of without.entry.others.now source.now file.now.entries)))
        × Appends (W.contents out.old) (W.contents out.new)
        (flat_map (rule_line (option_copied without.entry.form.base) without.entry.form.null without.entry.is_written) (left_of without.entry.others.now source.now file.now.entries))) }
    ensures ordered { IsOrdered nat_cmp file.now }
    ensures ended { IfErr result IsUnwritten }
    ensures said { IfErr result (SaidBy (W.fails out.new)) }
{
    let mut count = 0u64;
    for (line, pattern) in file {
        let is_left = write_left(without, source, *line, pattern.as_str(), out)?;
        count = count.saturating_add(u64::from(is_left));
    }
    Ok(count)
}

/// Writes a rule at a line of a file, unless it is left out. It returns whether it isn't.
fn write_left<W: Output>(
    without: Without<'_>,
    source: &str,
    line: u64,
    pattern: &str,
    out: &mut W,
) -> Result<bool, Stop>
    ensures writes { IfOk result (λ is_left. (is_left ≡ is_free without.entry.others.now (file_rule source.now line pattern.now))
        × Appends (W.contents out.old) (W.contents out.new) (if is_left
        then rule_line (option_copied without.entry.form.base) without.entry.form.null without.entry.is_written (file_rule source.now line pattern.now) else [])) }
    ensures ended { IfErr result IsUnwritten }
    ensures said { IfErr result (SaidBy (W.fails out.new)) }
{
    if without.others.has(source, line) {
        return Ok(false);
    }
    if without.is_written {
        let origin = Origin {
            source,
            line: Some(line),
            pattern,
        };
        write_line(without.form, &origin, out)?;
    }
    Ok(true)
}

/// Writes a rule, and what it ends in.
fn write_line<W: Output>(form: Form<'_>, origin: &Origin<'_>, out: &mut W) -> Result<(), Stop>
    ensures writes { OnOk result (Appends (W.contents out.old) (W.contents out.new)
        (rule_fields (option_copied form.entry.base) form.entry.null origin.now.source.now origin.now.line origin.now.pattern.now ++ at_end form.entry.null)) }
    ensures ended { IfErr result IsUnwritten }
    ensures said { IfErr result (SaidBy (W.fails out.new)) }
{
    write_rule(form, origin, out)?;
    write_bytes(if form.null { b"\0" } else { b"\n" }, out)
}
