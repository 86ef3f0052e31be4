//! Globs of the command line, which override all rules.
ghost use Rattle.std.specs.Prelude.{◌≡◌, ◌⊎◌, IfOk, IfErr, OnOk, false, true};
ghost use Rattle.ignore_base.specs.Problem.{problem_of, memory};
ghost use Rattle.ignore_rules.specs.Rules.{begun, with_case_insensitive, with_unclosed_class};
ghost use Rattle.ig_options.specs.Globs.{AddsGlobs, AreGlobs, RefusesGlobs, RefusesOneOf};

use crate::options::Options;
use ignore_base::Error;
use ignore_dir::Names;
use ignore_rules::overrides::{Override, OverrideBuilder};
use std::alloc::Global;

/// The globs of `-g`, and after them those of `--iglob`, relative to a directory.
///
/// # Errors
/// `Error::Glob` for the first glob that isn't valid, or `Error::Memory`.
pub fn globs_of(alloc: Global, options: &Options, dir: &str) -> Result<Override, Error>
    ensures value { IfOk result (AreGlobs options.now dir.now) }
    ensures refused { IfErr result (λ e. (problem_of e ≡ memory) ⊎ RefusesOneOf options.now dir.now (problem_of e)) }
{
    let mut builder = OverrideBuilder::new(alloc, dir)?;
    let plain = builder.case_insensitive(options.glob_case_insensitive)?;
    push_globs(plain, &options.globs)?;
    let both = plain.case_insensitive(true)?;
    push_globs(both, &options.iglobs)?;
    both.build()
}

/// Adds globs in turn, up to one that isn't valid.
fn push_globs(builder: &mut OverrideBuilder, globs: &Names) -> Result<(), Error>
    ensures added { OnOk result (AddsGlobs globs.now builder.old builder.new) }
    ensures refused { IfErr result (λ e. (problem_of e ≡ memory) ⊎ RefusesGlobs globs.now builder.old (problem_of e)) }
{
    for glob in globs.as_slice() {
        builder.push(glob.as_str())?;
    }
    Ok(())
}
