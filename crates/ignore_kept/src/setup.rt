//! The settings of matchers and walks, as a handle keeps them.
ghost use Rattle.std.specs.Prelude.{◌≡◌, IfOk, OnOk, OnErr};
ghost use Rattle.ignore_kept.specs.Setups.{Begins, Sets, SetsText, on_options, with_setting, with_text};

use crate::kept::Kept;
use crate::room::text_of;
use crate::setting::{Setting, set};
use crate::stopped::Stopped;
use ignore::files::{Env, Name};
use ignore::overrides::OverrideBuilder;
use ignore::types::TypesBuilder;
use ignore::{Error, WalkOptions};
use ignore_dir::Names;
use std::alloc::{AllocError, Global};

/// The settings of matchers and walks.
#[derive(Drop)]
pub struct Setup {
    pub options: WalkOptions,
    pub env: Env,
    pub globs: Option<OverrideBuilder>,
    pub types: TypesBuilder,
    /// Files of rules, by their paths alone, which guides want with their first root.
    pub paths: Names,
    pub problem: Option<Error>,
}

/// A text that is told of a builder.
#[derive(Clone, Copy, Drop)]
pub enum Text {
    /// One root more.
    Root,
    /// One name more of files of rules.
    Custom,
    /// One file of rules more, which guides want.
    File,
    /// The directory that rules from outside are relative to.
    Base,
    /// The working directory.
    CurrentDir,
    /// `HOME`.
    Home,
    /// `XDG_CONFIG_HOME`.
    ConfigHome,
    /// `GIT_CONFIG_GLOBAL`.
    GitGlobal,
    /// `GIT_CONFIG_SYSTEM`.
    GitSystem,
}

/// The settings at first, with one root.
pub fn begin(alloc: Global, root: &[u8]) -> Result<Kept, Stopped>
    ensures { Begins root.now result }
{
    let Ok(root) = text_of(root) else {
        return Err(Stopped::NotUtf8);
    };
    let mut options = WalkOptions::empty(alloc);
    let Ok(()) = options.push_root(root) else {
        return Err(Stopped::Memory);
    };
    Ok(Kept::Setup(Setup {
        options,
        env: Env::empty(),
        globs: None,
        types: TypesBuilder::new(alloc),
        paths: Names::new(Vec::new(alloc)),
        problem: None,
    }))
}

/// Sets what is kept.
#[tactic(auto, using(crate::proofs::Telling::sets))]
pub fn settle(kept: &mut Kept, setting: Setting) -> Result<(), Stopped>
    ensures { Sets (on_options (with_setting setting)) kept.old result kept.new }
{
    let Kept::Setup(setup) = kept else {
        return Err(Stopped::Misused);
    };
    set_in(setup, setting);
    Ok(())
}

fn set_in(setup: &mut Setup, setting: Setting)
    ensures { setup.new ≡ on_options (with_setting setting) setup.old }
{
    set(&mut setup.options, setting);
}

/// Tells a text.
#[tactic(auto, using(crate::proofs::Telling::named, crate::proofs::Telling::unnamed))]
pub fn name(alloc: Global, kept: &mut Kept, what: Text, text: &[u8]) -> Result<(), Stopped>
    ensures { SetsText what text.now kept.old result kept.new }
{
    let Kept::Setup(setup) = kept else {
        return Err(Stopped::Misused);
    };
    let Ok(text) = text_of(text) else {
        return Err(Stopped::NotUtf8);
    };
    match put(alloc, setup, what, text) {
        Ok(()) => Ok(()),
        Err(_) => Err(Stopped::Memory),
    }
}

fn put(alloc: Global, setup: &mut Setup, what: Text, text: &str) -> Result<(), Error>
    ensures put { OnOk result (setup.new ≡ with_text what text.now setup.old) }
    ensures unchanged { OnErr result (setup.new ≡ setup.old) }
{
    match what {
        Text::Root => setup.options.push_root(text),
        Text::Custom => setup.options.push_custom_ignore_filename(text),
        Text::File => {
            setup.paths.push(text)?;
            Ok(())
        }
        Text::Base => {
            let dir = String::from_str(alloc, text)?;
            setup.options.current_dir(dir);
            Ok(())
        }
        Text::CurrentDir => {
            setup.env.current_dir = Some(named(alloc, text)?);
            Ok(())
        }
        Text::Home => {
            setup.env.home = Some(named(alloc, text)?);
            Ok(())
        }
        Text::ConfigHome => {
            setup.env.xdg_config_home = Some(named(alloc, text)?);
            Ok(())
        }
        Text::GitGlobal => {
            setup.env.git_config_global = Some(named(alloc, text)?);
            Ok(())
        }
        Text::GitSystem => {
            setup.env.git_config_system = Some(named(alloc, text)?);
            Ok(())
        }
    }
}

fn named(alloc: Global, text: &str) -> Result<Name, AllocError>
    ensures { IfOk result (λ name. name ≡ text.now) }
{
    Ok(Name::new(String::from_str(alloc, text)?))
}
