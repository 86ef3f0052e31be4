//! The environment of a process, through a runtime whose variables are known.
ghost use Rattle.std.specs.Io.{WritesAtMost};

use ignore_files::Env;
use std::env::FillError;
use std::test::Fail;
use std::{io, rt};

/// A runtime in which the value of each variable is its name, unless that begins with one of these
/// texts, and the working directory is `/here` or unknown.
#[derive(Clone, Copy)]
struct Named {
    unset: &'static str,
    empty: &'static str,
    is_removed: bool,
}

/// Copies a text to the start of a buffer, and returns its length.
fn fill(text: &str, buf: &mut [u8]) -> Result<usize, FillError>
    ensures bound { WritesAtMost result buf.new }
{
    let len = text.len();
    if len > buf.len() {
        return Err(FillError::TooLong);
    }
    buf[..len].copy_from_slice(text.as_bytes());
    Ok(len)
}

impl rt::Env for Named {
    fn arg(&self, _i: usize, _buf: &mut [u8]) -> Result<usize, FillError> {
        Err(FillError::NotPresent)
    }

    fn var(&self, name: &str, buf: &mut [u8]) -> Result<usize, FillError> {
        if name.starts_with(self.unset) {
            return Err(FillError::NotPresent);
        }
        if name.starts_with(self.empty) {
            return fill("", buf);
        }
        fill(name, buf)
    }

    fn var_at(&self, _i: usize, _buf: &mut [u8]) -> Result<usize, FillError> {
        Err(FillError::NotPresent)
    }

    fn current_dir(&self, buf: &mut [u8]) -> io::Result<usize> {
        if self.is_removed {
            return Err(io::Error::from(io::ErrorKind::NotFound));
        }
        match fill("/here", buf) {
            Ok(len) => Ok(len),
            Err(_) => Err(io::Error::from(io::ErrorKind::NotFound)),
        }
    }
}

/// The start of no variable's name.
const NONE: &str = "no such name";

/// The environment as a text.
fn reported(rt: &HostRuntime, unset: &'static str, empty: &'static str) -> Result<String, Fail> {
    let named = Named {
        unset,
        empty,
        is_removed: false,
    };
    let env = Env::of_process(&(named, rt.alloc()))?;
    Ok(format!(in rt.alloc(); "{env:?}")?)
}

#[test]
fn a_working_directory_that_is_unknown_is_none(rt: HostRuntime) -> Result<(), Fail> {
    let named = Named {
        unset: NONE,
        empty: NONE,
        is_removed: true,
    };
    let env = Env::of_process(&(named, rt.alloc()))?;
    assert!(rt; env.current_dir.is_none());
    assert!(rt; env.home.is_some());
    Ok(())
}

#[test]
fn each_field_is_of_its_own_variable(rt: HostRuntime) -> Result<(), Fail> {
    let text = reported(&rt, NONE, NONE)?;
    assert_eq!(rt;
        text.as_str(),
        "Env { current_dir: Some(Name { text: \"/here\" }), home: Some(Name { text: \"HOME\" }), \
        xdg_config_home: Some(Name { text: \"XDG_CONFIG_HOME\" }), \
        git_config_global: Some(Name { text: \"GIT_CONFIG_GLOBAL\" }), \
        git_config_system: Some(Name { text: \"GIT_CONFIG_SYSTEM\" }) }"
    );
    Ok(())
}

#[test]
fn a_variable_that_is_not_set_is_none(rt: HostRuntime) -> Result<(), Fail> {
    let text = reported(&rt, "", NONE)?;
    assert_eq!(rt;
        text.as_str(),
        "Env { current_dir: Some(Name { text: \"/here\" }), home: None, xdg_config_home: None, \
        git_config_global: None, git_config_system: None }"
    );
    Ok(())
}

#[test]
fn a_folder_that_is_empty_is_none(rt: HostRuntime) -> Result<(), Fail> {
    let text = reported(&rt, NONE, "")?;
    assert_eq!(rt;
        text.as_str(),
        "Env { current_dir: Some(Name { text: \"/here\" }), home: None, xdg_config_home: None, \
        git_config_global: Some(Name { text: \"\" }), \
        git_config_system: Some(Name { text: \"\" }) }"
    );
    Ok(())
}

#[test]
fn an_environment_by_hand(rt: HostRuntime) -> Result<(), Fail> {
    let path = String::from_str(rt.alloc(), "/r")?;
    let env = Env::empty().with_xdg_config_home(path);
    let text = format!(in rt.alloc(); "{env:?}")?;
    assert_eq!(rt;
        text.as_str(),
        "Env { current_dir: None, home: None, xdg_config_home: Some(Name { text: \"/r\" }), \
        git_config_global: None, git_config_system: None }"
    );
    Ok(())
}
