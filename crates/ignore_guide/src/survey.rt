//! What the names that a directory lists say of the files that decide there.
use crate::missing::{Question, Wanted};
use ignore_base::internal::join;
use ignore_base::text::{has_slash, is_proper};
use ignore_dir::Settings;
use ignore_files::Name;
use std::alloc::{AllocError, Global};

/// The names that a directory lists.
#[derive(Clone, Copy)]
pub(crate) struct Listed<'n> {
    /// The path of the directory.
    pub(crate) dir: &'n str,
    /// The names.
    pub(crate) names: &'n [&'n str],
}

/// What is lacked of the files that decide in a directory, and what a host is asked of the others.
#[derive(Drop)]
pub(crate) struct Survey {
    /// The paths at which nothing is.
    pub(crate) lacked: Vec<String>,
    /// The files of rules that may be there.
    pub(crate) questions: Vec<Question>,
    /// Whether nothing else is missing: no repository begins there, and no file of rules leads on to
    /// others.
    pub(crate) is_all: bool,
}

/// Whether a listing shows that nothing has a name, which is plain: each name in it is another, ASCII
/// case not regarded.
fn is_lacked(names: &[&str], name: &str) -> bool {
    if !is_proper(name) || has_slash(name) || !name.is_ascii() {
        return false;
    }
    for other in names {
        if other.eq_ignore_ascii_case(name) {
            return false;
        }
    }
    true
}

impl Survey {
    /// Of a directory of which no names are told. It allocates nothing.
    pub(crate) fn nothing(alloc: Global) -> Survey {
        Survey {
            lacked: Vec::new(alloc),
            questions: Vec::new(alloc),
            is_all: false,
        }
    }

    /// Of a directory that lists these names.
    pub(crate) fn of(
        alloc: Global,
        settings: &Settings,
        listed: Listed<'_>,
    ) -> Result<Survey, AllocError> {
        let custom = settings.custom.as_slice();
        let mut survey = Survey::nothing(alloc);
        survey.lacked = Vec::with_capacity(alloc, custom.len().saturating_add(4))?;
        let git = survey.take(alloc, listed, ".git", false)?;
        let jj = survey.take(alloc, listed, ".jj", false)?;
        survey.is_all = git && jj;
        for name in custom {
            survey.take(alloc, listed, name.as_str(), true)?;
        }
        survey.take(alloc, listed, ".ignore", settings.ignore)?;
        survey.take(alloc, listed, ".gitignore", settings.git_ignore)?;
        Ok(survey)
    }

    /// Takes down whether the file of a name is lacked, and returns that. Else it is asked for, where
    /// it is to be read: one that is asked for twice is told by then, and not asked again.
    fn take(
        &mut self,
        alloc: Global,
        listed: Listed<'_>,
        name: &str,
        is_read: bool,
    ) -> Result<bool, AllocError> {
        let path = join(alloc, listed.dir, name)?;
        if is_lacked(listed.names, name) {
            self.lacked.push(path)?;
            return Ok(true);
        }
        if is_read {
            self.questions.push(Question {
                wanted: Wanted::File,
                path: Name::new(path),
            })?;
        }
        Ok(false)
    }
}
