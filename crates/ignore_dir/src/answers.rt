//! Answers of the files. Out of memory, which is no answer, is the error.
ghost use Rattle.std.specs.Prelude.{◌≡◌, true, IfOk};
ghost use Rattle.ignore_dir.specs.Ground.{InTree};
ghost use Rattle.ignore_dir.specs.LoadsBy.{reads_of, stats_of};

use crate::ground::Ground;
use ignore_files::internal::answered;
use ignore_files::{Contents, Fault, Files, Metadata};
use std::alloc::AllocError;

/// What a followed `stat` says of a path.
pub(crate) fn stat_of<F: Files>(
    ground: &Ground<'_, F>,
    path: &str,
) -> Result<Result<Metadata, Fault>, AllocError>
    ensures value { InTree F.Files ground.now (λ tree. IfOk result (λ found. found ≡ tree.stat path.now true)) }
    ensures answered { IfOk result (λ found. stats_of F.Files ground.now.files.now path.now found) }
{
    answered(ground.files.stat(ground.alloc, path, true))
}

/// What can be read of the file at a path.
pub(crate) fn contents_of<F: Files>(
    ground: &Ground<'_, F>,
    path: &str,
) -> Result<Result<Contents, Fault>, AllocError>
    ensures value { InTree F.Files ground.now (λ tree. IfOk result (λ read. read ≡ tree.contents path.now)) }
    ensures answered { IfOk result (λ read. reads_of F.Files ground.now.files.now path.now read) }
{
    answered(ground.files.contents(ground.alloc, path))
}
