//! What matches, kinds of files and metadata answer when they are asked.
use ignore_base::Match;
use ignore_files::{FileType, Metadata};

/// Whether a match is none, an ignore or a whitelist, and what decided.
fn answers(found: &Match<u8>) -> (bool, bool, bool, Option<u8>) {
    (
        found.is_none(),
        found.is_ignore(),
        found.is_whitelist(),
        found.inner().copied(),
    )
}

const NONE: (bool, bool, bool, Option<u8>) = (true, false, false, None);

const IGNORE: (bool, bool, bool, Option<u8>) = (false, true, false, Some(3));

const WHITELIST: (bool, bool, bool, Option<u8>) = (false, false, true, Some(3));

#[test]
fn a_match_answers_by_its_case(rt: HostRuntime) {
    assert_eq!(rt; answers(&Match::None), NONE);
    assert_eq!(rt; answers(&Match::Ignore(3)), IGNORE);
    assert_eq!(rt; answers(&Match::Whitelist(3)), WHITELIST);
}

#[test]
fn a_match_is_inverted(rt: HostRuntime) {
    assert_eq!(rt; answers(&Match::None.invert()), NONE);
    assert_eq!(rt; answers(&Match::Whitelist(3).invert()), IGNORE);
    assert_eq!(rt; answers(&Match::Ignore(3).invert()), WHITELIST);
}

fn halved(found: Match<u8>) -> Match<u8> {
    found.map(|value| value / 2)
}

#[test]
fn a_match_is_mapped(rt: HostRuntime) {
    assert_eq!(rt; answers(&halved(Match::None)), NONE);
    assert_eq!(rt; answers(&halved(Match::Ignore(6))), IGNORE);
    assert_eq!(rt; answers(&halved(Match::Whitelist(6))), WHITELIST);
}

#[test]
fn the_first_match_that_is_one_counts(rt: HostRuntime) {
    assert_eq!(rt; answers(&Match::None.or(Match::None)), NONE);
    assert_eq!(rt; answers(&Match::None.or(Match::Ignore(3))), IGNORE);
    assert_eq!(rt;
        answers(&Match::Whitelist(3).or(Match::Ignore(4))),
        WHITELIST
    );
}

/// Whether a kind is a file, a directory or a link.
fn kinds(kind: FileType) -> (bool, bool, bool) {
    (kind.is_file(), kind.is_dir(), kind.is_symlink())
}

#[test]
fn a_kind_answers_by_its_case(rt: HostRuntime) {
    assert_eq!(rt; kinds(FileType::File), (true, false, false));
    assert_eq!(rt; kinds(FileType::Dir), (false, true, false));
    assert_eq!(rt; kinds(FileType::Symlink), (false, false, true));
    assert_eq!(rt; kinds(FileType::Other), (false, false, false));
}

/// Whether metadata of seven bytes and this kind are of a file and of a directory.
fn reported(file_type: FileType) -> (bool, bool) {
    let metadata = Metadata { file_type, len: 7 };
    (metadata.is_file(), metadata.is_dir())
}

#[test]
fn metadata_answer_by_their_kind(rt: HostRuntime) {
    assert_eq!(rt; reported(FileType::File), (true, false));
    assert_eq!(rt; reported(FileType::Dir), (false, true));
    assert_eq!(rt; reported(FileType::Symlink), (false, false));
    assert_eq!(rt; reported(FileType::Other), (false, false));
}

#[test]
fn metadata_keep_what_they_were_given(rt: HostRuntime) {
    let metadata = Metadata {
        file_type: FileType::Other,
        len: 7,
    };
    assert_eq!(rt; metadata.file_type(), FileType::Other);
    assert_eq!(rt; metadata.len(), 7);
}
