//! What a host of a guide gives, by the numbers of C.
ghost use Rattle.std.specs.Prelude.{◌≡◌, IfOk, IfErr};
ghost use Rattle.std.specs.Str.{IsUtf8};
ghost use Rattle.ignore_guide.specs.Hosted.{path_answer, read_answer};
ghost use Rattle.ignore_guide.specs.declared.missing.Wanted.TheVariants as wanteds;
ghost use Rattle.ignore_kept.specs.Given.{IsFaultAt, IsGiven, IsKindAt, NotGiven, fault_code, path_given, read_given};
ghost use Rattle.ignore_kept.specs.declared.stopped.Stopped.TheVariants.{NotUtf8};

use crate::room::text_of;
use crate::stopped::Stopped;
use ignore::Fault;
use ignore::files::FileType;
use ignore::guide::{Given, Wanted};

/// What a host gives: the number of a kind, bytes, and the number of a fault.
#[derive(Clone, Copy, Drop)]
pub struct Gift<'g> {
    pub kind: u32,
    pub bytes: &'g [u8],
    pub fault: u32,
}

/// What is given where this is wanted.
#[tactic(auto, using(crate::proofs::Giving::given_is))]
pub(crate) fn given_of<'g>(wanted: Wanted, gift: Gift<'g>) -> Result<Given<'g>, Stopped>
    ensures given { IfOk result (λ g. IsGiven wanted gift.entry.kind gift.entry.bytes.now gift.entry.fault g) }
    ensures refused { IfErr result (λ e. NotGiven wanted gift.entry.kind gift.entry.bytes.now gift.entry.fault e) }
{
    let Some(kind) = kind_at(gift.kind) else {
        return Err(Stopped::Misused);
    };
    let Some(fault) = fault_at(gift.fault) else {
        return Err(Stopped::Misused);
    };
    let path = path_of(wanted, gift.bytes, fault)?;
    Ok(Given {
        kind,
        bytes: bytes_of(gift.bytes, fault),
        fault,
        path,
    })
}

/// What was read of a file: it wasn't opened where there is a fault and no bytes.
fn bytes_of(bytes: &[u8], fault: Option<Fault>) -> Result<&[u8], Fault>
    ensures { read_answer result fault ≡ read_given bytes.now fault }
{
    match fault {
        None => Ok(bytes),
        Some(fault) => {
            if bytes.is_empty() {
                Err(fault)
            } else {
                Ok(bytes)
            }
        }
    }
}

/// The canonical path, where that is wanted.
fn path_of(
    wanted: Wanted,
    bytes: &[u8],
    fault: Option<Fault>,
) -> Result<Result<&str, Fault>, Stopped>
    ensures path { wanted ≡ wanteds.Canonical → IfOk result (λ path. path_answer path ≡ path_given bytes.now fault) }
    ensures not_utf8 { IfErr result (λ e. (e ≡ NotUtf8) × (wanted ≡ wanteds.Canonical) × ¬ (IsUtf8 bytes.now)) }
{
    if let Some(fault) = fault {
        return Ok(Err(fault));
    }
    match wanted {
        Wanted::Kind => Ok(Err(Fault::Other)),
        Wanted::File => Ok(Err(Fault::Other)),
        Wanted::Canonical => match text_of(bytes) {
            Ok(path) => Ok(Ok(path)),
            Err(_) => Err(Stopped::NotUtf8),
        },
    }
}

/// The kind of a number, as entries of walks have it. A link isn't one: it is followed.
#[tactic(auto, using(crate::proofs::Giving::no_kind))]
fn kind_at(number: u32) -> Option<Option<FileType>>
    ensures { IsKindAt number result }
{
    match number {
        0 => Some(None),
        1 => Some(Some(FileType::File)),
        2 => Some(Some(FileType::Dir)),
        4 => Some(Some(FileType::Other)),
        _ => None,
    }
}

/// The fault of a number; 255 is none.
#[tactic(auto, using(crate::proofs::Giving::no_fault))]
fn fault_at(number: u32) -> Option<Option<Fault>>
    ensures { IsFaultAt number result }
{
    match number {
        0 => Some(Some(Fault::NotFound)),
        1 => Some(Some(Fault::PermissionDenied)),
        2 => Some(Some(Fault::NotADirectory)),
        3 => Some(Some(Fault::IsADirectory)),
        4 => Some(Some(Fault::InvalidData)),
        5 => Some(Some(Fault::BadName)),
        6 => Some(Some(Fault::LinkLimit)),
        7 => Some(Some(Fault::NoIdentity)),
        8 => Some(Some(Fault::NoCurrentDir)),
        9 => Some(Some(Fault::StepLimit)),
        10 => Some(Some(Fault::NoMetadata)),
        11 => Some(Some(Fault::Other)),
        255 => Some(None),
        _ => None,
    }
}

/// The number of a fault.
pub(crate) fn fault_code(fault: Fault) -> u32
    ensures { result ≡ fault_code fault }
{
    match fault {
        Fault::NotFound => 0,
        Fault::PermissionDenied => 1,
        Fault::NotADirectory => 2,
        Fault::IsADirectory => 3,
        Fault::InvalidData => 4,
        Fault::BadName => 5,
        Fault::LinkLimit => 6,
        Fault::NoIdentity => 7,
        Fault::NoCurrentDir => 8,
        Fault::StepLimit => 9,
        Fault::NoMetadata => 10,
        Fault::Other => 11,
    }
}
