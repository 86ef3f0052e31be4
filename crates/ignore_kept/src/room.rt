//! Texts that come from C, and texts that are handed to it.
ghost use Rattle.std.specs.Prelude.{◌≡◌, IfOk, IfErr};
ghost use Rattle.std.specs.Str.{IsUtf8};
ghost use Rattle.ignore_kept.specs.Rooms.{put_in};
ghost use Rattle.ignore_kept.specs.declared.stopped.Stopped.TheVariants.{NotUtf8};

use crate::stopped::Stopped;
use std::str;

/// The text of bytes.
pub fn text_of(bytes: &[u8]) -> Result<&str, Stopped>
    ensures value { IfOk result (λ text. text.now ≡ bytes.now) }
    ensures not_utf8 { IfErr result (λ e. (e ≡ NotUtf8) × ¬ (IsUtf8 bytes.now)) }
{
    match str::from_utf8(bytes) {
        Ok(text) => Ok(text),
        Err(_) => Err(Stopped::NotUtf8),
    }
}

/// Puts the first bytes of a text, as many as there is room for, at the start of a room.
pub fn put(text: &[u8], room: &mut [u8])
    ensures { room.new ≡ put_in text.now room.old }
{
    let n = text.len().min(room.len());
    let (front, _) = room.split_at_mut(n);
    front.copy_from_slice(&text[..n]);
}
