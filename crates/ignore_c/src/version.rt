//! The version of the library.
ghost use Rattle.std.specs.Prelude.{◌≡◌};

/// The version: 10,000 times its first number, 100 times its second, and its third.
#[unsafe(no_mangle)]
pub extern "C" fn ignore_version() -> u32
    ensures { result ≡ 10100 }
{
    10_100
}
