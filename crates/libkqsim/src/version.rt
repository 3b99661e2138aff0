//! The version of the library, which is that of the file VERSION.
ghost use Rattle.std.specs.Prelude.{◌≡◌};

/// The number of the version: 10,000 times the first number of VERSION, 100 times the second and the third.
#[unsafe(no_mangle)]
pub extern "C" fn kqsim_version() -> u32
    ensures { result ≡ 1600 }
{
    1600
}
