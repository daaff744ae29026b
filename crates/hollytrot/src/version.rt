// The library's version, so that a caller notices a header of another one.
ghost use Rattle.std.specs.Prelude.{◌≡◌};
ghost use Rattle.hollytrot.specs.Version.{library_version};

const VERSION: u64 = 8000;

// The version of the library as one number: major * 1000000 + minor * 1000 + patch.
#[unsafe(no_mangle)]
pub extern "C" fn hollytrot_version() -> u64
    ensures { result ≡ library_version }
{
    VERSION
}
