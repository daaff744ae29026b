// Exports for the library's version.
ghost use Rattle.std.specs.Prelude.{◌≡◌};
ghost use Rattle.hollytrot.specs.Version.{library_version};

#[unsafe(no_mangle)]
pub extern "C" fn hollytrot_version() -> u64
    ensures { result ≡ library_version }
{
    hollytrot::hollytrot_version()
}
