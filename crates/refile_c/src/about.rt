// The calls that ask: about the library itself, and about any bytes.
ghost use Rattle.std.specs.Prelude.{◌≡◌};
ghost use Rattle.store.specs.Storage.{IsStored};
ghost use Rattle.refile.specs.Boundary.{Says, version};

#[unsafe(no_mangle)]
pub extern "C" fn refile_version() -> u64
    ensures { result ≡ version }
{
    refile::about::refile_version()
}

#[unsafe(no_mangle)]
pub extern "C" fn refile_is_replica(bytes: &[u8]) -> u64
    ensures { Says (IsStored bytes.now) result }
{
    refile::about::refile_is_replica(bytes)
}
