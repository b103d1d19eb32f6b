// The calls that ask: about the library itself, and about any bytes.
ghost use Rattle.std.specs.Prelude.{◌≡◌};
ghost use Rattle.store.specs.Storage.{IsStored};
ghost use Rattle.refile.specs.Boundary.{Says, version};

use codec::is_replica;

// 0.3.0 as one number.
const VERSION: u64 = 3000;

pub fn refile_version() -> u64
    ensures { result ≡ version }
{
    VERSION
}

pub fn refile_is_replica(bytes: &[u8]) -> u64
    ensures { Says (IsStored bytes.now) result }
{
    if is_replica(bytes) {
        return 1;
    }
    0
}
