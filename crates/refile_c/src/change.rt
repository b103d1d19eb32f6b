// The calls that make, load, save and change a replica.
ghost use Rattle.refile.specs.Boundary.{Calls, Keeps, Lent, fresh_call, load_call, save_call, write_call, TakesCall, edit_call, pull_call};

#[unsafe(no_mangle)]
pub extern "C" fn refile_fresh(replica: &mut [u8]) -> u64
    ensures { Keeps (fresh_call replica.old) result replica.new replica.new }
{
    refile::change::refile_fresh(replica)
}

#[unsafe(no_mangle)]
pub extern "C" fn refile_load(replica: &mut [u8], image: &[u8]) -> u64
    ensures { Keeps (load_call replica.old image.now) result replica.new replica.new }
{
    refile::change::refile_load(replica, image)
}

#[unsafe(no_mangle)]
pub extern "C" fn refile_save(replica: &[u8], out: &mut [u8]) -> u64
    requires { Lent replica.now }
    ensures { Calls (save_call replica.now out.old) result out.new }
{
    refile::change::refile_save(replica, out)
}

#[unsafe(no_mangle)]
pub extern "C" fn refile_write(
    replica: &mut [u8],
    id: &[u8],
    number: u32,
    path: &[u8],
    kind: u32,
    label: u64,
) -> u64
    requires { Lent replica.old }
    ensures { Keeps (write_call replica.old id.now number path.now kind label) result replica.new replica.new }
{
    refile::change::refile_write(replica, id, number, path, kind, label)
}

#[unsafe(no_mangle)]
pub extern "C" fn refile_take_in(replica: &mut [u8], line: &[u8]) -> u64
    requires { Lent replica.old }
    ensures { TakesCall replica.old line.now result replica.new }
{
    refile::change::refile_take_in(replica, line)
}

#[unsafe(no_mangle)]
pub extern "C" fn refile_edit(
    replica: &mut [u8],
    id: &[u8],
    hash: &[u8],
    kind: u32,
    label: u64,
    named: u32,
    number: u32,
    parent: &[u8],
) -> u64
    requires { Lent replica.old }
    ensures { Keeps (edit_call replica.old id.now hash.now kind label named number parent.now) result replica.new replica.new }
{
    refile::change::refile_edit(replica, id, hash, kind, label, named, number, parent)
}

#[unsafe(no_mangle)]
pub extern "C" fn refile_pull(
    target: &mut [u8],
    source: &[u8],
    after: u32,
    answer: &mut [u8],
) -> u64
    requires { Lent target.old × Lent source.now }
    ensures { Keeps (pull_call target.old source.now after answer.old) result (target.new, answer.new) target.new }
{
    refile::change::refile_pull(target, source, after, answer)
}
