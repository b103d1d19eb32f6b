// The calls that read: each leaves the replica as it was.
ghost use Rattle.refile.specs.Boundary.{Lent, Calls, winner_call, leaves_call, path_call, missing_call, put_out_call, put_out_size_call, changes_call, sequence_call, counts_call, report_call};

#[unsafe(no_mangle)]
pub extern "C" fn refile_winner(replica: &[u8], id: &[u8], out: &mut [u8]) -> u64
    requires { Lent replica.now }
    ensures { Calls (winner_call replica.now id.now out.old) result out.new }
{
    refile::read::refile_winner(replica, id, out)
}

#[unsafe(no_mangle)]
pub extern "C" fn refile_leaves(replica: &[u8], id: &[u8], out: &mut [u8]) -> u64
    requires { Lent replica.now }
    ensures { Calls (leaves_call replica.now id.now out.old) result out.new }
{
    refile::read::refile_leaves(replica, id, out)
}

#[unsafe(no_mangle)]
pub extern "C" fn refile_path(
    replica: &[u8],
    id: &[u8],
    number: u32,
    hash: &[u8],
    out: &mut [u8],
) -> u64
    requires { Lent replica.now }
    ensures { Calls (path_call replica.now id.now number hash.now out.old) result out.new }
{
    refile::read::refile_path(replica, id, number, hash, out)
}

#[unsafe(no_mangle)]
pub extern "C" fn refile_missing(replica: &[u8], id: &[u8], asked: &[u8], out: &mut [u8]) -> u64
    requires { Lent replica.now }
    ensures { Calls (missing_call replica.now id.now asked.now out.old) result out.new }
{
    refile::read::refile_missing(replica, id, asked, out)
}

#[unsafe(no_mangle)]
pub extern "C" fn refile_update_sequence(replica: &[u8]) -> u64
    requires { Lent replica.now }
    ensures { Calls (sequence_call replica.now) result tt }
{
    refile::read::refile_update_sequence(replica)
}

#[unsafe(no_mangle)]
pub extern "C" fn refile_counts(replica: &[u8], answer: &mut [u8]) -> u64
    requires { Lent replica.now }
    ensures { Calls (counts_call replica.now answer.old) result answer.new }
{
    refile::read::refile_counts(replica, answer)
}

#[unsafe(no_mangle)]
pub extern "C" fn refile_put_out(replica: &[u8], id: &[u8], out: &mut [u8]) -> u64
    requires { Lent replica.now }
    ensures { Calls (put_out_call replica.now id.now out.old) result out.new }
{
    refile::read::refile_put_out(replica, id, out)
}

#[unsafe(no_mangle)]
pub extern "C" fn refile_put_out_size(replica: &[u8], id: &[u8]) -> u64
    requires { Lent replica.now }
    ensures { Calls (put_out_size_call replica.now id.now) result tt }
{
    refile::read::refile_put_out_size(replica, id)
}

#[unsafe(no_mangle)]
pub extern "C" fn refile_changes(
    replica: &[u8],
    after: u32,
    out: &mut [u8],
    answer: &mut [u8],
) -> u64
    requires { Lent replica.now }
    ensures { Calls (changes_call replica.now after out.old answer.old) result (out.new, answer.new) }
{
    refile::read::refile_changes(replica, after, out, answer)
}

#[unsafe(no_mangle)]
pub extern "C" fn refile_report(image: &[u8], out: &mut [u8]) -> u64
    ensures { Calls (report_call image.now out.old) result out.new }
{
    refile::read::refile_report(image, out)
}
