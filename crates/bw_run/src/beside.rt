//! Faults that stand beside replies.

ghost use Rattle.std.specs.Prelude.{◌≡◌};
ghost use Rattle.bw_run.specs.Beside.{count_beside, fault_beside, is_beside};

use bw_procedures::{Fault, Reply};

/// Returns how many of the replies stand beside the fault.
pub fn count_beside(replies: &[Reply], fault: Fault) -> usize
    ensures { result ≡ count_beside fault replies.now }
{
    replies
        .iter()
        .filter(|reply| is_beside(reply, fault))
        .count()
}

fn is_beside(reply: &Reply, fault: Fault) -> bool
    ensures { result ≡ is_beside fault reply.now }
{
    match fault_beside(reply) {
        Some(other) => fault == other,
        None => false,
    }
}

/// Returns what ended helping or tending, or the removal of a range, if a fault did.
pub(crate) fn fault_beside(reply: &Reply) -> Option<Fault>
    ensures { result ≡ fault_beside reply.now }
{
    match *reply {
        Reply::Put(done) => done.fault,
        Reply::Set(done) => done.fault,
        Reply::Delete(done) => done.fault,
        Reply::Get(_) => None,
        Reply::Clear(cleared) => cleared.fault,
    }
}
