//! How many transactions a history begins, beside the tickets.

ghost use Rattle.std.specs.Prelude.{◌≡◌, ◌+◌, ◌<◌, length, IfErr, OnOk, MatchOption};
ghost use Rattle.sgt_certifier.specs.declared.call.CertifierFault.{CertifierFault as AFault};
ghost use Rattle.sgt_service_agreement.specs.declared.fault.ServiceFault.TheVariants.{Certifier as AtCertifier};
ghost use Rattle.sgt_service_settle.specs.Settled.{begins_in, is_begin, tickets_of};
ghost use Rattle.sgt_service_settle.specs.Fault.{LeavesActive};

use sgt_certifier::{Call, CertifierFault};
use sgt_service_agreement::ServiceFault;
use sgt_workers::Done;

fn is_begin(call: &Call) -> bool
    ensures { result ≡ is_begin call.now }
{
    matches!(call, Call::Begin { .. })
}

fn begins_in(history: &[Call]) -> usize
    ensures { result ≡ begins_in history.now }
{
    history.iter().filter(|call| is_begin(call)).count()
}

// How many more there are than tickets. None where there are fewer.
fn left_of(begun: usize, dones: &[Done]) -> Option<usize>
    ensures { MatchOption result (begun < length (tickets_of dones.now))
        (λ left. left + length (tickets_of dones.now) ≡ begun) }
{
    let mut left = begun;
    for done in dones {
        let told = done.tickets.len();
        if left < told {
            return None;
        }
        left -= told;
    }
    Some(left)
}

/// Whether as many transactions were begun as there are tickets. Else V4 with C4, with how many more.
pub(crate) fn check_begins(history: &[Call], dones: &[Done]) -> Result<(), ServiceFault>
    ensures ok { OnOk result (begins_in history.now ≡ length (tickets_of dones.now)) }
    ensures err { IfErr result (λ f. (told : AFault) × (f ≡ AtCertifier told)
        × LeavesActive history.now dones.now told) }
{
    let left = match left_of(begins_in(history), dones) {
        Some(0) => return Ok(()),
        Some(left) => left as u64,
        None => 0,
    };
    Err(ServiceFault::Certifier(CertifierFault::ActiveLeft(left)))
}
