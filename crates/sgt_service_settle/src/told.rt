//! The tickets of a run alone, before its sites are known.

ghost use Rattle.std.specs.Prelude.{◌≡◌, ◌≢◌, OnOk, IfErr};
ghost use Rattle.sgt_service_agreement.specs.declared.fault.ServiceFault.TheVariants.{Memory};
ghost use Rattle.sgt_certifier.specs.History.{Replays};
ghost use Rattle.sgt_service_settle.specs.Settled.{AreTickets, Run};
ghost use Rattle.sgt_service_settle.specs.Fault.{IsUnsettled};

use crate::tickets::check_tickets;
use sgt_certifier::Certifier;
use sgt_service_agreement::ServiceFault;
use sgt_workers::Done;
use std::alloc::Global;

/// Whether the tickets are the decisions of the certifier's history, each once and those of each job in order: what
/// `check_settled` tells of a run before it looks at its sites. V1, V2, V6 and V8 are answered as it answers them.
///
/// Linear in the history and the tickets, in time and memory. It doesn't err for want of memory: without it each
/// ticket or each decision costs a walk over the history or the tickets.
pub fn check_told(alloc: Global, certifier: &Certifier, dones: &[Done]) -> Result<(), ServiceFault>
    ensures ok { OnOk result (AreTickets certifier.now.state.rulings dones.now) }
    ensures err { IfErr result
        (λ f. (r : Run) → r.certifier ≡ certifier.now → r.dones ≡ dones.now → IsUnsettled r f) }
    ensures memory { IfErr result (λ f. f ≢ Memory) }
    ensures replays { Replays certifier.now.history certifier.now.state }
{
    let history = certifier.history();
    check_tickets(alloc, history, dones)
}
