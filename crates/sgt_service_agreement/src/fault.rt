//! Why a service refuses a call, or a run isn't settled.

ghost use Rattle.std.specs.Prelude.{◌≡◌};
ghost use Rattle.sgt_service_agreement.specs.Fault.{of_site, of_certifier};
ghost use Rattle.sgt_service_agreement.specs.declared.fault.ServiceFault.TheVariants.{Memory};

use sgt_certifier::CertifierFault;
use sgt_names::SiteNo;
use sgt_site::SiteFault;
use std::alloc::AllocError;
use thiserror::Error;

/// Why a service of many threads refuses a call, or why a run of it isn't settled.
#[derive(Clone, Copy, Debug, PartialEq, Eq, Error)]
pub enum ServiceFault {
    /// The ticket of this number is of no decision: none has its number, its transaction and its verdict.
    #[error("V1: the ticket of number {0} is of no decision")]
    StrayTicket(u64),
    /// Two tickets have this number.
    #[error("V2: two tickets have the number {0}")]
    TwoTickets(u64),
    /// A growth was refused, here or in a layer below.
    #[error("V3: out of memory")]
    Memory,
    /// A site refuses, and not for want of memory.
    #[error("V4: {0}")]
    Site(SiteFault),
    /// The certifier refuses, and not for want of memory.
    #[error("V4: {0}")]
    Certifier(CertifierFault),
    /// The sum of a script exceeds the greatest value.
    #[error("V5: a sum is above the greatest value")]
    SumTooLarge,
    /// The decision of this number has no ticket.
    #[error("V6: the decision of number {0} has no ticket")]
    MissingTicket(u64),
    /// This site has lost a pledge, or its versions aren't those that the certifier's history counts.
    #[error("V7: site {0} has lost a pledge, or its versions are not those of the history")]
    NotPledged(SiteNo),
    /// The tickets of this job don't rise.
    #[error("V8: the tickets of job {0} do not rise")]
    TicketOrder(u64),
    /// The log of this site isn't what the seats count there, or its conflicts aren't those that were decided on.
    #[error("V9: the log of site {0} is not what was counted or decided on there")]
    LogDiffers(SiteNo),
    /// The final versions of this site aren't those that the certifier's history counts.
    #[error("V10: the versions of site {0} are not those of the history")]
    VersionsDiffer(SiteNo),
}

impl From<SiteFault> for ServiceFault {
    ghost from_gives = { λ fault e. e ≡ of_site fault };

    fn from(fault: SiteFault) -> ServiceFault {
        match fault {
            SiteFault::Memory => ServiceFault::Memory,
            _ => ServiceFault::Site(fault),
        }
    }
}

impl From<CertifierFault> for ServiceFault {
    ghost from_gives = { λ fault e. e ≡ of_certifier fault };

    fn from(fault: CertifierFault) -> ServiceFault {
        match fault {
            CertifierFault::Memory => ServiceFault::Memory,
            _ => ServiceFault::Certifier(fault),
        }
    }
}

impl From<AllocError> for ServiceFault {
    ghost from_gives = { λ _ e. e ≡ Memory };

    fn from(_refused: AllocError) -> ServiceFault {
        ServiceFault::Memory
    }
}
