//! A law of what is settled.

ghost use Rattle.sgt_service_settle.specs.Settled.{Run, IsSettled};
ghost use Rattle.sgt_service_settle.specs.Fault.{Shows};
ghost use Rattle.sgt_service_agreement.specs.declared.fault.ServiceFault.{ServiceFault};

/// What is settled shows no fault. So a run is refused, memory aside, exactly where it isn't settled.
pub fn settled_has_no_fault()
    ensures { (r : Run) (f : ServiceFault) → IsSettled r → Shows r f → ⊥ }
{}
