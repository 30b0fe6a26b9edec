//! The steps of a refused transaction's walk.

ghost use Rattle.std.specs.Prelude.{◌≡◌, IfOk};

use crate::certificate::Step;
use sgt_names::Listed;
use std::alloc::{AllocError, Global};
use std::marker::Model;

/// The steps of a walk. They lie apart, since few decisions have one.
#[derive(Drop)]
pub struct Walk {
    steps: Box<Listed<Step>>,
}

impl Model for Walk {
    ghost use Rattle.std.specs.Prelude.{List};
    ghost use Rattle.sgt_bundle.specs.declared.certificate.Step.{Step as Member};

    ghost Value = { List Member };

    ghost view = { λ w. w.steps.value };
}

impl Walk {
    /// These steps. It takes memory for the vector's own place alone, and copies none of them.
    pub fn from_vec(alloc: Global, steps: Vec<Step>) -> Result<Walk, AllocError>
        ensures { IfOk result (λ walk. walk ≡ steps.items) }
    {
        match Box::new(alloc, Listed::new(steps)) {
            Ok(steps) => Ok(Walk { steps }),
            Err(_) => Err(AllocError),
        }
    }

    /// The vector of the steps. It takes no memory.
    pub fn into_vec(self) -> Vec<Step>
        ensures { result.items ≡ self }
    {
        let Walk { steps } = self;
        Box::into_inner(steps).into_vec()
    }

    /// The steps, the first one first.
    pub fn as_slice(&self) -> &[Step]
        ensures { result.now ≡ self.now }
    {
        self.steps.as_slice()
    }
}
