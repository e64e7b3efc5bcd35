//! Messages that are carried without bytes.
ghost use Rattle.std.specs.Prelude.{◌≡◌, [], false, refl};

use crate::carry::Carry;
use crate::fault::PumpFault;
use spl_base::Boxed;
use spl_edge::Fabric;
use spl_wire::Message;
use std::alloc::Global;

/// Gives each message without a call on the fabric.
#[derive(Clone, Copy, Drop)]
pub struct Straight {
    failed: bool,
}

impl Straight {
    pub fn new() -> Straight
        ensures { result.failed ≡ false }
    {
        Straight { failed: false }
    }
}

impl Carry for Straight {
    ghost view = { λ s. record { slots = 16; failed = s.failed; wire = λ sent a b. []; hello = λ a b. [] } };

    ghost idle = { λ _ _ _. refl };

    ghost prefix = { λ _ _ _ _ _. ([], refl) };

    #[tactic(auto, using(crate::proofs::Wires::puts_nothing, crate::proofs::Wires::puts_nothing_part, crate::proofs::Taking::takes_nothing, crate::proofs::Carrying::goes_on_silent))]
    fn carry<F: Fabric>(
        &mut self,
        _alloc: Global,
        _fabric: &mut F,
        _from: u8,
        _to: u8,
        message: &Boxed<Message>,
    ) -> Result<Boxed<Message>, PumpFault> {
        match message.share() {
            Ok(copy) => Ok(copy),
            Err(_) => {
                self.failed = true;
                Err(PumpFault::NoMemory)
            }
        }
    }
}
