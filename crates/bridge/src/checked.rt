//! What the check before the making hands out.
ghost use Rattle.std.specs.Prelude.{◌≡◌, ℕ, List, []};
ghost use Rattle.std.proofs.Props.{props};
ghost use Rattle.queues.specs.Standing.{queues_of, slots_of};

use configuration::statics::Statics;
use configuration::vlans::Vlans;
use queues::queues::Queues;

/// All that a bridge of a checked shape needs, allocated. Only `check` makes one, so a bridge is made of it without a
/// further question.
#[derive(Drop)]
pub struct Checked {
    pub(crate) queues: Queues,
    pub(crate) vlans: Vlans,
    pub(crate) statics: Statics,
    pub ghost no_frame: { (memory : List ℕ) → queues_of queues memory ≡ (λ p c. []) } by { Prim.hlevel props },
    pub ghost first_slots: { slots_of queues ≡ (λ p c. 0) } by { Prim.hlevel props },
    pub ghost no_vlan: { vlans ≡ [] } by { Prim.hlevel props },
    pub ghost no_static: { statics ≡ [] } by { Prim.hlevel props },
}
