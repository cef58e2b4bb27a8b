//! The queues of all ports, and their making.
ghost use Rattle.std.specs.Prelude.{◌≡◌, ℕ, ◌*◌, IfOk, List, [], replicate, vec_len};
ghost use Rattle.std.proofs.Props.{props};
ghost use Rattle.queues.specs.Rings.{Agree, Round, Short, needed_for, no_label, no_ring};

use crate::label::Label;
use crate::ring::Ring;
use rules::shape::Shape;
use sets::number_set::{ClassSet, PORTS};
use std::alloc::{AllocError, Global};

/// The queues of a shape's ports and traffic classes: which slots of each hold frames, and the labels of these.
#[derive(Debug, Drop)]
pub struct Queues {
    pub(crate) shape: Shape,
    pub(crate) needed: usize,
    pub(crate) rings: Vec<Ring>,
    pub(crate) labels: Vec<Label>,
    // Which classes hold a frame, by port.
    pub(crate) holding: [ClassSet; PORTS],
    pub ghost size: { needed ≡ needed_for shape },
    pub ghost queues: { vec_len rings ≡ shape.ports * shape.classes },
    pub ghost cells: { vec_len labels ≡ vec_len rings * shape.depth },
    pub ghost round: { Round shape.depth rings.items } by { Prim.hlevel props },
    pub ghost short: { Short labels.items } by { Prim.hlevel props },
    pub ghost agree: { Agree shape rings.items holding } by { Prim.hlevel props },
}

impl Queues {
    ghost use Rattle.queues.specs.Standing.{queues_of, slots_of};

    /// Queues in which nothing stands. No other call allocates.
    pub fn new(alloc: Global, shape: Shape) -> Result<Queues, AllocError>
        ensures shape { IfOk result (λ q. q.shape ≡ shape) }
        ensures queues { IfOk result (λ q. (memory : List ℕ) → queues_of q memory ≡ (λ p c. [])) }
        ensures slots { IfOk result (λ q. slots_of q ≡ (λ p c. 0)) }
    {
        let queues = usize::from(shape.ports()) * usize::from(shape.classes());
        let slots = queues * usize::from(shape.depth());
        let rings = vec![in alloc; Ring::EMPTY; queues]?;
        let labels = vec![in alloc; Label { length: 0, vid: 0 }; slots]?;
        Ok(Queues::fresh(shape, rings, labels))
    }

    fn fresh(shape: Shape, rings: Vec<Ring>, labels: Vec<Label>) -> Queues
        requires rings { rings.items ≡ replicate (shape.ports * shape.classes) no_ring }
        requires labels { labels.items ≡ replicate (shape.ports * shape.classes * shape.depth) no_label }
        ensures shape { result.shape ≡ shape }
        ensures queues { (memory : List ℕ) → queues_of result memory ≡ (λ p c. []) }
        ensures slots { slots_of result ≡ (λ p c. 0) }
    {
        Queues {
            shape,
            needed: shape.memory_needed(),
            rings,
            labels,
            holding: [ClassSet::empty(); PORTS],
        }
    }

    /// How many ports there are, traffic classes for each, and frames that a queue holds at most.
    #[inline]
    pub fn shape(&self) -> Shape
        ensures { result ≡ self.now.shape }
    {
        self.shape
    }

    /// How many bytes of frame memory the queues need. With a smaller memory nothing is laid or taken.
    #[inline]
    pub fn memory_needed(&self) -> usize
        ensures { result ≡ needed_for self.now.shape }
    {
        self.needed
    }
}
