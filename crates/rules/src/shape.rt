//! How large a bridge is: the numbers that are asked for before it is made.
ghost use Rattle.std.specs.Prelude.{◌≤◌};

use fault::refusal::Refusal;

/// Numbers of ports, traffic classes and queue places that a bridge can have. Only `check` makes one, so what is made of
/// it needs no further question.
#[derive(Clone, Copy, PartialEq, Eq, Debug, Drop)]
pub struct Shape {
    ports: u8,
    classes: u8,
    depth: u8,
    pub ghost ports_low: { 2 ≤ ports },
    pub ghost ports_high: { ports ≤ 16 },
    pub ghost classes_low: { 1 ≤ classes },
    pub ghost classes_high: { classes ≤ 8 },
    pub ghost depth_low: { 1 ≤ depth },
    pub ghost depth_high: { depth ≤ 64 },
}

impl Shape {
    ghost use Rattle.std.specs.Prelude.{◌≡◌};
    ghost use Rattle.rules.specs.Egress.{memory_for};
    ghost use Rattle.fault.specs.Asked.{unless};
    ghost use Rattle.rules.specs.Setup.{make_asked};
    ghost use Rattle.rules.specs.Shapes.{numbers};

    /// Asks whether there are 2 to 16 ports (23), 1 to 8 traffic classes (24), and queues of 1 to 64 frames (26).
    pub fn check(ports: u8, classes: u8, depth: u8) -> Result<Shape, Refusal>
        ensures { numbers result ≡ unless (make_asked ports classes depth) (ports, classes, depth) }
    {
        if !(2..=16).contains(&ports) {
            return Err(Refusal::PortCountOutOfRange);
        }
        if !(1..=8).contains(&classes) {
            return Err(Refusal::ClassCountOutOfRange);
        }
        if !(1..=64).contains(&depth) {
            return Err(Refusal::DepthOutOfRange);
        }
        Ok(Shape {
            ports,
            classes,
            depth,
        })
    }

    /// How many ports there are, numbered from 0.
    pub fn ports(self) -> u8
        ensures value { result ≡ self.ports }
        ensures low { 2 ≤ result }
        ensures high { result ≤ 16 }
    {
        self.ports
    }

    /// How many traffic classes each port has, numbered from 0.
    pub fn classes(self) -> u8
        ensures value { result ≡ self.classes }
        ensures low { 1 ≤ result }
        ensures high { result ≤ 8 }
    {
        self.classes
    }

    /// How many frames one queue holds at most.
    pub fn depth(self) -> u8
        ensures value { result ≡ self.depth }
        ensures low { 1 ≤ result }
        ensures high { result ≤ 64 }
    {
        self.depth
    }

    /// How many bytes of frame memory the bridge needs: 1,518 for each frame that can stand in a queue.
    pub fn memory_needed(self) -> usize
        ensures { result ≡ memory_for self.ports self.classes self.depth }
    {
        usize::from(self.ports) * usize::from(self.classes) * usize::from(self.depth) * 1518
    }
}
