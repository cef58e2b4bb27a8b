use crate::queues::Queues;
use Answer::*;
use Call::*;
use frame::parts::Parts;
use rules::shape::Shape;
use std::process::Abort;
use std::test::Fail;

// The last number of a `Lay` is what each byte of the body is. A hundred times that is the VID.
#[derive(Clone, Copy)]
enum Call {
    Room(u8, u8),
    Lay(u8, u8, u8),
    Take(u8, u8),
    Standing(u8),
    HoldsIn(u8, u8),
    Empty(u8),
    // The first byte of the body that lies in a cell.
    Cell(u8),
}

#[derive(Clone, Copy, PartialEq, Debug)]
enum Answer {
    Yes,
    No,
    Count(usize),
    // A frame's length, its VID, and the first byte of its body.
    Frame(u16, u16, u8),
    Byte(u8),
}

// Two ports, two classes, and queues of three frames: a queue's cells are 0, 3, 6 and 9 and the two after each.
const CASES: [(Call, Answer); 45] = [
    (Take(1, 0), No),
    (Lay(1, 0, 10), Yes),
    (Lay(1, 0, 11), Yes),
    (Room(1, 0), Yes),
    (Lay(1, 0, 12), Yes),
    (Room(1, 0), No),
    (Lay(1, 0, 13), No),
    (Room(1, 1), Yes),
    (Room(0, 0), Yes),
    (Cell(6), Byte(10)),
    (Cell(8), Byte(12)),
    (Take(1, 0), Frame(60, 1000, 10)),
    (Take(1, 0), Frame(60, 1100, 11)),
    // The slots go round, and a frame that was taken still lies in its cell.
    (Cell(6), Byte(10)),
    (Lay(1, 0, 14), Yes),
    (Cell(6), Byte(14)),
    (Take(1, 0), Frame(60, 1200, 12)),
    (Take(1, 0), Frame(60, 1400, 14)),
    (Take(1, 0), No),
    // What stands.
    (Lay(0, 1, 20), Yes),
    (Lay(1, 0, 21), Yes),
    (Lay(1, 1, 22), Yes),
    (Lay(1, 1, 23), Yes),
    (Standing(0), Count(1)),
    (Standing(1), Count(3)),
    (HoldsIn(0, 0), No),
    (HoldsIn(0, 1), Yes),
    (HoldsIn(1, 0), Yes),
    // Emptying a port leaves the other, and the slots where the next frames will lie.
    (Empty(1), Count(3)),
    (HoldsIn(1, 1), No),
    (Take(1, 1), No),
    (Lay(1, 1, 24), Yes),
    (Cell(11), Byte(24)),
    (Take(0, 1), Frame(60, 2000, 20)),
    (HoldsIn(0, 1), No),
    (Standing(1), Count(1)),
    // There are no ports 2 and above, and no classes 2 and above.
    (Room(2, 0), No),
    (Lay(2, 0, 30), No),
    (Take(2, 0), No),
    (Standing(16), Count(0)),
    (HoldsIn(255, 0), No),
    (Empty(255), Count(0)),
    (Room(0, 2), No),
    (Lay(0, 255, 31), No),
    (Take(0, 255), No),
];

fn told(yes: bool) -> Answer {
    if yes { Yes } else { No }
}

fn taken(queues: &mut Queues, memory: &[u8], port: u8, class: u8) -> Answer {
    let mut output = [0; 1518];
    match queues.take(memory, port, class, &mut output) {
        Some(label) => Frame(label.length, label.vid, output[12]),
        None => No,
    }
}

fn ask(queues: &mut Queues, memory: &mut [u8], call: Call) -> Answer {
    match call {
        Room(port, class) => told(queues.has_room(port, class)),
        Lay(port, class, byte) => {
            let parts = Parts {
                destination: [1; 6],
                source: [2; 6],
                tag: None,
                body: &[byte; 48],
            };
            told(queues.lay(memory, port, class, 100 * u16::from(byte), &parts))
        },
        Take(port, class) => taken(queues, memory, port, class),
        Standing(port) => Count(queues.standing(port)),
        HoldsIn(port, class) => told(queues.standing_classes(port).contains(class)),
        Empty(port) => Count(queues.empty(port)),
        Cell(cell) => Byte(
            memory
                .iter()
                .copied()
                .nth(1518 * usize::from(cell) + 12)
                .unwrap_or(0),
        ),
    }
}

fn play(rt: &impl Abort, queues: &mut Queues, memory: &mut [u8]) {
    for (call, answer) in CASES {
        assert_eq!(rt; ask(queues, memory, call), answer);
    }
}

#[test]
fn calls_by_hand(rt: HostRuntime) -> Result<(), Fail> {
    let Ok(shape) = Shape::check(2, 2, 3) else {
        return Err(Fail::new("2, 2 and 3 are in range"));
    };
    let mut queues = Queues::new(rt.alloc(), shape)?;
    let mut memory = vec![in rt.alloc(); 0; queues.memory_needed()]?;
    play(&rt, &mut queues, &mut memory);
    Ok(())
}
