//! The laws of the rules. Each public function carries one in its contract, by whose name pages cite it; there is
//! nothing to compute but the answer that it holds.
//!
//! A private function states each law first, and is proved by an answer: no tactic finds most of them, even where it is
//! handed their proofs, and the others keep to the same form.
ghost use Rattle.std.specs.Prelude.{◌≡◌, true};
ghost use Rattle.rules.specs.Egress.{ClassBelow};
ghost use Rattle.rules.specs.Laws.{Conservation, Draining, Isolation, NoSharing, Order, Pairing};
ghost use Rattle.rules.specs.Runs.{RunsExist};
ghost use Rattle.rules.specs.Ways.{CellsApart, CellsWithin, DecidedPorts, FilterWins, ForwardWins, OwnGroupEntry};

fn prove_isolation()
    ensures { Isolation }
{}

fn prove_pairing()
    ensures { Pairing }
{}

fn prove_order()
    ensures { Order }
{}

fn prove_no_sharing()
    ensures { NoSharing }
{}

fn prove_conservation()
    ensures { Conservation }
{}

fn prove_draining()
    ensures { Draining }
{}

fn prove_runs_exist()
    ensures { RunsExist }
{}

fn prove_decided_ports()
    ensures { DecidedPorts }
{}

fn prove_forward_wins()
    ensures { ForwardWins }
{}

fn prove_filter_wins()
    ensures { FilterWins }
{}

fn prove_own_group_entry()
    ensures { OwnGroupEntry }
{}

fn prove_cells_apart()
    ensures { CellsApart }
{}

fn prove_cells_within()
    ensures { CellsWithin }
{}

fn prove_class_below()
    ensures { ClassBelow }
{}

/// What one database's calls answer does not depend on the others' calls.
pub fn isolation() -> bool
    ensures law { Isolation }
    ensures holds { result ≡ true }
{
    prove_isolation();
    true
}

/// Each frame that a send hands out is that of an earlier receive, which queued it at that port from another.
pub fn pairing() -> bool
    ensures law { Pairing }
    ensures holds { result ≡ true }
{
    prove_pairing();
    true
}

/// Of two frames that share port, VLAN and priority, the earlier received leaves first.
pub fn order() -> bool
    ensures law { Order }
    ensures holds { result ≡ true }
{
    prove_order();
    true
}

/// No two sends at one port share a receive.
pub fn no_sharing() -> bool
    ensures law { NoSharing }
    ensures holds { result ≡ true }
{
    prove_no_sharing();
    true
}

/// Frames queued are frames sent, emptied or standing.
pub fn conservation() -> bool
    ensures law { Conservation }
    ensures holds { result ≡ true }
{
    prove_conservation();
    true
}

/// What stands can be sent.
pub fn draining() -> bool
    ensures law { Draining }
    ensures holds { result ≡ true }
{
    prove_draining();
    true
}

/// For every way of setting up and every list of calls there is a run with just these calls, so that no law
/// speaks of nothing.
pub fn runs_exist() -> bool
    ensures law { RunsExist }
    ensures holds { result ≡ true }
{
    prove_runs_exist();
    true
}

/// A port that a frame goes to is another one than the arrival port, is Forwarding, and is a member of the VLAN.
pub fn decided_ports() -> bool
    ensures law { DecidedPorts }
    ensures holds { result ≡ true }
{
    prove_decided_ports();
    true
}

/// A static entry that says forward at a port wins over one that says filter, and over the table.
pub fn forward_wins() -> bool
    ensures law { ForwardWins }
    ensures holds { result ≡ true }
{
    prove_forward_wins();
    true
}

/// A static entry that says filter at a port wins over the table.
pub fn filter_wins() -> bool
    ensures law { FilterWins }
    ensures holds { result ≡ true }
{
    prove_filter_wins();
    true
}

/// For a group destination only the static entry of the frame's own VID speaks.
pub fn own_group_entry() -> bool
    ensures law { OwnGroupEntry }
    ensures holds { result ≡ true }
{
    prove_own_group_entry();
    true
}

/// Frames of different ports, classes or slots never overlap in the frame memory.
pub fn cells_apart() -> bool
    ensures law { CellsApart }
    ensures holds { result ≡ true }
{
    prove_cells_apart();
    true
}

/// A frame memory of the size that is asked for has room for every cell.
pub fn cells_within() -> bool
    ensures law { CellsWithin }
    ensures holds { result ≡ true }
{
    prove_cells_within();
    true
}

/// Whatever the priority, its traffic class is one of those that there are.
pub fn class_below() -> bool
    ensures law { ClassBelow }
    ensures holds { result ≡ true }
{
    prove_class_below();
    true
}
