//! Picking by any selector, with what holds of every pick.
ghost use Rattle.std.specs.Prelude.{◌≡◌, ℕ, ◌<◌, ◌≤◌, true, Some, None, Ok, Err, nat_lt};
ghost use Rattle.fault.specs.declared.refusal.Refusal.TheVariants.{PortOutOfRange};
ghost use Rattle.sets.specs.Sets.{holds};
ghost use Rattle.selector.specs.Answers.{served, kept};
ghost use Rattle.selector.specs.Classes.{NoneHeld};

use crate::selector::Selector;
use fault::refusal::Refusal;
use sets::number_set::ClassSet;

/// The class that a port sends from next. Whatever the selector, a pick holds a frame, nothing is
/// picked exactly when no class holds one, and then the selector is left as it was.
pub fn next_class<S: Selector>(
    selector: &mut S,
    port: u8,
    standing: &ClassSet,
) -> Result<Option<u8>, Refusal>
    ensures answer { result ≡ served port (S.Selector.choice selector.old port standing.now) }
    ensures later { selector.new ≡ kept port (S.Selector.after selector.old port standing.now) selector.old }
    ensures below { (class : ℕ) → result ≡ Ok (Some class) → class < 8 }
    ensures stands { (class : ℕ) → result ≡ Ok (Some class) → holds standing.now class ≡ true }
    ensures idle { result ≡ Ok None → NoneHeld standing.now }
    ensures silent { port < 16 → NoneHeld standing.now → result ≡ Ok None }
    ensures keeps { result ≡ Ok None → selector.new ≡ selector.old }
    ensures refuses { 16 ≤ port → result ≡ Err PortOutOfRange }
    ensures refuses_unaltered { 16 ≤ port → selector.new ≡ selector.old }
{
    selector.pick(port, standing)
}
