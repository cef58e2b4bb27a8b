//! Slots with the latest answers. Besides what each function does, its contract says that answers which
//! are right stay so.
ghost use Rattle.std.specs.Prelude.{◌≡◌, ℕ, Bool, false, List, map, Ok, Option};
ghost use Rattle.table.specs.declared.entry.Entry.{Entry};
ghost use Rattle.table.specs.Calls.{after_expire, after_flush, after_learn, learned_mark};
ghost use Rattle.recent.specs.declared.remembered.Remembered.{Remembered};
ghost use Rattle.recent.specs.Remembered.{Touches, alters, has_port, in_fid, is_for, left, recalled};
ghost use Rattle.recent.specs.Right.{IsRight, Right};

use crate::remembered::Remembered;
use fault::mark::Mark;
use table::entry::Key;

// The answer for a pair, if it is remembered.
pub(crate) fn recall(slots: &[Option<Remembered>], key: Key) -> Option<Option<u8>>
    ensures answer { result ≡ recalled slots.now key.fid key.address }
    ensures right { (l : List Entry) → Right l slots.now → IsRight l key.fid key.address result }
{
    slots
        .iter()
        .flatten()
        .find(|answer| answer.is_for(key))
        .map(|answer| answer.port)
}

// Whether a learn with this mark may have changed answers: not where the port was the same or there was no room.
#[tactic(auto, using(crate::proofs::Rights::unaltered))]
pub(crate) fn alters(mark: Mark) -> bool
    ensures answer { result ≡ alters mark }
    ensures right { (l k : List Entry) (slots : List (Option Remembered)) (share f : ℕ) (a : List ℕ) (p t : ℕ) → k ≡ after_learn share l f a p t → Right l slots → Ok mark ≡ learned_mark share l f a p → result ≡ false → Right k slots }
{
    match mark {
        Mark::New | Mark::Moved | Mark::Unlearned => true,
        Mark::Known | Mark::Full => false,
    }
}

// Forgets the answers that a change touched.
pub(crate) fn forget<F: Fn(Remembered) -> bool>(slots: &mut [Option<Remembered>], touched: F)
    requires { F.IsAlwaysCallable touched }
    ensures slots { (test : Remembered → Bool) → Touches F.Fn touched test → slots.new ≡ map (left test) slots.old }
    ensures learned { (l k : List Entry) (share f : ℕ) (a : List ℕ) (p t : ℕ) → k ≡ after_learn share l f a p t → Right l slots.old → Touches F.Fn touched (is_for f a) → Right k slots.new }
    ensures flushed { (l k : List Entry) (f : ℕ) → k ≡ after_flush l f → Right l slots.old → Touches F.Fn touched (in_fid f) → Right k slots.new }
    ensures expired { (l k : List Entry) (limit : ℕ) → k ≡ after_expire limit l → Right l slots.old → Touches F.Fn touched has_port → Right k slots.new }
{
    for slot in slots.iter_mut() {
        if slot.is_some_and(&touched) {
            *slot = None;
        }
    }
}
