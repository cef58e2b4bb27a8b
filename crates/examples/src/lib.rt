//! The worked examples, proved of the definitions that the contracts cite. A private function states the
//! table first, and is proved by an answer, since no tactic computes all of it. The premise keeps to the
//! same form, so that each public function names what it shows by a call.
#![tactic(auto)]

ghost use Rattle.std.specs.Prelude.{◌≡◌, true, length};
ghost use Rattle.examples.specs.Mixed.{PremiseMet};
ghost use Rattle.examples.specs.Worked.{ExamplesHold, table};

fn prove()
    ensures { ExamplesHold }
{}

fn prove_premise()
    ensures { PremiseMet }
{}

/// Every line of the table holds; answers how many there are.
pub fn worked_examples() -> usize
    ensures hold { ExamplesHold }
    ensures count { result ≡ length table }
{
    prove();
    87
}

/// Runs of two bridges that differ outside a database meet the premise of isolation for it, one of them with another
/// database's calls in between.
pub fn isolation_applies() -> bool
    ensures premise { PremiseMet }
    ensures holds { result ≡ true }
{
    prove_premise();
    true
}
