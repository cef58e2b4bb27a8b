//! What static entries say of the ports.
ghost use Rattle.std.specs.Prelude.{◌≡◌};
ghost use Rattle.configuration.specs.Saying.{both_said, said_by, unsaid};

use rules::vlans::Verdict;
use sets::number_set::{PORTS, PortSet};

/// What static entries say, for frames to an address. Where they say both of a port, forward wins.
#[derive(Clone, Copy, PartialEq, Eq, Debug, Drop)]
pub struct Said {
    /// The ports that frames go to.
    pub forward: PortSet,
    /// The ports that frames do not go to.
    pub filter: PortSet,
}

impl Said {
    pub(crate) fn nothing() -> Said
        ensures { result ≡ unsaid }
    {
        Said {
            forward: PortSet::empty(),
            filter: PortSet::empty(),
        }
    }

    #[tactic(auto, using(std::proofs::lemmas::List::get_or_default, sets::proofs::ByNumber::tried_none, sets::proofs::ByNumber::tried_adds, sets::proofs::ByNumber::tried_skips, sets::proofs::ByNumber::tried_all))]
    pub(crate) fn by(verdicts: &[Verdict; PORTS]) -> Said
        ensures { result ≡ said_by verdicts.now }
    {
        let mut said = Said::nothing();
        for (port, verdict) in verdicts.iter().enumerate() {
            match verdict {
                Verdict::Forward => said.forward.insert(port as u8),
                Verdict::Filter => said.filter.insert(port as u8),
                Verdict::Silent => {}
            }
        }
        said
    }

    pub(crate) fn and(&self, other: &Said) -> Said
        ensures { result ≡ both_said self.now other.now }
    {
        Said {
            forward: self.forward.union(&other.forward),
            filter: self.filter.union(&other.filter),
        }
    }
}
