//! The ports' states, and what moves a port from one to another.
ghost use Rattle.std.specs.Prelude.{◌≡◌};
ghost use Rattle.fault.specs.declared.refusal.Refusal.TheVariants.{NoTransition, UnknownEvent};
ghost use Rattle.rules.specs.Calls.{event_of, next_state};
ghost use Rattle.rules.specs.Relay.{forwards, learns};
ghost use Rattle.bridge.specs.Refused.{or_refused};

use fault::refusal::Refusal;
use rules::ports::{PortEvent, PortSettings, PortState};

/// A port of a bridge.
#[derive(Clone, Copy, PartialEq, Eq, Debug, Drop)]
pub struct Port {
    /// How it places and admits frames; fixed from the start of the bridge on.
    pub settings: PortSettings,
    /// How far it takes part.
    pub state: PortState,
}

impl Port {
    /// A port as it is when the bridge is made.
    pub const FRESH: Port = Port {
        settings: PortSettings {
            pvid: 1,
            admit_all: true,
            ingress_filtering: false,
            priority: 0,
        },
        state: PortState::Disabled,
    };
}

/// The event of a number, 1 to 5. Another number is refused (19).
pub fn event_of(number: u8) -> Result<PortEvent, Refusal>
    ensures { result ≡ or_refused UnknownEvent (event_of number) }
{
    match number {
        1 => Ok(PortEvent::Enable),
        2 => Ok(PortEvent::Disable),
        3 => Ok(PortEvent::Choose),
        4 => Ok(PortEvent::Drop),
        5 => Ok(PortEvent::DelayOver),
        _ => Err(Refusal::UnknownEvent),
    }
}

/// The state that follows. A pair of state and event that has none is refused (20).
pub fn next_state(state: PortState, event: PortEvent) -> Result<PortState, Refusal>
    ensures { result ≡ or_refused NoTransition (next_state state event) }
{
    match (state, event) {
        (PortState::Disabled, PortEvent::Enable) => Ok(PortState::Blocking),
        (
            PortState::Blocking
            | PortState::Listening
            | PortState::Learning
            | PortState::Forwarding,
            PortEvent::Disable,
        ) => Ok(PortState::Disabled),
        (PortState::Blocking, PortEvent::Choose) => Ok(PortState::Listening),
        (PortState::Listening | PortState::Learning | PortState::Forwarding, PortEvent::Drop) => {
            Ok(PortState::Blocking)
        }
        (PortState::Listening, PortEvent::DelayOver) => Ok(PortState::Learning),
        (PortState::Learning, PortEvent::DelayOver) => Ok(PortState::Forwarding),
        _ => Err(Refusal::NoTransition),
    }
}

/// Whether addresses are learned from what a port in this state receives.
pub fn learns(state: PortState) -> bool
    ensures { result ≡ learns state }
{
    state == PortState::Learning || state == PortState::Forwarding
}

/// Whether a port in this state receives and sends.
pub fn forwards(state: PortState) -> bool
    ensures { result ≡ forwards state }
{
    state == PortState::Forwarding
}
