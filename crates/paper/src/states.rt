// The states by their numbers, and by what a stream holds in them. Each list is tested by the numbers of the manual's table.
ghost use Rattle.std.specs.Prelude.{◌≡◌};
ghost use Rattle.ledger.specs.Tally.{has};
ghost use Rattle.paper.specs.Base.{number_of, state_of, header_number, bound_states, told_states, connection_states, calling_states, joined_states};

use crate::State;

// (Methods, since a state has two numbers: `From` would not say which.)
impl State {
    // Its number in the manual's state table.
    pub fn number(self) -> u8
        ensures { result ≡ number_of self }
    {
        match self {
            State::Unattached => 0,
            State::Unbound => 3,
            State::Idle => 6,
            State::OutconPending => 8,
            State::InconPending => 9,
            State::DataXfer => 11,
            State::UserResetPending => 12,
            State::ProvResetPending => 13,
        }
    }

    // The state with a number: Unattached for a number that is no state's.
    pub fn of_number(n: u8) -> State
        ensures { result ≡ state_of n }
    {
        match n {
            3 => State::Unbound,
            6 => State::Idle,
            8 => State::OutconPending,
            9 => State::InconPending,
            11 => State::DataXfer,
            12 => State::UserResetPending,
            13 => State::ProvResetPending,
            _ => State::Unattached,
        }
    }

    // Its number in the public DLPI header.
    pub fn header_number(self) -> u8
        ensures { result ≡ header_number (number_of self) }
    {
        match self {
            State::Unattached => 4,
            State::Unbound => 0,
            State::Idle => 3,
            State::OutconPending => 8,
            State::InconPending => 9,
            State::DataXfer => 11,
            State::UserResetPending => 12,
            State::ProvResetPending => 13,
        }
    }

    // A binding.
    pub fn holds_binding(self) -> bool
        ensures { result ≡ has (number_of self) bound_states }
    {
        6 <= self.number()
    }

    // A binding that INFO_ACK tells.
    pub fn tells_binding(self) -> bool
        ensures { result ≡ has (number_of self) told_states }
    {
        self.holds_binding()
    }

    // A binding in mode 1.
    pub fn is_connection(self) -> bool
        ensures { result ≡ has (number_of self) connection_states }
    {
        8 <= self.number()
    }

    // A connection that is up, or being reset.
    pub fn is_joined(self) -> bool
        ensures { result ≡ has (number_of self) joined_states }
    {
        11 <= self.number()
    }

    // A connection: asked for, up, or being reset.
    pub fn is_calling(self) -> bool
        ensures { result ≡ has (number_of self) calling_states }
    {
        self.number() == 8 || self.is_joined()
    }
}
