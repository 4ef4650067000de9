// What the system is asked to watch. Its news come with a token each.

use mio::Token;
use off_outside::Service;

// The tokens of the services' sockets and of the listener; a connection's is its number and the
// listener's more.
const DHCP: usize = 0;

const TIME: usize = 1;

const TFTP: usize = 2;

const LISTENER: usize = 3;

/// A socket that the system watches.
#[derive(Clone, Copy, PartialEq, Eq)]
pub enum Watched {
    /// That of a service's datagrams.
    Datagrams(Service),
    /// That at which clerks' connections are accepted.
    Listener,
    /// That of the connection of this number. The first is 1.
    Connection(u32),
}

impl Watched {
    pub fn token(self) -> Token {
        match self {
            Watched::Datagrams(Service::Dhcp) => Token(DHCP),
            Watched::Datagrams(Service::Time) => Token(TIME),
            Watched::Datagrams(Service::Tftp) => Token(TFTP),
            Watched::Listener => Token(LISTENER),
            Watched::Connection(number) => Token(LISTENER + number as usize),
        }
    }

    /// What a token stands for. A number that no connection has stands for none.
    pub fn by_token(token: Token) -> Watched {
        match token.0 {
            DHCP => Watched::Datagrams(Service::Dhcp),
            TIME => Watched::Datagrams(Service::Time),
            TFTP => Watched::Datagrams(Service::Tftp),
            LISTENER => Watched::Listener,
            other => Watched::Connection(u32::try_from(other - LISTENER).unwrap_or(0)),
        }
    }
}
