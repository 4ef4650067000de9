ghost use Rattle.std.specs.Prelude.{◌≡◌, Some, None, MatchResult};
ghost use Rattle.off_base.specs.AddressText.{ip_of};

use crate::socket_link::OpenErr;
use off_base::{Ip4, read_ip};
use std::env::{self, VarError};

/// The address on which UDP listens, where it is set. Else it listens on all addresses of the
/// machine.
const UDP_VARIABLE: &str = "OFFICED_UDP";

/// The address on which clerks are heard, where it is set. Else they are heard on the machine
/// itself alone, since they have no password.
const HTTP_VARIABLE: &str = "OFFICED_HTTP";

// All addresses of the machine.
const ANY: Ip4 = Ip4(0);

// 127.0.0.1.
const LOOPBACK: Ip4 = Ip4(0x7f00_0001);

/// On which addresses of the machine the office listens.
#[derive(Clone, Copy)]
pub struct Addresses {
    pub udp: Ip4,
    pub http: Ip4,
}

impl Addresses {
    /// What the environment asks for. A text that is no address counts as a socket that can't be
    /// opened.
    pub fn wanted(rt: &HostRuntime) -> Result<Addresses, OpenErr> {
        let udp = set_address(rt, UDP_VARIABLE)?;
        let http = set_address(rt, HTTP_VARIABLE)?;
        Ok(Addresses {
            udp: udp.unwrap_or(ANY),
            http: http.unwrap_or(LOOPBACK),
        })
    }
}

// The address that a variable of the environment has, if it is set.
fn set_address(rt: &HostRuntime, variable: &str) -> Result<Option<Ip4>, OpenErr> {
    match env::var(rt, variable) {
        Ok(text) => Ok(Some(read_address(text.as_bytes())?)),
        Err(VarError::NotPresent) => Ok(None),
        Err(VarError::NotUnicode) => Err(OpenErr::Socket),
        Err(VarError::OutOfMemory) => Err(OpenErr::Memory),
    }
}

fn read_address(text: &[u8]) -> Result<Ip4, OpenErr>
    ensures { MatchResult result (λ address. ip_of text.now ≡ Some address.0)
        (λ _. ip_of text.now ≡ None) }
{
    match read_ip(text) {
        Ok(address) => Ok(address),
        Err(_none) => Err(OpenErr::Socket),
    }
}
