ghost use Rattle.std.specs.Prelude.{◌≡◌, ◌==◌, ◌↔◌, [], ◌∷◌, Contains, IsTrue};
ghost use Rattle.std.specs.List.{starts_with};
ghost use Rattle.off_defs.specs.declared.events.Service.TheVariants as service;
ghost use Rattle.off_peers.specs.Reflections.{IsReflection, AnswersByItself, IsNoClient};
ghost use Rattle.off_peers.specs.Reflections.{is_time_answer};

use off_base::{Moment, Peer};
use off_outside::Service;

/// The UDP ports of the office itself.
#[derive(Clone, Copy)]
pub struct OwnPorts {
    pub dhcp: u16,
    pub time: u16,
    pub tftp: u16,
}

// How many seconds lie between 1900, where the time of RFC 868 begins, and 1970.
const BEFORE_1970: u32 = 2_208_988_800;

// How many seconds the clocks of two offices may be apart for one to know the other's answers.
const NEAR: u32 = 86_400;

/// Whether a datagram comes from where no client of the service stands, by the sender's port or
/// address. Two services could otherwise answer each other without end, started by one forged
/// datagram (RFC 862 to 868 and RFC 1350 say no word against it).
pub fn is_reflection(asked: Service, from: Peer, own: OwnPorts) -> bool
    ensures { IsTrue result ↔ IsReflection asked from own }
{
    match asked {
        Service::Dhcp => false,
        Service::Time => is_no_time_client(from, own),
        Service::Tftp => answers_by_itself(from.port) || [own.dhcp, own.time].contains(&from.port),
    }
}

fn is_no_time_client(from: Peer, own: OwnPorts) -> bool
    ensures { IsTrue result ↔ IsReflection service.Time from own }
{
    answers_by_itself(from.port) || is_of_a_service(from.port, own) || is_no_client(from.ip.0)
}

// The ports of DHCP and TFTP, and those of the office.
fn is_of_a_service(port: u16, own: OwnPorts) -> bool
    ensures { IsTrue result ↔ Contains (67 ∷ 68 ∷ 69 ∷ own.dhcp ∷ own.time ∷ own.tftp ∷ []) port }
{
    [67, 68, 69, own.dhcp, own.time, own.tftp].contains(&port)
}

// Port 0, which nobody has, and those of echo, active users, daytime, quote of the day, chargen and
// time.
fn answers_by_itself(port: u16) -> bool
    ensures { IsTrue result ↔ AnswersByItself port }
{
    [0, 7, 11, 13, 17, 19, 37].contains(&port)
}

// 0.0.0.0/8 ("this network"), 224.0.0.0/4 (multicast) and 255.255.255.255 (RFC 6890, RFC 5771).
fn is_no_client(address: u32) -> bool
    ensures { IsTrue result ↔ IsNoClient address }
{
    address < 0x0100_0000 || (0xe000_0000..0xf000_0000).contains(&address) || address == u32::MAX
}

/// Whether a datagram is what a time service answers: four bytes that tell a moment within a day of
/// this one. No client sends them (RFC 868: it sends an empty datagram), and they are no TFTP
/// packet but an acknowledgement; so two offices whose ports are no standard ones don't answer each
/// other.
pub fn is_time_answer(datagram: &[u8], now: Moment) -> bool
    ensures { result ≡ is_time_answer datagram.now now.0 }
{
    let &[first, second, third, fourth] = datagram else {
        return false;
    };
    let told = u32::from_be_bytes([first, second, third, fourth]);
    let own = ((now.0 % 4_294_967_296) as u32).wrapping_add(BEFORE_1970);
    let behind = told.wrapping_sub(own);
    let ahead = own.wrapping_sub(told);
    behind <= NEAR || ahead <= NEAR
}

/// Whether a datagram begins as a TFTP acknowledgement (RFC 1350, section 5).
pub fn is_acknowledgement(datagram: &[u8]) -> bool
    ensures { result ≡ starts_with (λ a b. a == b) datagram.now (0 ∷ 4 ∷ []) }
{
    datagram.starts_with(&[0, 4])
}
