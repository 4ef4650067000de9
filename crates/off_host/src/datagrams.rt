ghost use Rattle.std.specs.Prelude.{◌≡◌, false};
ghost use Rattle.std.specs.Net.Addr.{ipv4_bits};
ghost use Rattle.std.specs.Net.Socket.{v4_ip, v4_port};
ghost use Rattle.off_peers.specs.Reflections.{IsReflection};
ghost use Rattle.off_host.specs.Heard.{is_taken, rows_after, GivesDatagram, IsSocketAddress};

use crate::addresses::Addresses;
use crate::system::ask_for_room;
use crate::watching::Watched;
use mio::net::UdpSocket;
use mio::{Interest, Registry};
use off_base::{Bytes, Ip4, Moment, NoMemory, Peer};
use off_outside::{Failed, Service, What};
use off_peers::{
    OwnPorts, PortTable, is_acknowledgement, is_forged, is_reflection, is_time_answer,
};
use std::alloc::Global;
use std::io::{self, ErrorKind};
use std::net::{Ipv4Addr, SocketAddr, SocketAddrV4};
use std::os::fd::AsRawFd;

// How many bytes of a datagram are taken; the rest of a longer one is lost.
const ROOM: usize = 2048;

// How many datagrams are dropped before another socket is asked.
const MOST_DROPPED: u32 = 16;

// How many bytes of datagrams may wait at a socket: some seconds of all modems of a town, where the
// system allows it.
const WAITING_BYTES: i32 = 33_554_432;

/// What a socket had.
#[derive(Drop)]
pub enum Asked {
    Gave(What),
    /// Nothing for now.
    Quiet,
    /// Something that makes no event, and perhaps more behind it.
    Dropped,
}

/// The socket of a service, and whether a datagram may have come: `poll` has told of one, and no
/// read has found none since.
#[derive(Drop)]
struct Port {
    socket: UdpSocket,
    may_have: bool,
    // Where a datagram is put that is read.
    room: [u8; ROOM],
}

/// One UDP socket for each service.
#[derive(Drop)]
pub struct Datagrams {
    sockets: Sockets,
    own: OwnPorts,
    // Which ports of clients the TFTP port hears.
    heard: PortTable,
}

#[derive(Drop)]
struct Sockets {
    dhcp: Port,
    time: Port,
    tftp: Port,
}

impl Datagrams {
    /// Opens the sockets, on ports in the order DHCP, time, TFTP.
    pub fn open(
        rt: &HostRuntime,
        registry: &Registry,
        address: Ip4,
        own: OwnPorts,
        heard: PortTable,
    ) -> io::Result<Datagrams> {
        let dhcp = Port::open(rt, registry, address, own.dhcp, Service::Dhcp)?;
        // A refusal to a client that has no address goes to 255.255.255.255.
        dhcp.socket.set_broadcast(true)?;
        let time = Port::open(rt, registry, address, own.time, Service::Time)?;
        let tftp = Port::open(rt, registry, address, own.tftp, Service::Tftp)?;
        Ok(Datagrams {
            sockets: Sockets { dhcp, time, tftp },
            own,
            heard,
        })
    }

    /// Whether a datagram may have come.
    pub fn may_have(&self, service: Service) -> bool {
        self.sockets.port(service).may_have
    }

    /// Whether a datagram may have come for some service.
    pub fn may_have_any(&self) -> bool {
        [Service::Dhcp, Service::Time, Service::Tftp]
            .iter()
            .any(|service| self.may_have(*service))
    }

    /// Takes it that a datagram has come for a service.
    pub fn hear(&mut self, service: Service) {
        self.sockets.port_mut(service).may_have = true;
    }

    /// The next datagram of a service, if one has come. One for which memory was refused is
    /// dropped.
    pub fn ask(&mut self, alloc: Global, service: Service, now: Moment) -> Result<Asked, Failed> {
        let own = self.own;
        let port = self.sockets.port_mut(service);
        for _attempt in 0..MOST_DROPPED {
            match port.socket.recv_from(&mut port.room) {
                Ok((count, SocketAddr::V4(address))) => {
                    let from = peer_at(address);
                    let datagram = &port.room[..count];
                    if takes(service, from, datagram, own, now, &mut self.heard) {
                        return Ok(gave(alloc, service, from, datagram));
                    }
                }
                Ok((_count, SocketAddr::V6(_address))) => {}
                Err(error) => match error.kind() {
                    ErrorKind::WouldBlock => {
                        port.may_have = false;
                        return Ok(Asked::Quiet);
                    }
                    ErrorKind::Interrupted => {}
                    _ => return Err(Failed),
                },
            }
        }
        Ok(Asked::Dropped)
    }

    /// Sends a datagram, and tells whether all of it went out.
    pub fn send(&self, service: Service, to: Peer, bytes: &[u8]) -> bool {
        let address = socket_address(to.ip, to.port);
        match self.sockets.port(service).socket.send_to(bytes, address) {
            Ok(count) => count == bytes.len(),
            Err(_error) => false,
        }
    }
}

impl Sockets {
    fn port(&self, service: Service) -> &Port {
        match service {
            Service::Dhcp => &self.dhcp,
            Service::Time => &self.time,
            Service::Tftp => &self.tftp,
        }
    }

    fn port_mut(&mut self, service: Service) -> &mut Port {
        match service {
            Service::Dhcp => &mut self.dhcp,
            Service::Time => &mut self.time,
            Service::Tftp => &mut self.tftp,
        }
    }
}

impl Port {
    fn open(
        rt: &HostRuntime,
        registry: &Registry,
        address: Ip4,
        number: u16,
        service: Service,
    ) -> io::Result<Port> {
        let mut socket = UdpSocket::bind(rt, socket_address(address, number))?;
        ask_for_room(socket.as_raw_fd(), WAITING_BYTES);
        registry.register(
            &mut socket,
            Watched::Datagrams(service).token(),
            Interest::READABLE,
        )?;
        Ok(Port {
            socket,
            may_have: true,
            room: [0; ROOM],
        })
    }
}

/// An address and a port as std has them.
pub fn socket_address(ip: Ip4, port: u16) -> SocketAddr
    ensures { IsSocketAddress result ip port }
{
    SocketAddr::V4(SocketAddrV4::new(Ipv4Addr::from_bits(ip.0), port))
}

fn peer_at(address: SocketAddrV4) -> Peer
    ensures ip { result.ip.0 ≡ ipv4_bits (v4_ip address) }
    ensures port { result.port ≡ v4_port address }
{
    Peer {
        ip: Ip4(address.ip().to_bits()),
        port: address.port(),
    }
}

// Whether a datagram becomes an event. One to the TFTP port that is of the service may open a port of
// its sender.
fn takes(
    service: Service,
    from: Peer,
    datagram: &[u8],
    own: OwnPorts,
    now: Moment,
    heard: &mut PortTable,
) -> bool
    ensures refused { IsReflection service from own
        → (result ≡ false) × (heard.new ≡ heard.old) }
    ensures taken { ¬ (IsReflection service from own)
        → result ≡ is_taken service from datagram.now now.0 heard.old }
    ensures known { ¬ (IsReflection service from own)
        → heard.new ≡ rows_after service from datagram.now now.0 heard.old }
{
    if is_reflection(service, from, own) {
        return false;
    }
    match service {
        Service::Dhcp => !is_forged(datagram, from.ip),
        Service::Time => !is_time_answer(datagram, now),
        // An acknowledgement tells a time of some hours in 2036 alone, and is taken then too.
        Service::Tftp => {
            (is_acknowledgement(datagram) || !is_time_answer(datagram, now))
                && heard.hear(from, now)
        }
    }
}

fn gave(alloc: Global, service: Service, from: Peer, datagram: &[u8]) -> Asked
    ensures { GivesDatagram service from datagram.now result }
{
    let mut bytes = Bytes::new(alloc);
    match bytes.push_all(datagram) {
        Ok(()) => Asked::Gave(What::Datagram {
            service,
            from,
            bytes,
        }),
        Err(NoMemory) => Asked::Dropped,
    }
}
