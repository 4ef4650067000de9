use off_base::Ip4;
use off_host::{Addresses, Log, OpenErr, SocketLink};
use off_outside::{Link, Service, What};
use std::alloc::Global;
use std::io::{self, Write};
use std::net::{Ipv4Addr, SocketAddr, TcpListener, TcpStream, UdpSocket};
use std::test::Fail;

// 127.0.0.1.
const LOOPBACK: Ip4 = Ip4(0x7f00_0001);

// The beginning of a clerk's request.
const REQUEST: [u8; 20] = *b"GET /site HTTP/1.1\r\n";

// A port of this machine. At port 0 the system chooses one.
fn here(port: u16) -> SocketAddr {
    SocketAddr::from((Ipv4Addr::LOCALHOST, port))
}

// A port that was free for datagrams, as the system tells, so that two runs at once don't clash.
fn free_for_datagrams(rt: &HostRuntime) -> io::Result<u16> {
    Ok(UdpSocket::bind(rt, here(0))?.local_addr()?.port())
}

// A port that was free for connections.
fn free_for_connections(rt: &HostRuntime) -> io::Result<u16> {
    Ok(TcpListener::bind(rt, here(0))?.local_addr()?.port())
}

// A link that hears this machine alone, on ports in the order DHCP, time, TFTP, HTTP.
fn opened(rt: &HostRuntime, ports: &[u16; 4]) -> Option<SocketLink> {
    let addresses = Addresses {
        udp: LOOPBACK,
        http: LOOPBACK,
    };
    let Ok(log) = Log::new(rt) else { return None };
    match SocketLink::open(rt, addresses, ports, log) {
        Ok(link) => Some(link),
        Err(OpenErr::Memory | OpenErr::Socket) => None,
    }
}

// The next thing that happens but time that passes, which is waited for some seconds.
fn heard(alloc: Global, link: &mut SocketLink) -> Option<What> {
    for _ in 0..8 {
        match link.next(alloc) {
            Ok(event) => match event.what {
                What::Tick => {}
                what => return Some(what),
            },
            Err(_failed) => return None,
        }
    }
    None
}

// An empty datagram of this machine to the time port asks for the time (RFC 868).
fn is_question(what: &What) -> bool {
    match what {
        What::Datagram {
            service,
            from,
            bytes,
        } => *service == Service::Time && from.ip.0 == LOOPBACK.0 && bytes.is_empty(),
        _ => false,
    }
}

fn is_request(what: &What) -> bool {
    match what {
        What::Piece { conn: _, bytes } => bytes.as_slice() == REQUEST.as_slice(),
        _ => false,
    }
}

#[test]
fn a_question_for_the_time_is_heard(rt: HostRuntime) -> Result<(), Fail> {
    let port = free_for_datagrams(&rt)?;
    let Some(mut link) = opened(&rt, &[0, port, 0, 0]) else {
        return Err(Fail::from("the sockets can't be opened"));
    };
    let client = UdpSocket::bind(&rt, here(0))?;
    client.send_to(&[], here(port))?;
    let Some(what) = heard(rt.alloc(), &mut link) else {
        return Err(Fail::from("nothing was heard"));
    };
    assert!(rt; is_question(&what));
    Ok(())
}

#[test]
fn a_piece_of_a_request_is_heard(rt: HostRuntime) -> Result<(), Fail> {
    let port = free_for_connections(&rt)?;
    let Some(mut link) = opened(&rt, &[0, 0, 0, port]) else {
        return Err(Fail::from("the sockets can't be opened"));
    };
    let mut clerk = TcpStream::connect(&rt, here(port))?;
    clerk.write_all(&REQUEST)?;
    let Some(what) = heard(rt.alloc(), &mut link) else {
        return Err(Fail::from("nothing was heard"));
    };
    assert!(rt; is_request(&what));
    Ok(())
}
