//! Connections that go out from an address: the calls of the system that neither std nor mio
//! offers.

ghost use Rattle.std.specs.Prelude.{◌≡◌, ◌+◌, ◌≤◌, ◌↔◌, ◌≤ℤ◌, IsOk, length, pos};
ghost use Rattle.mio.specs.SockAddr as spec;
ghost use Rattle.std.specs.Net.Socket.{socket_flowinfo, socket_ip, socket_port, socket_scope_id};

use libc::net as c;
use mio::net::TcpStream;
use os::FromRawFd;
use std::io;
use std::net::{Net, SocketAddr, SocketAddrV4, SocketAddrV6};
use std::os::fd::{AsRawFd, OwnedFd};

// How many bytes C's addresses have.
const V4_LEN: u32 = 16;

const V6_LEN: u32 = 28;

// The error of the call that has just returned this status, if it is negative.
fn check(status: i32) -> io::Result<()>
    ensures { IsOk result ↔ (pos 0 ≤ℤ status) }
{
    if status < 0 {
        Err(io::Error::from_raw_os_error(os::errno()))
    } else {
        Ok(())
    }
}

fn put(raw: &mut [u8; c::_SS_SIZE], at: usize, bytes: &[u8])
    requires { at + length bytes.now ≤ 128 }
    ensures { raw.new ≡ spec.put raw.old at bytes.now }
{
    raw[at..at + bytes.len()].copy_from_slice(bytes);
}

fn family_and_port(family: u16, port: u16) -> [u8; c::_SS_SIZE]
    ensures { result ≡ spec.family_and_port family port }
{
    let mut raw = [0u8; c::_SS_SIZE];
    put(&mut raw, 0, &family.to_ne_bytes());
    put(&mut raw, 2, &port.to_be_bytes());
    raw
}

fn encode_v4(addr: SocketAddrV4) -> [u8; c::_SS_SIZE]
    ensures { result ≡ spec.sockaddr_in addr }
{
    let mut raw = family_and_port(c::AF_INET as u16, addr.port());
    put(&mut raw, 4, &addr.ip().octets());
    raw
}

fn encode_v6(addr: SocketAddrV6) -> [u8; c::_SS_SIZE]
    ensures { result ≡ spec.sockaddr_in6 addr }
{
    let mut raw = family_and_port(c::AF_INET6 as u16, addr.port());
    put(&mut raw, 4, &addr.flowinfo().to_ne_bytes());
    put(&mut raw, 8, &addr.ip().octets());
    put(&mut raw, 24, &addr.scope_id().to_ne_bytes());
    raw
}

// An address as C has it, and how many bytes C is to read.
fn encode(addr: SocketAddr) -> ([u8; c::_SS_SIZE], u32)
    ensures bytes { result ≡ spec.sockaddr addr }
    ensures len { result.1 ≤ 128 }
{
    match addr {
        SocketAddr::V4(addr) => (encode_v4(addr), V4_LEN),
        SocketAddr::V6(addr) => (encode_v6(addr), V6_LEN),
    }
}

fn open(addr: SocketAddr) -> io::Result<OwnedFd> {
    let kind = c::SOCK_STREAM | c::SOCK_NONBLOCK | c::SOCK_CLOEXEC;
    let fd = match addr {
        SocketAddr::V4(_) => unsafe { c::socket(c::AF_INET, kind, 0) },
        SocketAddr::V6(_) => unsafe { c::socket(c::AF_INET6, kind, 0) },
    };
    check(fd)?;
    Ok(unsafe { OwnedFd::from_raw_fd(fd) })
}

// The same address with no port of its own.
fn at_any_port(addr: SocketAddr) -> SocketAddr
    ensures ip { socket_ip result ≡ socket_ip addr }
    ensures port { socket_port result ≡ 0 }
    ensures flowinfo { socket_flowinfo result ≡ socket_flowinfo addr }
    ensures scope_id { socket_scope_id result ≡ socket_scope_id addr }
{
    let mut any = addr;
    any.set_port(0);
    any
}

// Gives a socket an address, at a port that the system chooses.
fn bind(socket: &OwnedFd, from: SocketAddr) -> io::Result<()> {
    let (raw, len) = encode(at_any_port(from));
    check(unsafe { c::bind(socket.as_raw_fd(), &raw, len) })
}

/// Begins to connect from an address to another, and returns at once. From an address of the other
/// family nothing reaches it: then the system chooses.
pub fn connect_from<N: Net>(_net: &N, from: SocketAddr, to: SocketAddr) -> io::Result<TcpStream> {
    let socket = open(to)?;
    if from.is_ipv4() == to.is_ipv4() {
        bind(&socket, from)?;
    }
    let (raw, len) = encode(to);
    match check(unsafe { c::connect(socket.as_raw_fd(), &raw, len) }) {
        Err(e) if e.raw_os_error() != Some(libc::EINPROGRESS) => Err(e),
        _ => Ok(TcpStream::from(socket)),
    }
}
