//! The header by which a proxy says whose connection it hands on.

ghost use Rattle.std.specs.Prelude.{◌≡◌, ◌≤◌, ◌↔◌, IsTrue, Contains, IfSome, IfNone, Option, length, take, ◌<◌, ◌+◌};
ghost use Rattle.net_sockets.specs.ProxyHeader.{HasSpace, IsEndpoint, IsHanded, IsLine, IsNamed, IsOver, IsOverIpv4, IsOverIpv6, IsRoute, IsTold, IsWritten, Reads, ReadsFirst, ReadsSecond, port_at, rest, signature, word};
ghost use Rattle.std.specs.Net.Addr.{is_ipv6};
ghost use Rattle.std.specs.Net.Grammar.{IsIpText};
ghost use Rattle.std.specs.declared.net.ip_addr.IpAddr.{IpAddr};
ghost use Rattle.std.specs.declared.net.socket_addr.SocketAddr.{SocketAddr};
ghost use Rattle.net_sockets.specs.declared.listener.Peer.{Peer};

use crate::listener::Peer;
use std::net::{IpAddr, Ipv4Addr, Ipv6Addr, SocketAddr};
use std::str;

/// The fewest bytes of a header.
const LEAST: usize = 15;

/// The most bytes of a header of version 1.
const MOST_FIRST: usize = 107;

/// The bytes of version 2 before the addresses: the signature, the command, what the connection goes over, and how many bytes follow.
const FIXED: usize = 16;

/// The most bytes that follow them: those of two paths. More behind the addresses is refused.
const MOST_SECOND: usize = 216;

/// What a header of version 2 begins with.
const SIGNATURE: [u8; 12] = [
    0x0d, 0x0a, 0x0d, 0x0a, 0x00, 0x0d, 0x0a, 0x51, 0x55, 0x49, 0x54, 0x0a,
];

/// What the first bytes of a connection say, where its proxy says whose it is: HAProxy's PROXY protocol, version 1 (its section 2.1) and
/// version 2 (2.2).
#[derive(Clone, Copy)]
pub enum ProxyHeader {
    /// They may begin a header, of which so many bytes are to come, at least.
    Partial(usize),
    /// They are a header. `None`: the connection is the proxy's own, or it doesn't say whose.
    Whole(Option<Peer>),
    /// No header begins with them.
    Malformed,
}

impl ProxyHeader {
    /// What these bytes say. A header has 15 to 232 bytes.
    pub fn read(bytes: &[u8]) -> ProxyHeader
        ensures { Reads bytes.now result }
    {
        if bytes.len() < LEAST {
            return ProxyHeader::Partial(LEAST - bytes.len());
        }
        match bytes[0] {
            b'P' => read_first(bytes),
            0x0d => read_second(bytes),
            _ => ProxyHeader::Malformed,
        }
    }
}

/// What these bytes say, as a header of version 1: a line.
fn read_first(bytes: &[u8]) -> ProxyHeader
    requires { 15 ≤ length bytes.now }
    ensures { ReadsFirst bytes.now result }
{
    let length = bytes.len() - 2;
    if bytes[length] != b'\r' || bytes[bytes.len() - 1] != b'\n' {
        return if bytes.len() < MOST_FIRST {
            ProxyHeader::Partial(1)
        } else {
            ProxyHeader::Malformed
        };
    }
    if bytes.len() > MOST_FIRST || has_feed(&bytes[..length]) {
        return ProxyHeader::Malformed;
    }
    match peer_of_line(&bytes[..length]) {
        Some(peer) => ProxyHeader::Whole(peer),
        None => ProxyHeader::Malformed,
    }
}

/// Whether a line feed is among these bytes.
fn has_feed(line: &[u8]) -> bool
    ensures { IsTrue result ↔ Contains line.now 10 }
{
    line.contains(&b'\n')
}

/// Whose connection a line says that it is.
fn peer_of_line(line: &[u8]) -> Option<Option<Peer>>
    ensures named { IfSome result (λ peer. IsLine line.now peer) }
    ensures unnamed { IfNone result ((peer : Option Peer) → IsLine line.now peer → ⊥) }
{
    match str::from_utf8(line) {
        Ok(text) => peer_of_text(text),
        Err(_) => None,
    }
}

/// Whose connection a text says that it is: `PROXY`, a space, `UNKNOWN` and anything, or `TCP4` or `TCP6` and the two ends.
fn peer_of_text(text: &str) -> Option<Option<Peer>>
    ensures named { IfSome result (λ peer. IsWritten text.now peer) }
    ensures unnamed { IfNone result ((peer : Option Peer) → IsWritten text.now peer → ⊥) }
{
    let (proxy, rest) = cut(text)?;
    if proxy == "PROXY" {
        return told_by(rest);
    }
    None
}

/// Whose connection it is, by what stands behind `PROXY`.
fn told_by(text: &str) -> Option<Option<Peer>>
    ensures named { IfSome result (λ peer. IsTold text.now peer) }
    ensures unnamed { IfNone result ((peer : Option Peer) → IsTold text.now peer → ⊥) }
{
    if first_word(text) == "UNKNOWN" {
        return Some(None);
    }
    let (family, ends) = cut(text)?;
    over(family, ends)
}

/// The sender of a connection, by what it goes over and its two ends.
fn over(family: &str, ends: &str) -> Option<Option<Peer>>
    ensures named { IfSome result (λ peer. IsOver family.now ends.now peer) }
    ensures unnamed { IfNone result ((peer : Option Peer) → IsOver family.now ends.now peer → ⊥) }
{
    if family == "TCP4" {
        return route(ends, false);
    }
    if family == "TCP6" {
        return route(ends, true);
    }
    None
}

/// The word that a text begins with, up to a space.
fn first_word(text: &str) -> &str
    ensures { result.now ≡ word text.now }
{
    match text.split_once(' ') {
        Some((word, _)) => word,
        None => text,
    }
}

/// The word that a text begins with, and what follows the space behind it, if it has one.
fn cut(text: &str) -> Option<(&str, &str)>
    ensures found { IfSome result (λ it. HasSpace text.now × (it.0.now ≡ word text.now) × (it.1.now ≡ rest text.now)) }
    ensures uncut { IfNone result (HasSpace text.now → ⊥) }
{
    text.split_once(' ')
}

/// The sender of a connection by its two ends: the addresses of the sender and of the receiver, and their ports.
fn route(ends: &str, is_ipv6: bool) -> Option<Option<Peer>>
    ensures named { IfSome result (λ peer. IsRoute is_ipv6 ends.now peer) }
    ensures unnamed { IfNone result ((peer : Option Peer) → IsRoute is_ipv6 ends.now peer → ⊥) }
{
    let (sender, rest) = cut(ends)?;
    let (receiver, ports) = cut(rest)?;
    let (from, to) = cut(ports)?;
    let address = endpoint(sender, from, is_ipv6)?;
    endpoint(receiver, to, is_ipv6)?;
    Some(Some(Peer::Tcp(address)))
}

/// One end of a connection, by its address and its port.
fn endpoint(ip: &str, port: &str, is_ipv6: bool) -> Option<SocketAddr>
    ensures named { IfSome result (λ address. IsEndpoint is_ipv6 ip.now port.now address) }
    ensures unnamed { IfNone result ((address : SocketAddr) → IsEndpoint is_ipv6 ip.now port.now address → ⊥) }
{
    let ip = ip_of(ip, is_ipv6)?;
    let port = port.parse::<u16>().ok()?;
    Some(SocketAddr::new(ip, port))
}

/// The address of IPv6, or of IPv4, that a text writes.
fn ip_of(text: &str, is_six: bool) -> Option<IpAddr>
    ensures named { IfSome result (λ ip. IsIpText text.now ip × (is_ipv6 ip ≡ is_six)) }
    ensures unnamed { IfNone result ((ip : IpAddr) → IsIpText text.now ip → is_ipv6 ip ≡ is_six → ⊥) }
{
    if is_six {
        return Some(IpAddr::V6(text.parse::<Ipv6Addr>().ok()?));
    }
    Some(IpAddr::V4(text.parse::<Ipv4Addr>().ok()?))
}

/// What these bytes say, as a header of version 2.
fn read_second(bytes: &[u8]) -> ProxyHeader
    requires { 15 ≤ length bytes.now }
    ensures { ReadsSecond bytes.now result }
{
    if bytes.len() < FIXED {
        return ProxyHeader::Partial(FIXED - bytes.len());
    }
    let whole = FIXED + port_at(bytes, 14) as usize;
    if whole > FIXED + MOST_SECOND || bytes.len() > whole {
        return ProxyHeader::Malformed;
    }
    if !is_signed(bytes) {
        return ProxyHeader::Malformed;
    }
    if bytes.len() < whole {
        return ProxyHeader::Partial(whole - bytes.len());
    }
    match peer_by(bytes[12], bytes[13], &bytes[FIXED..]) {
        Some(peer) => ProxyHeader::Whole(peer),
        None => ProxyHeader::Malformed,
    }
}

/// Whether the signature of version 2 is what these bytes begin with.
fn is_signed(bytes: &[u8]) -> bool
    ensures { IsTrue result ↔ (take 12 bytes.now ≡ signature) }
{
    bytes.starts_with(&SIGNATURE)
}

/// Whose connection it is, by the command, what it goes over, and the addresses.
fn peer_by(command: u8, family: u8, addresses: &[u8]) -> Option<Option<Peer>>
    ensures named { IfSome result (λ peer. IsNamed command family addresses.now peer) }
    ensures unnamed { IfNone result ((peer : Option Peer) → IsNamed command family addresses.now peer → ⊥) }
{
    match command {
        0x20 => Some(None),
        0x21 => handed_on(family, addresses),
        _ => None,
    }
}

/// The sender of a connection that is handed on, by what it goes over, and the addresses.
fn handed_on(family: u8, addresses: &[u8]) -> Option<Option<Peer>>
    ensures named { IfSome result (λ peer. IsHanded family addresses.now peer) }
    ensures unnamed { IfNone result ((peer : Option Peer) → IsHanded family addresses.now peer → ⊥) }
{
    match family {
        0x00 => Some(None),
        0x11 => over_ipv4(addresses),
        0x21 => over_ipv6(addresses),
        0x31 if addresses.len() >= MOST_SECOND => Some(Some(Peer::Unix)),
        _ => None,
    }
}

/// The sender of a connection over IPv4.
fn over_ipv4(addresses: &[u8]) -> Option<Option<Peer>>
    ensures named { IfSome result (λ peer. IsOverIpv4 addresses.now peer) }
    ensures unnamed { IfNone result ((peer : Option Peer) → IsOverIpv4 addresses.now peer → ⊥) }
{
    if addresses.len() < 12 {
        return None;
    }
    let octets = addresses.first_chunk::<4>()?;
    let ip = Ipv4Addr::from_octets(*octets);
    Some(Some(Peer::Tcp(SocketAddr::new(IpAddr::V4(ip), port_at(addresses, 8)))))
}

/// The sender of a connection over IPv6.
fn over_ipv6(addresses: &[u8]) -> Option<Option<Peer>>
    ensures named { IfSome result (λ peer. IsOverIpv6 addresses.now peer) }
    ensures unnamed { IfNone result ((peer : Option Peer) → IsOverIpv6 addresses.now peer → ⊥) }
{
    if addresses.len() < 36 {
        return None;
    }
    let octets = addresses.first_chunk::<16>()?;
    let ip = Ipv6Addr::from_octets(*octets);
    Some(Some(Peer::Tcp(SocketAddr::new(IpAddr::V6(ip), port_at(addresses, 32)))))
}

/// The number that two bytes write, the high one first.
fn port_at(bytes: &[u8], place: usize) -> u16
    requires { place + 1 < length bytes.now }
    ensures { result ≡ port_at bytes.now place }
{
    u16::from_be_bytes([bytes[place], bytes[place + 1]])
}
