//! The endpoints of a registry: an IP address and a port in numbers, or a host's name and a port.
use std::net::{Net, SocketAddr, ToSocketAddrs};
use std::str;

/// The address that an endpoint spells in numbers; None of a name.
pub(crate) fn address_of(endpoint: &[u8]) -> Option<SocketAddr> {
    str::from_utf8(endpoint).ok()?.parse::<SocketAddr>().ok()
}

/// The first address that is found under the name of an endpoint. The look-up waits as long as the system does.
pub(crate) fn look_up<N: Net>(net: &N, endpoint: &[u8]) -> Option<SocketAddr> {
    let text = str::from_utf8(endpoint).ok()?;
    text.to_socket_addrs(net).ok()?.next()
}

fn is_host_byte(byte: u8) -> bool {
    byte.is_ascii_alphanumeric() || byte == b'-' || byte == b'.'
}

fn is_name(text: &str) -> bool {
    match text.rsplit_once(':') {
        Some((host, port)) => {
            !host.is_empty()
                && host.as_bytes().iter().all(|byte| is_host_byte(*byte))
                && port.parse::<u16>().is_ok()
        }
        None => false,
    }
}

/// Whether an endpoint is an address and a port in numbers, or a name and a port.
pub(crate) fn is_endpoint(endpoint: &[u8]) -> bool {
    match str::from_utf8(endpoint) {
        Ok(text) => address_of(endpoint).is_some() || is_name(text),
        Err(_) => false,
    }
}
