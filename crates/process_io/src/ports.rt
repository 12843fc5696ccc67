use crate::fault::ResourceFault;
use std::net::{Net, TcpListener, TcpStream};

/// A listener on a port of 127.0.0.1.
pub fn listener<'a, S: Net<Listener = TcpListener, Stream = TcpStream>>(
    system: &S,
    port: u16,
) -> Result<TcpListener, ResourceFault<'a>> {
    TcpListener::bind(system, ("127.0.0.1", port)).map_err(|error| ResourceFault::Port(port, error))
}
