//! The service ids of sockets.
ghost use Rattle.std.specs.Prelude.{◌≡◌, ◌≢◌, ℕ, MatchOption};
ghost use Rattle.contact.specs.Services.{service_id};

/// The service id of a port, by which a guest asks for a socket's channel: the port, and then what
/// all ports share (`srv_id_template` in Linux's net/vmw_vsock/hyperv_transport.c).
pub fn service_id(port: u32) -> [u8; 16]
    ensures { result ≡ service_id port }
{
    let [a, b, c, d] = port.to_le_bytes();
    [
        a, b, c, d, 0xcb, 0xfa, 0xe6, 0x11, 0xbd, 0x58, 0x64, 0x00, 0x6a, 0x79, 0x86, 0xd3,
    ]
}

/// The port with this service id, if one has it.
pub fn port_in(id: &[u8; 16]) -> Option<u32>
    ensures { MatchOption result ((port : ℕ) → id.now ≢ service_id port) (λ port. id.now ≡ service_id port) }
{
    let port = u32::from_le_bytes([id[0], id[1], id[2], id[3]]);
    if *id == service_id(port) {
        Some(port)
    } else {
        None
    }
}
