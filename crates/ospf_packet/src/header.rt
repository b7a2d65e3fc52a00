// The first fields of a packet's header (RFC 2328 section A.3.1).
ghost use Rattle.std.specs.Prelude.{◌≡◌, ◌<◌, ◌≤◌, ◌^◌, length};
ghost use Rattle.rcp_base.specs.OspfPackets.{packet_header_len, packet_len as len_of, is_faultless as faultless};

/// The octets of a header.
pub const HEADER_LEN: usize = 24;

/// The most octets that a packet can have.
pub const PACKET_MAX: usize = 65_535;

const VERSION: u8 = 2;

const LINK_STATE_UPDATE: u8 = 4;

const LEAST_UPDATE: usize = 28;

/// The length in the header.
pub fn packet_len(header: &[u8]) -> usize
    requires { packet_header_len ≤ length header.now }
    ensures length { result ≡ len_of header.now }
    ensures fits { result < 2 ^ 16 }
{
    usize::from(u16::from_be_bytes([header[2], header[3]]))
}

/// Whether a packet can have this header.
pub fn is_faultless(header: &[u8]) -> bool
    requires { packet_header_len ≤ length header.now }
    ensures { result ≡ faultless header.now }
{
    let least = if header[1] == LINK_STATE_UPDATE {
        LEAST_UPDATE
    } else {
        HEADER_LEN
    };
    header[0] == VERSION && least <= packet_len(header)
}
