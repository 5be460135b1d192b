//! The parser state, kept while a datagram is read (RFC 8966, section 4.5).

use babel_message::layout::addresses::{IPV4_LEN, IPV6_LEN, ROUTER_ID_LEN};
use babel_value::Addr;

/// What earlier TLVs of a datagram set for later ones (RFC 8966, section 4.5).
#[derive(Clone, Copy)]
pub struct ParserState {
    /// The default prefix for IPv4, as the octets of its address.
    pub default4: Option<[u8; IPV4_LEN]>,
    /// The default prefix for IPv6.
    pub default6: Option<[u8; IPV6_LEN]>,
    /// The router-id, a reserved one too.
    pub router: Option<[u8; ROUTER_ID_LEN]>,
    /// The next hop for IPv4.
    pub hop4: Option<[u8; IPV4_LEN]>,
    /// The next hop for IPv6.
    pub hop6: Option<[u8; IPV6_LEN]>,
}

impl ParserState {
    ghost use Rattle.std.specs.Prelude.{◌≡◌, []};
    ghost use Rattle.babel_packet.specs.LookBack.{before};

    /// The parser state at the first TLV of a datagram from this source. The source address is the
    /// next hop of its family.
    #[inline]
    pub fn new(source: Addr) -> ParserState
        ensures { result ≡ before source [] }
    {
        let (hop4, hop6) = match source {
            Addr::V4(octets) => (Some(octets), None),
            Addr::V6(octets) => (None, Some(octets)),
        };
        ParserState {
            default4: None,
            default6: None,
            router: None,
            hop4,
            hop6,
        }
    }
}
