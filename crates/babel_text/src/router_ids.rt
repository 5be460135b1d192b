//! Router-ids.

ghost use Rattle.babel_text.specs.Readings.{Reads};
ghost use Rattle.babel_text.specs.RouterIds.{IsRouterIdText};

/// The octets of a router-id: 16 hexadecimal digits of either case. The two reserved router-ids are
/// read too.
pub fn parse_router_id(text: &str) -> Option<[u8; 8]>
    ensures { Reads IsRouterIdText text.now result }
{
    let mut octets = [0; 8];
    match hex::decode_to_slice(text.as_bytes(), &mut octets) {
        Ok(()) => Some(octets),
        Err(_) => None,
    }
}
