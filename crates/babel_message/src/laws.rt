//! Laws of the definitions, each the contract of an empty function.

ghost use Rattle.std.specs.Prelude.{◌≡◌};
ghost use Rattle.babel_message.specs.Layout as standard;
ghost use Rattle.babel_message.specs.declared.layout.header.TheConstants as header;
ghost use Rattle.babel_message.specs.declared.layout.kinds.TheConstants as kinds;
ghost use Rattle.babel_message.specs.declared.layout.addresses.TheConstants as addresses;
ghost use Rattle.babel_message.specs.declared.layout.ack_request.TheConstants as ack_request;
ghost use Rattle.babel_message.specs.declared.layout.ack.TheConstants as ack;
ghost use Rattle.babel_message.specs.declared.layout.hello.TheConstants as hello;
ghost use Rattle.babel_message.specs.declared.layout.ihu.TheConstants as ihu;
ghost use Rattle.babel_message.specs.declared.layout.router_id.TheConstants as router_id;
ghost use Rattle.babel_message.specs.declared.layout.next_hop.TheConstants as next_hop;
ghost use Rattle.babel_message.specs.declared.layout.update.TheConstants as update;
ghost use Rattle.babel_message.specs.declared.layout.route_request.TheConstants as route_request;
ghost use Rattle.babel_message.specs.declared.layout.seqno_request.TheConstants as seqno_request;

/// The constants of the code are the numbers of the definitions.
pub fn layout_is_standard()
    ensures header { (header.MAGIC ≡ standard.magic) × (header.VERSION ≡ standard.version)
        × (header.MAGIC_AT ≡ standard.magic_at) × (header.VERSION_AT ≡ standard.version_at)
        × (header.BODY_LEN_AT ≡ standard.body_len_at) × (header.LEN ≡ standard.datagram_header_len) }
    ensures kinds { (kinds.PAD_N ≡ standard.pad_n) × (kinds.ACK_REQUEST ≡ standard.ack_request) × (kinds.ACK ≡ standard.ack)
        × (kinds.HELLO ≡ standard.hello) × (kinds.IHU ≡ standard.ihu) × (kinds.ROUTER_ID ≡ standard.router_id)
        × (kinds.NEXT_HOP ≡ standard.next_hop) × (kinds.UPDATE ≡ standard.update)
        × (kinds.ROUTE_REQUEST ≡ standard.route_request) × (kinds.SEQNO_REQUEST ≡ standard.seqno_request)
        × (kinds.MANDATORY ≡ standard.mandatory) }
    ensures addresses { (addresses.AE_WILDCARD ≡ standard.ae_wildcard) × (addresses.AE_IPV4 ≡ standard.ae_ipv4)
        × (addresses.AE_IPV6 ≡ standard.ae_ipv6) × (addresses.AE_LINK_LOCAL ≡ standard.ae_link_local)
        × (addresses.IPV4_LEN ≡ standard.ipv4_len) × (addresses.IPV6_LEN ≡ standard.ipv6_len)
        × (addresses.LINK_LOCAL_LEN ≡ standard.link_local_len) × (addresses.ROUTER_ID_LEN ≡ standard.router_id_len) }
    ensures ack_request { (ack_request.OPAQUE ≡ standard.ack_request_opaque)
        × (ack_request.INTERVAL ≡ standard.ack_request_interval) × (ack_request.LEN ≡ standard.ack_request_len) }
    ensures ack { (ack.OPAQUE ≡ standard.ack_opaque) × (ack.LEN ≡ standard.ack_len) }
    ensures hello { (hello.FLAGS ≡ standard.hello_flags) × (hello.SEQNO ≡ standard.hello_seqno)
        × (hello.INTERVAL ≡ standard.hello_interval) × (hello.LEN ≡ standard.hello_len)
        × (hello.UNICAST ≡ standard.hello_unicast) }
    ensures ihu { (ihu.AE ≡ standard.ihu_ae) × (ihu.RXCOST ≡ standard.ihu_rxcost) × (ihu.INTERVAL ≡ standard.ihu_interval)
        × (ihu.LEN ≡ standard.ihu_len) }
    ensures router_id { (router_id.VALUE ≡ standard.router_id_value) × (router_id.LEN ≡ standard.router_id_tlv_len) }
    ensures next_hop { (next_hop.AE ≡ standard.next_hop_ae) × (next_hop.LEN ≡ standard.next_hop_len) }
    ensures update { (update.AE ≡ standard.update_ae) × (update.FLAGS ≡ standard.update_flags)
        × (update.PLEN ≡ standard.update_plen) × (update.OMITTED ≡ standard.update_omitted)
        × (update.INTERVAL ≡ standard.update_interval) × (update.SEQNO ≡ standard.update_seqno)
        × (update.METRIC ≡ standard.update_metric) × (update.LEN ≡ standard.update_len)
        × (update.SETS_PREFIX ≡ standard.update_sets_prefix) × (update.SETS_ROUTER_ID ≡ standard.update_sets_router_id) }
    ensures route_request { (route_request.AE ≡ standard.route_request_ae) × (route_request.PLEN ≡ standard.route_request_plen)
        × (route_request.LEN ≡ standard.route_request_len) }
    ensures seqno_request { (seqno_request.AE ≡ standard.seqno_request_ae) × (seqno_request.PLEN ≡ standard.seqno_request_plen)
        × (seqno_request.SEQNO ≡ standard.seqno_request_seqno) × (seqno_request.HOPS ≡ standard.seqno_request_hops)
        × (seqno_request.ROUTER_ID ≡ standard.seqno_request_router_id) × (seqno_request.LEN ≡ standard.seqno_request_len) }
{}
