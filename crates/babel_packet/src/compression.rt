//! The law of messages in few octets, as the contract of a function that does nothing.

ghost use Rattle.std.specs.Prelude.{◌≡◌, ◌≤◌, ℕ, List, [], ◌∷◌, ◌++◌, None, true, length};
ghost use Rattle.babel_value.specs.declared.addresses.Addr.{Addr};
ghost use Rattle.babel_tlv.specs.Split.{fault_of};
ghost use Rattle.babel_message.specs.declared.messages.Message.{Message};
ghost use Rattle.babel_packet.specs.declared.parser_state.ParserState.{ParserState};
ghost use Rattle.babel_packet.specs.Encodable.{is_encodable, IsMessage};
ghost use Rattle.babel_packet.specs.BodyMeanings.{BodyMeans, state_after};
ghost use Rattle.babel_packet.specs.Compressed.{compressed, state_with, max_message_len};

use babel_tlv::laws::put_is_one_more;

/// The compressed TLVs of a message mean that message to a reader of the body before them (RFC
/// 8966, sections 4.5 and 4.6). They leave the body whole, and change what the reader keeps as
/// `state_with` defines it, even if the message can't be encoded. They take a bounded number of
/// octets.
#[inline]
pub fn compressed_is_read()
    ensures message { (source : Addr) (body : List ℕ) (decoded : List Message) (message : Message) → BodyMeans source body decoded
        → IsMessage message → is_encodable message ≡ true
        → BodyMeans source (body ++ compressed (state_after source body) message) (decoded ++ message ∷ []) }
    ensures state { (source : Addr) (body : List ℕ) (message : Message) → fault_of body ≡ None → IsMessage message
        → (fault_of (body ++ compressed (state_after source body) message) ≡ None)
        × (state_after source (body ++ compressed (state_after source body) message) ≡ state_with (state_after source body) message) }
    ensures short { (state : ParserState) (message : Message) → IsMessage message → length (compressed state message) ≤ max_message_len }
{
    put_is_one_more();
}
