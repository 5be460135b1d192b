//! What became of a datagram or a cost, and the datagrams that are sent.

ghost use Rattle.std.specs.Prelude.{◌≡◌, ◌+◌, ◌≤◌, ◌++◌, length};
ghost use Rattle.babel_value.specs.Lines.{line_room};
ghost use Rattle.babel_state.specs.Codes.{set_cost_code};
ghost use Rattle.babel_replay.specs.Texts.{cost_refused_text, line, longest_moment, moment_text, out_text, refusal_text, refused_text, target_text, tlv_line, verdict_after, verdict_text};

use crate::lines::parts::push_distance;
use babel_message::{Content, Placed};
use babel_state::{RecvFault, SetCostFault, Target, Verdict};
use babel_value::Line;

/// The line becomes the moment with which each line of a datagram begins.
pub fn set_moment(line: &mut Line, time: u64)
    ensures text { line.new ≡ moment_text time }
    ensures short { length line.new ≤ longest_moment }
{
    line.truncate(0);
    line.push_u64(time);
    line.push_str(" ");
}

/// Appends what became of a TLV to the moment: a message with its verdict, `state`, or `ignored`
/// and the reason.
pub fn push_tlv(line: &mut Line, placed: &Placed, verdict: &Verdict)
    requires room { length line.old ≤ longest_moment }
    ensures { line.new ≡ line.old ++ tlv_line placed.now verdict.now }
{
    placed.push_to(line);
    push_verdict_after(line, &placed.content, verdict);
    line.push_str("\n");
}

/// Appends the verdict after a message.
fn push_verdict_after(line: &mut Line, content: &Content, verdict: &Verdict)
    requires room { length line.old + 17 ≤ line_room }
    ensures text { line.new ≡ line.old ++ verdict_after content.now verdict.now }
    ensures short { length line.new ≤ length line.old + 17 }
{
    if let Content::Message(_) = content {
        line.push_str(" ");
        push_verdict(line, verdict);
    }
}

/// Appends `V1` to `V9`, with the distance after `V2`.
fn push_verdict(line: &mut Line, verdict: &Verdict)
    requires room { length line.old + 16 ≤ line_room }
    ensures text { line.new ≡ line.old ++ verdict_text verdict.now }
    ensures short { length line.new ≤ length line.old + 16 }
{
    match verdict {
        Verdict::State => line.push_str("state"),
        Verdict::Ignored(reason) => {
            line.push_str("ignored ");
            reason.push_to(line);
        }
        Verdict::Taken => line.push_str("V1"),
        Verdict::Unfeasible(distance) => {
            line.push_str("V2 ");
            push_distance(line, distance);
        }
        Verdict::OwnRouterId => line.push_str("V3"),
        Verdict::UnknownNeighbour => line.push_str("V4"),
        Verdict::TableFull => line.push_str("V5"),
        Verdict::OtherAddress => line.push_str("V6"),
        Verdict::NoEntry => line.push_str("V7"),
        Verdict::Redundant => line.push_str("V8"),
        Verdict::NotForwarded => line.push_str("V9"),
    }
}

/// The line becomes that of a datagram that was refused.
pub fn set_refused(text: &mut Line, time: u64, fault: RecvFault)
    ensures { text.new ≡ line (refused_text time fault) }
{
    text.truncate(0);
    text.push_u64(time);
    text.push_str(" refused ");
    push_refusal(text, fault);
    text.push_str("\n");
}

/// Appends the code of the fault, with the offset after `P5`.
fn push_refusal(line: &mut Line, fault: RecvFault)
    requires room { length line.old + 23 ≤ line_room }
    ensures text { line.new ≡ line.old ++ refusal_text fault }
    ensures short { length line.new ≤ length line.old + 23 }
{
    match fault {
        RecvFault::NoInterface => line.push_str("S1"),
        RecvFault::ForeignSource => line.push_str("S2"),
        RecvFault::OwnSource => line.push_str("S3"),
        RecvFault::Refused(refusal) => refusal.code().push_to(line),
    }
}

/// The line becomes that of a cost that was refused.
pub fn set_cost_refused(text: &mut Line, time: u64, fault: SetCostFault)
    ensures { text.new ≡ line (cost_refused_text time fault) }
{
    text.truncate(0);
    text.push_u64(time);
    text.push_str(" refused ");
    push_cost_refusal(text, fault);
    text.push_str("\n");
}

/// Appends the code of the fault.
fn push_cost_refusal(line: &mut Line, fault: SetCostFault)
    requires room { length line.old + 2 ≤ line_room }
    ensures text { line.new ≡ line.old ++ set_cost_code fault }
    ensures short { length line.new ≤ length line.old + 2 }
{
    match fault {
        SetCostFault::NoInterface => line.push_str("E1"),
        SetCostFault::CostOutOfRange => line.push_str("E2"),
    }
}

/// The line becomes that of a datagram that the speaker sends.
pub fn set_out(text: &mut Line, time: u64, target: &Target, messages: usize)
    ensures { text.new ≡ line (out_text time target.now messages) }
{
    text.truncate(0);
    text.push_u64(time);
    text.push_str(" out ");
    push_target(text, target);
    text.push_str(" ");
    text.push_usize(messages);
    text.push_str("\n");
}

/// Appends an interface, and the address or `all`.
fn push_target(line: &mut Line, target: &Target)
    requires room { length line.old + 45 ≤ line_room }
    ensures text { line.new ≡ line.old ++ target_text target.now }
    ensures short { length line.new ≤ length line.old + 45 }
{
    line.push_u16(u16::from(target.iface));
    line.push_str(" ");
    match &target.to {
        Some(addr) => line.push_addr(addr),
        None => line.push_str("all"),
    }
}
