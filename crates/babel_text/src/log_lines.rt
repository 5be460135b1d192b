//! The lines of a log: what happened to the speaker, and when.

ghost use Rattle.std.specs.Prelude.{◌≡◌, ◌⊎◌, None, Some, length, IsOk, IfOk, IfErr, IsUtf8};
ghost use Rattle.babel_value.specs.Texts.{IsAddrText};
ghost use Rattle.babel_text.specs.Numbers.{IsNumberText};
ghost use Rattle.babel_text.specs.Octets.{hex_octets};
ghost use Rattle.babel_text.specs.LogLines.{is_skipped_line, HasTwoFields, IsReceived, IsReceiveText, IsCostText, IsActionText, IsLine};
ghost use Rattle.babel_text.specs.Fields.{HasBlank, before_blank, after_blank};
ghost use Rattle.babel_text.specs.LogLines.{Unless, IsNumber, IsAddress, IsTickFault, IsFieldFault, IsReceiveFault, IsCostFault, IsActionFault, IsLineFault};

use crate::{LineFault, parse_octets, split_field, u16_of, u64_of};
use babel_value::Addr;

/// A line of a log.
#[derive(Clone, Copy, Debug, PartialEq, Eq)]
pub struct Event<'a> {
    /// The moment, in centiseconds.
    pub time: u64,
    /// What happened.
    pub action: Action<'a>,
}

/// What happened to the speaker.
#[derive(Clone, Copy, Debug, PartialEq, Eq)]
pub enum Action<'a> {
    /// A datagram came.
    Receive {
        /// The number of the interface.
        iface: u16,
        /// The source address.
        source: Addr,
        /// The octets of the datagram.
        octets: &'a [u8],
    },
    /// Time passed.
    Tick,
    /// An interface got another nominal cost.
    SetCost {
        /// The number of the interface.
        iface: u16,
        /// The cost.
        cost: u16,
    },
}

/// The word after the time of a tick.
const TICK: &[u8] = b"tick";

/// The word after the time of a datagram.
const IN: &[u8] = b"in";

/// The word after the time of a new cost.
const COST: &[u8] = b"cost";

/// Whether the line is skipped: it is empty, or begins with `#`.
pub fn is_skipped(line: &[u8]) -> bool
    ensures { result ≡ is_skipped_line line.now }
{
    if line.is_empty() {
        return true;
    }
    line[0] == b'#'
}

/// Reads a line that isn't skipped: `<time> in <iface> <source> <hex>`, `<time> tick` or
/// `<time> cost <iface> <n>`. The datagram's octets are written to the front of `octets`, and are
/// L4 if there is no room for them.
///
/// L1 comes before the fields, which are read from the left: L2, L3 or L4 is that of the first that
/// can't be read.
pub fn parse_line<'a>(line: &[u8], octets: &'a mut [u8]) -> Result<Event<'a>, LineFault>
    ensures ok { IfOk result (λ event. IsLine (length octets.old) line.now event.time event.action) }
    ensures refused { IfErr result (IsLineFault (length octets.old) line.now) }
{
    match parse_fields(line, octets) {
        Ok(event) => Ok(event),
        Err(fault) => Err(utf8_first(line, fault)),
    }
}

/// The first fault of a line: L1 if it isn't UTF-8, else the fault given. A line that is read is
/// ASCII, so only a refused line is tested.
fn utf8_first(line: &[u8], fault: LineFault) -> LineFault
    ensures { ((¬ (IsUtf8 line.now)) × (result ≡ LineFault.Form)) ⊎ (IsUtf8 line.now × (result ≡ fault)) }
{
    if str::from_utf8(line).is_err() {
        return LineFault::Form;
    }
    fault
}

/// The same as `parse_line`, without the test for UTF-8: a refused line has the fault of its first
/// field that can't be read, and a line without fields is L1.
fn parse_fields<'a>(line: &[u8], octets: &'a mut [u8]) -> Result<Event<'a>, LineFault>
    ensures parted { IsOk result → HasBlank line.now }
    ensures time { IfOk result (λ event. IsNumberText 64 (before_blank line.now) event.time) }
    ensures action { IfOk result (λ event. IsActionText (length octets.old) (after_blank line.now) event.action) }
    ensures refused { IfErr result (Unless (HasBlank line.now) LineFault.Form (IsActionFault (length octets.old) (before_blank line.now) (after_blank line.now))) }
{
    let Some((time, rest)) = split_field(line) else {
        return Err(LineFault::Form);
    };
    if rest == TICK {
        return parse_tick(time);
    }
    let Some((word, fields)) = split_field(rest) else {
        return Err(LineFault::Form);
    };
    if word == IN {
        return parse_receive(time, fields, octets);
    }
    if word == COST {
        return parse_cost(time, fields);
    }
    Err(LineFault::Form)
}

/// A tick at the time.
fn parse_tick<'a>(time: &[u8]) -> Result<Event<'a>, LineFault>
    ensures time { IfOk result (λ event. IsNumberText 64 time.now event.time) }
    ensures action { IfOk result (λ event. event.action ≡ Action.Tick) }
    ensures refused { IfErr result (IsTickFault time.now) }
{
    let time = parse_time(time)?;
    let action = Action::Tick;
    Ok(Event { time, action })
}

/// A datagram at the time, from the fields after the word `in`.
fn parse_receive<'a>(
    time: &[u8],
    fields: &[u8],
    octets: &'a mut [u8],
) -> Result<Event<'a>, LineFault>
    ensures time { IfOk result (λ event. IsNumberText 64 time.now event.time) }
    ensures action { IfOk result (λ event. IsReceiveText (length octets.old) fields.now event.action) }
    ensures refused { IfErr result (IsReceiveFault (length octets.old) time.now fields.now) }
{
    let Some((iface, rest)) = split_field(fields) else {
        return Err(LineFault::Form);
    };
    let Some((source, hex)) = split_field(rest) else {
        return Err(LineFault::Form);
    };
    match read_receive(time, iface, source, hex, octets) {
        Ok(event) => Ok(event),
        Err(fault) => Err(form_first(hex, fault)),
    }
}

/// A datagram at the time, from its fields.
fn read_receive<'a>(
    time: &[u8],
    iface: &[u8],
    source: &[u8],
    hex: &[u8],
    octets: &'a mut [u8],
) -> Result<Event<'a>, LineFault>
    ensures time { IfOk result (λ event. IsNumberText 64 time.now event.time) }
    ensures action { IfOk result (λ event. IsReceived (length octets.old) iface.now source.now hex.now event.action) }
    ensures refused { IfErr result (IsFieldFault (length octets.old) time.now iface.now source.now hex.now) }
{
    let time = parse_time(time)?;
    let action = Action::Receive {
        iface: parse_word(iface)?,
        source: parse_address(source)?,
        octets: parse_hex(hex, octets)?,
    };
    Ok(Event { time, action })
}

/// The first fault of a line whose last field is `hex`: L1 if that field has a further blank, else
/// the fault given. A field that is read as octets has no blank, so only a refused line is searched
/// for one.
fn form_first(hex: &[u8], fault: LineFault) -> LineFault
    ensures further { HasBlank hex.now → result ≡ LineFault.Form }
    ensures last { (¬ (HasBlank hex.now)) → result ≡ fault }
{
    if split_field(hex).is_some() {
        LineFault::Form
    } else {
        fault
    }
}

/// A cost at the time, from the fields after the word `cost`.
fn parse_cost<'a>(time: &[u8], fields: &[u8]) -> Result<Event<'a>, LineFault>
    ensures time { IfOk result (λ event. IsNumberText 64 time.now event.time) }
    ensures action { IfOk result (λ event. IsCostText fields.now event.action) }
    ensures refused { IfErr result (IsCostFault time.now fields.now) }
{
    let (iface, cost) = cost_fields(fields)?;
    let time = parse_time(time)?;
    let action = Action::SetCost {
        iface: parse_word(iface)?,
        cost: parse_word(cost)?,
    };
    Ok(Event { time, action })
}

/// The two fields after the word `cost`.
fn cost_fields(fields: &[u8]) -> Result<(&[u8], &[u8]), LineFault>
    ensures parted { IfOk result (λ f. HasTwoFields fields.now) }
    ensures iface { IfOk result (λ f. f.0.now ≡ before_blank fields.now) }
    ensures cost { IfOk result (λ f. f.1.now ≡ after_blank fields.now) }
    ensures refused { IfErr result (λ fault. (fault ≡ LineFault.Form) × (¬ (HasTwoFields fields.now))) }
{
    let Some((iface, cost)) = split_field(fields) else {
        return Err(LineFault::Form);
    };
    if split_field(cost).is_some() {
        return Err(LineFault::Form);
    }
    Ok((iface, cost))
}

/// The moment that the text spells.
fn parse_time(text: &[u8]) -> Result<u64, LineFault>
    ensures ok { IfOk result (IsNumberText 64 text.now) }
    ensures refused { IfErr result (λ fault. (fault ≡ LineFault.Number) × (¬ (IsNumber 64 text.now))) }
{
    match u64_of(text) {
        Some(number) => Ok(number),
        None => Err(LineFault::Number),
    }
}

/// The number up to 65535 that the text spells.
fn parse_word(text: &[u8]) -> Result<u16, LineFault>
    ensures ok { IfOk result (IsNumberText 16 text.now) }
    ensures refused { IfErr result (λ fault. (fault ≡ LineFault.Number) × (¬ (IsNumber 16 text.now))) }
{
    match u16_of(text) {
        Some(number) => Ok(number),
        None => Err(LineFault::Number),
    }
}

/// The address that the text spells.
fn parse_address(text: &[u8]) -> Result<Addr, LineFault>
    ensures ok { IfOk result (IsAddrText text.now) }
    ensures refused { IfErr result (λ fault. (fault ≡ LineFault.Address) × (¬ (IsAddress text.now))) }
{
    match Addr::parse_ascii(text) {
        Ok(addr) => Ok(addr),
        Err(_) => Err(LineFault::Address),
    }
}

/// Reads the octets into the front of `octets`, and returns that front. `-` stands for no octets,
/// and an empty text isn't hexadecimal.
fn parse_hex<'a>(hex: &[u8], octets: &'a mut [u8]) -> Result<&'a [u8], LineFault>
    ensures ok { IfOk result (λ read. hex_octets (length octets.old) hex.now ≡ Some read.now) }
    ensures refused { IfErr result (λ fault. (fault ≡ LineFault.Hex) × (hex_octets (length octets.old) hex.now ≡ None)) }
{
    match parse_octets(hex, octets) {
        Some(read) => Ok(read),
        None => Err(LineFault::Hex),
    }
}
