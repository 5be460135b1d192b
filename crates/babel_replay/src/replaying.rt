//! A log replayed: what the speaker makes of each line.

ghost use Rattle.std.specs.Prelude.{◌≡◌, ◌≢◌, ◌≤◌, ◌⊎◌, [], length, slice_get, take, Err, IsOk, IsNone, OnOk, IfOk, IfErr, IfSome, IsFalse, MatchOption};
ghost use Rattle.std.specs.Io.KnownBytes.{Appends};
ghost use Rattle.std.specs.Option.{option_map_or};
ghost use Rattle.indexmap.specs.IndexMap.{set_value_at};
ghost use Rattle.babel_state.specs.Calls.{first_state};
ghost use Rattle.babel_state.specs.Configs.{config_fault};
ghost use Rattle.babel_state.specs.KeptRoutes.{KeepsRoutes};
ghost use Rattle.babel_speaker.specs.Making.{IsMakingFault};
ghost use Rattle.babel_text.specs.declared.errors.LineFault.TheVariants.{Memory, Write};
ghost use Rattle.babel_replay.specs.LogReports.{room, whole_report, IsCause, IsReplayFault, IsStopped, OfAllLines, OfLinesBefore, Writes};
ghost use Rattle.babel_replay.specs.Report.{places_in, IsDecodedAs, note_lines, outcome_lines, seen_by, line_after, select_lines, Reports, ReportsStep, Sends, table_line, table_lines};
ghost use Rattle.babel_replay.specs.Seen.{updates_in, choice_at, choice_printed, printed_all, ArePrinted};
ghost use Rattle.babel_replay.specs.Texts.{longest_head};
ghost use Rattle.babel_replay.specs.Taking.{IsReported, IsReportedLine, TakesLine};

use crate::counting::count_messages;
use crate::lines::{
    Choice, push_selection, push_tlv, set_cost_refused, set_moment, set_out, set_refused,
    set_select_head, table_line,
};
use crate::reading::read_line;
use crate::seen::{SeenPrefixes, is_same};
use crate::stepping::{Outcome, step};
use crate::{Action, Event, LineFault, MAX_LINE_LEN, ReplayFault, parse_line};
use arrayvec::ArrayVec;
use babel_message::{Placed, Refusal};
use babel_speaker::laws::datagrams_take_items;
use babel_speaker::{Decoded, Speaker};
use babel_state::{Config, ConfigFault, LastChoice, Note};
use babel_text::is_skipped;
use babel_tlv::DATAGRAM_LEN;
use babel_value::{Line, Prefix};
use std::alloc::{AllocError, Global};
use std::io::{BufRead, Write};

/// Writes what a speaker of this configuration makes of a log. Each line's report follows the line
/// before it: what became of each TLV, or a refusal; a `select` line for each seen prefix whose
/// selected route changed; and an `out` line for each datagram that the speaker then sends. At the
/// end there is a `table` line for each seen prefix.
///
/// After a fault other than L7 of a line, what was written is the report of the lines before it.
pub fn replay<R: BufRead, W: Write>(
    alloc: Global,
    config: Config,
    log: &mut R,
    out: &mut W,
) -> Result<(), ReplayFault>
    ensures valid { IsOk result → IsNone (config_fault config) }
    ensures report { OnOk result (OfAllLines (R.remaining log.old) (Writes whole_report (first_state config) (W.contents out.old) (W.contents out.new))) }
    ensures fault { IfErr result (IsReplayFault whole_report (first_state config) (config_fault config) (R.remaining log.old) (R.remaining log.new) (W.contents out.old) (W.contents out.new)) }
{
    match Replayer::new(alloc, config) {
        Ok(mut replayer) => replayer.report_log(log, out),
        Err(fault) => Err(ReplayFault::Config(fault)),
    }
}

/// The memory for a line and for its datagram, which is allocated once.
#[derive(Drop)]
pub(crate) struct Buffers {
    /// The line.
    pub(crate) line: Vec<u8>,
    /// The octets of its datagram.
    pub(crate) octets: Vec<u8>,
}

impl Buffers {
    /// Room for the longest line.
    pub(crate) fn new(alloc: Global) -> Result<Buffers, AllocError>
        ensures { IfOk result (λ buffers. length buffers.octets.items ≡ room) }
    {
        Ok(Buffers {
            line: Vec::with_capacity(alloc, MAX_LINE_LEN + 1)?,
            octets: vec![in alloc; 0u8; MAX_LINE_LEN / 2]?,
        })
    }
}

/// Writes a line by one call.
pub(crate) fn write_line<W: Write>(out: &mut W, line: &Line) -> Result<(), LineFault>
    ensures written { OnOk result (Appends (W.contents out.old) (W.contents out.new) line.now) }
    ensures failed { IfErr result (λ fault. fault ≡ LineFault.Write) }
{
    match out.write_all(line.octets()) {
        Ok(()) => Ok(()),
        Err(_) => Err(LineFault::Write),
    }
}

/// Room for what is written and sent, which is used again for each line of the log.
#[derive(Drop)]
struct Drafts {
    /// A line of the report.
    line: Line,
    /// A datagram.
    datagram: ArrayVec<u8, DATAGRAM_LEN>,
}

/// A speaker, and what was seen of it.
#[derive(Drop)]
struct Replayer {
    alloc: Global,
    speaker: Speaker,
    seen: SeenPrefixes,
    drafts: Drafts,
}

impl Replayer {
    /// A speaker of the configuration, of which nothing was seen yet.
    fn new(alloc: Global, config: Config) -> Result<Replayer, ConfigFault>
        ensures speaker { IfOk result (λ replayer. replayer.speaker.state ≡ first_state config) }
        ensures seen { IfOk result (λ replayer. replayer.seen.entries ≡ []) }
        ensures valid { IsOk result → IsNone (config_fault config) }
        ensures refused { IfErr result (IsMakingFault (config_fault config)) }
    {
        match Speaker::new(alloc, config) {
            Ok(speaker) => Ok(Replayer {
                alloc,
                speaker,
                seen: SeenPrefixes::new(alloc),
                drafts: Drafts {
                    line: Line::new(),
                    datagram: ArrayVec::new(),
                },
            }),
            Err(fault) => Err(fault),
        }
    }

    /// Takes all lines, and writes the report of each and the `table` lines.
    fn report_log<R: BufRead, W: Write>(
        &mut self,
        log: &mut R,
        out: &mut W,
    ) -> Result<(), ReplayFault>
        requires { self.old.seen.entries ≡ [] }
        ensures report { OnOk result (OfAllLines (R.remaining log.old) (Writes whole_report self.old.speaker.state (W.contents out.old) (W.contents out.new))) }
        ensures fault { IfErr result (IsStopped whole_report self.old.speaker.state (R.remaining log.old) (W.contents out.old) (W.contents out.new)) }
    {
        let mut number = 1;
        let taken = self.take_log(log, out, &mut number);
        match self.end_report(taken, out) {
            Ok(()) => Ok(()),
            Err(fault) => Err(ReplayFault::Line { number, fault }),
        }
    }

    /// Takes all lines, and writes the report of each. `number` becomes the number of the line at
    /// which it stops, which is one more than the last at the end of the log.
    fn take_log<R: BufRead, W: Write>(
        &mut self,
        log: &mut R,
        out: &mut W,
        number: &mut u64,
    ) -> Result<(), LineFault>
        requires number { number.old ≡ 1 }
        requires printed { ArePrinted self.old.speaker.state self.old.seen.entries }
        ensures taken { OnOk result (OfAllLines (R.remaining log.old) (IsReported number.new self.old.speaker.state self.old.seen.entries self.new.speaker.state self.new.seen.entries (W.contents out.old) (W.contents out.new))) }
        ensures fault { IfErr result (λ fault. OfLinesBefore (R.remaining log.old) number.new fault (IsReported number.new self.old.speaker.state self.old.seen.entries self.new.speaker.state self.new.seen.entries (W.contents out.old) (W.contents out.new))) }
    {
        match Buffers::new(self.alloc) {
            Ok(mut buffers) => {
                self.take_lines(&mut buffers.line, &mut buffers.octets, log, out, number)
            }
            Err(_) => Err(LineFault::Memory),
        }
    }

    /// The same with the memory that it takes.
    fn take_lines<R: BufRead, W: Write>(
        &mut self,
        line: &mut Vec<u8>,
        octets: &mut [u8],
        log: &mut R,
        out: &mut W,
        number: &mut u64,
    ) -> Result<(), LineFault>
        requires room { length octets.old ≡ room }
        requires printed { ArePrinted self.old.speaker.state self.old.seen.entries }
        ensures taken { OnOk result (OfAllLines (R.remaining log.old) (IsReported number.new self.old.speaker.state self.old.seen.entries self.new.speaker.state self.new.seen.entries (W.contents out.old) (W.contents out.new))) }
        ensures fault { IfErr result (λ fault. OfLinesBefore (R.remaining log.old) number.new fault (IsReported number.new self.old.speaker.state self.old.seen.entries self.new.speaker.state self.new.seen.entries (W.contents out.old) (W.contents out.new))) }
    {
        for turn in 1..u64::MAX {
            *number = turn;
            let more = match self.take_line(line, octets, log, out) {
                Ok(more) => more,
                Err(fault) => return Err(fault),
            };
            if !more {
                return Ok(());
            }
        }
        // No reader has so many lines.
        *number = u64::MAX;
        Err(LineFault::Read)
    }

    /// Takes the next line, and writes its report. False: the log has ended.
    fn take_line<R: BufRead, W: Write>(
        &mut self,
        line: &mut Vec<u8>,
        octets: &mut [u8],
        log: &mut R,
        out: &mut W,
    ) -> Result<bool, LineFault>
        requires room { length octets.old ≡ room }
        requires printed { ArePrinted self.old.speaker.state self.old.seen.entries }
        ensures taken { IfOk result (λ more. TakesLine (R.remaining log.old) (R.remaining log.new) more (IsReportedLine self.old.speaker.state self.old.seen.entries self.new.speaker.state self.new.seen.entries (W.contents out.old) (W.contents out.new)) ((self.new.speaker.state ≡ self.old.speaker.state) × (self.new.seen.entries ≡ self.old.seen.entries) × (W.contents out.new ≡ W.contents out.old))) }
        ensures cause { IfErr result (IsCause (R.remaining log.old) []) }
        ensures unchanged { IfErr result (λ fault. fault ≢ Write → (self.new.speaker.state ≡ self.old.speaker.state) × (self.new.seen.entries ≡ self.old.seen.entries) × (W.contents out.new ≡ W.contents out.old)) }
        ensures printed { OnOk result (ArePrinted self.new.speaker.state self.new.seen.entries) }
    {
        let more = read_line(log, line)?;
        if !more {
            return Ok(false);
        }
        if is_skipped(line) {
            return Ok(true);
        }
        let event = match parse_line(line, octets) {
            Ok(event) => event,
            Err(fault) => return Err(fault),
        };
        self.take_event(&event, out)?;
        Ok(true)
    }

    /// Makes the step of a line, and writes its report. All memory is allocated before anything is
    /// changed or written.
    fn take_event<W: Write>(&mut self, event: &Event<'_>, out: &mut W) -> Result<(), LineFault>
        requires printed { ArePrinted self.old.speaker.state self.old.seen.entries }
        ensures report { OnOk result (Reports event.now.time event.now.action self.old.speaker.state self.old.seen.entries self.new.speaker.state self.new.seen.entries (W.contents out.old) (W.contents out.new)) }
        ensures fault { IfErr result (λ fault. (fault ≡ Memory) ⊎ (fault ≡ Write)) }
        ensures unchanged { IfErr result (λ fault. fault ≢ Write → (self.new.speaker.state ≡ self.old.speaker.state) × (self.new.seen.entries ≡ self.old.seen.entries) × (W.contents out.new ≡ W.contents out.old)) }
        ensures printed { OnOk result (ArePrinted self.new.speaker.state self.new.seen.entries) }
    {
        match self.decode(event)? {
            Some(decoded) => self.take_placed(event, decoded.placed(), Some(&decoded), out),
            None => self.take_placed(event, &[], None, out),
        }
    }

    /// The same with what the line's datagram means, and with the datagram itself if it has one
    /// that can be read.
    fn take_placed<W: Write>(
        &mut self,
        event: &Event<'_>,
        placed: &[Placed],
        decoded: Option<&Decoded>,
        out: &mut W,
    ) -> Result<(), LineFault>
        requires places { placed.now ≡ places_in event.now.action }
        requires decoded { IfSome decoded (λ d. IsDecodedAs event.now.action d.now) }
        requires printed { ArePrinted self.old.speaker.state self.old.seen.entries }
        ensures report { OnOk result (Reports event.now.time event.now.action self.old.speaker.state self.old.seen.entries self.new.speaker.state self.new.seen.entries (W.contents out.old) (W.contents out.new)) }
        ensures fault { IfErr result (λ fault. (fault ≡ Memory) ⊎ (fault ≡ Write)) }
        ensures unchanged { IfErr result (λ fault. fault ≢ Write → (self.new.speaker.state ≡ self.old.speaker.state) × (self.new.seen.entries ≡ self.old.seen.entries) × (W.contents out.new ≡ W.contents out.old)) }
        ensures printed { OnOk result (ArePrinted self.new.speaker.state self.new.seen.entries) }
    {
        if self.seen.reserve(placed).is_err() {
            return Err(LineFault::Memory);
        }
        let (outcome, changed) = step(&mut self.speaker, event, decoded)?;
        self.write_report(event.time, placed, &outcome, changed, out)
    }

    /// Writes the report of a line after its step, and sends what the speaker has queued. `changed`
    /// is whether a selected route may have changed by the step.
    fn write_report<W: Write>(
        &mut self,
        time: u64,
        placed: &[Placed],
        outcome: &Outcome,
        changed: bool,
        out: &mut W,
    ) -> Result<(), LineFault>
        requires room { updates_in placed.now ≤ self.old.seen.room }
        requires printed { IsFalse changed → ArePrinted self.old.speaker.state self.old.seen.entries }
        ensures printed { OnOk result (ArePrinted self.new.speaker.state self.new.seen.entries) }
        ensures report { OnOk result (ReportsStep time placed.now outcome.now self.old.speaker.state self.old.seen.entries self.new.speaker.state self.new.seen.entries (W.contents out.old) (W.contents out.new)) }
        ensures failed { IfErr result (λ fault. fault ≡ LineFault.Write) }
    {
        let added = self.write_outcome(time, placed, outcome, out)?;
        self.write_selections(time, changed || added, out)?;
        send_datagrams(&mut self.speaker, &mut self.drafts, time, out)
    }

    /// Writes what became of a line, and adds the prefixes of the Updates that were stored. Returns
    /// whether one of them is new.
    fn write_outcome<W: Write>(
        &mut self,
        time: u64,
        placed: &[Placed],
        outcome: &Outcome,
        out: &mut W,
    ) -> Result<bool, LineFault>
        requires { updates_in placed.now ≤ self.old.seen.room }
        ensures same { IfOk result (λ added. IsFalse added → self.new.seen.entries ≡ self.old.seen.entries) }
        ensures written { OnOk result (Appends (W.contents out.old) (W.contents out.new) (outcome_lines time placed.now outcome.now)) }
        ensures seen { OnOk result (self.new.seen.entries ≡ seen_by placed.now outcome.now self.old.seen.entries) }
        ensures speaker { self.new.speaker.state ≡ self.old.speaker.state }
        ensures failed { IfErr result (λ fault. fault ≡ LineFault.Write) }
    {
        match outcome {
            Outcome::Silent => Ok(false),
            Outcome::Notes(notes) => {
                write_notes(&mut self.drafts.line, time, placed, notes, out)?;
                Ok(self.seen.add_stored(placed, notes))
            }
            Outcome::Refused(fault) => {
                set_refused(&mut self.drafts.line, time, *fault);
                write_line(out, &self.drafts.line)?;
                Ok(false)
            }
            Outcome::CostRefused(fault) => {
                set_cost_refused(&mut self.drafts.line, time, *fault);
                write_line(out, &self.drafts.line)?;
                Ok(false)
            }
        }
    }

    /// Writes the `table` lines, unless writing failed already. The fault is that of the log, or L7
    /// if writing fails now.
    fn end_report<W: Write>(
        &self,
        taken: Result<(), LineFault>,
        out: &mut W,
    ) -> Result<(), LineFault>
        ensures ok { OnOk result (IsOk taken × Appends (W.contents out.old) (W.contents out.new) (table_lines self.now.speaker.state self.now.seen.entries)) }
        ensures fault { IfErr result (λ fault. (fault ≡ LineFault.Write) ⊎ ((taken ≡ Err fault) × Appends (W.contents out.old) (W.contents out.new) (table_lines self.now.speaker.state self.now.seen.entries))) }
    {
        if let Err(LineFault::Write) = taken {
            return taken;
        }
        self.write_table(out)?;
        taken
    }

    /// What the line's datagram means, if it has one that can be read.
    fn decode(&self, event: &Event<'_>) -> Result<Option<Decoded>, LineFault>
        ensures ok { IfOk result (λ found. MatchOption found (places_in event.now.action ≡ []) (λ decoded. IsDecodedAs event.now.action decoded)) }
        ensures memory { IfErr result (λ fault. fault ≡ LineFault.Memory) }
    {
        let Action::Receive { source, octets, .. } = event.action else {
            return Ok(None);
        };
        match Decoded::new(self.alloc, octets, source) {
            Ok(decoded) => Ok(Some(decoded)),
            Err(Refusal::Memory) => Err(LineFault::Memory),
            Err(_) => Ok(None),
        }
    }

    /// Writes a `select` line for each seen prefix whose selected route isn't the one that was last
    /// printed. After most lines nothing has changed, and there is none.
    fn write_selections<W: Write>(
        &mut self,
        time: u64,
        changed: bool,
        out: &mut W,
    ) -> Result<(), LineFault>
        requires { IsFalse changed → ArePrinted self.old.speaker.state self.old.seen.entries }
        ensures written { OnOk result (Appends (W.contents out.old) (W.contents out.new) (select_lines time self.old.speaker.state self.old.seen.entries)) }
        ensures seen { OnOk result (self.new.seen.entries ≡ printed_all self.old.speaker.state self.old.seen.entries) }
        ensures speaker { self.new.speaker.state ≡ self.old.speaker.state }
        ensures failed { IfErr result (λ fault. fault ≡ LineFault.Write) }
    {
        if !changed {
            return Ok(());
        }
        self.write_changes(time, out)
    }

    /// The same, by a look at each seen prefix.
    fn write_changes<W: Write>(&mut self, time: u64, out: &mut W) -> Result<(), LineFault>
        ensures written { OnOk result (Appends (W.contents out.old) (W.contents out.new) (select_lines time self.old.speaker.state self.old.seen.entries)) }
        ensures seen { OnOk result (self.new.seen.entries ≡ printed_all self.old.speaker.state self.old.seen.entries) }
        ensures speaker { self.new.speaker.state ≡ self.old.speaker.state }
        ensures failed { IfErr result (λ fault. fault ≡ LineFault.Write) }
    {
        set_select_head(&mut self.drafts.line, time);
        let head = self.drafts.line.octets().len();
        // The prefixes were mostly seen in the order of the table of selections.
        let mut near = 0;
        for index in 0..self.seen.len() {
            self.write_selection(index, head, &mut near, out)?;
        }
        Ok(())
    }

    /// The same for the seen prefix at the index, which is searched for near an index of the
    /// selections. The draft of the line begins with the head of all lines, and `head` is its
    /// length.
    fn write_selection<W: Write>(
        &mut self,
        index: usize,
        head: usize,
        near: &mut usize,
        out: &mut W,
    ) -> Result<(), LineFault>
        requires begun { head ≤ length self.old.drafts.line }
        requires short { head ≤ longest_head }
        ensures begun { head ≤ length self.new.drafts.line }
        ensures head { take head self.new.drafts.line ≡ take head self.old.drafts.line }
        ensures written { OnOk result (Appends (W.contents out.old) (W.contents out.new) (option_map_or (line_after (take head self.old.drafts.line) self.old.speaker.state) (slice_get self.old.seen.entries index) [])) }
        ensures seen { OnOk result (self.new.seen.entries ≡ option_map_or (λ e. set_value_at self.old.seen.entries index (choice_printed self.old.speaker.state e)) (slice_get self.old.seen.entries index) self.old.seen.entries) }
        ensures speaker { self.new.speaker.state ≡ self.old.speaker.state }
        ensures failed { IfErr result (λ fault. fault ≡ LineFault.Write) }
    {
        let Some((prefix, last)) = self.seen.get(index) else {
            return Ok(());
        };
        let choice = match self.speaker.choice_near(prefix, last, near) {
            LastChoice::Kept => return Ok(()),
            LastChoice::Now(choice) => choice,
        };
        if is_same(&choice, last) {
            return Ok(());
        }
        self.drafts.line.truncate(head);
        push_selection(&mut self.drafts.line, prefix, &choice);
        self.seen.set(index, choice);
        write_line(out, &self.drafts.line)
    }

    /// What is printed of the prefix's selected route, which is searched for near an index of the
    /// selections.
    fn choice(&self, prefix: &Prefix, near: &mut usize) -> Option<Choice>
        ensures { result ≡ choice_at self.now.speaker.state prefix.now }
    {
        match self.speaker.selected_near(prefix, near) {
            Some(selected) => Some(selected.choice()),
            None => None,
        }
    }

    /// Writes a `table` line for each seen prefix, and flushes.
    fn write_table<W: Write>(&self, out: &mut W) -> Result<(), LineFault>
        ensures written { OnOk result (Appends (W.contents out.old) (W.contents out.new) (table_lines self.now.speaker.state self.now.seen.entries)) }
        ensures failed { IfErr result (λ fault. fault ≡ LineFault.Write) }
    {
        let mut near = 0;
        for index in 0..self.seen.len() {
            self.write_table_line(index, &mut near, out)?;
        }
        match out.flush() {
            Ok(()) => Ok(()),
            Err(_) => Err(LineFault::Write),
        }
    }

    /// The line of the seen prefix at the index, which is searched for near an index of the
    /// selections.
    fn write_table_line<W: Write>(
        &self,
        index: usize,
        near: &mut usize,
        out: &mut W,
    ) -> Result<(), LineFault>
        ensures written { OnOk result (Appends (W.contents out.old) (W.contents out.new) (option_map_or (table_line self.now.speaker.state) (slice_get self.now.seen.entries index) [])) }
        ensures failed { IfErr result (λ fault. fault ≡ LineFault.Write) }
    {
        let Some((prefix, _)) = self.seen.get(index) else {
            return Ok(());
        };
        let choice = self.choice(prefix, near);
        write_line(out, &table_line(prefix, &choice))
    }
}

/// Writes a line for each TLV.
fn write_notes<W: Write>(
    line: &mut Line,
    time: u64,
    placed: &[Placed],
    notes: &[Note],
    out: &mut W,
) -> Result<(), LineFault>
    ensures written { OnOk result (Appends (W.contents out.old) (W.contents out.new) (note_lines time placed.now notes.now)) }
    ensures failed { IfErr result (λ fault. fault ≡ LineFault.Write) }
{
    set_moment(line, time);
    let start = line.octets().len();
    for (place, note) in placed.iter().zip(notes) {
        line.truncate(start);
        push_tlv(line, place, &note.verdict);
        write_line(out, line)?;
    }
    Ok(())
}

/// Takes datagrams from the speaker until there is none, and writes an `out` line for each.
fn send_datagrams<W: Write>(
    speaker: &mut Speaker,
    drafts: &mut Drafts,
    time: u64,
    out: &mut W,
) -> Result<(), LineFault>
    ensures kept { KeepsRoutes speaker.old.state speaker.new.state }
    ensures sent { OnOk result (Sends time speaker.old.state speaker.new.state (W.contents out.old) (W.contents out.new)) }
    ensures failed { IfErr result (λ fault. fault ≡ LineFault.Write) }
{
    datagrams_take_items();
    let pending = speaker.pending_count();
    if pending == 0 {
        return Ok(());
    }
    for _ in 0..pending + 1 {
        let Some(target) = speaker.next_datagram(time, &mut drafts.datagram) else {
            return Ok(());
        };
        let messages = count_messages(&drafts.datagram);
        set_out(&mut drafts.line, time, &target, messages);
        write_line(out, &drafts.line)?;
    }
    Ok(())
}
