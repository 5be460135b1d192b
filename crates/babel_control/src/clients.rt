//! A client of the control socket.

ghost use Rattle.std.specs.Prelude.{ℕ, List, ◌≡◌, ◌≢◌, ◌↔◌, ◌⊎◌, ◌<◌, ◌≤◌, ◌++◌, [], ◌∷◌, drop, length, codes, false, true, Some, None, IfSome, IsSomeAnd, OnErr};
ghost use Rattle.babel_control.specs.Limits.{line_room, line_feed};
ghost use Rattle.babel_control.specs.Commands.{shows_tables_by, monitoring_by, logging_with, IsLineReading};
ghost use Rattle.babel_control.specs.Lines.{greeting, line_end};
ghost use Rattle.babel_control.specs.Replies.{IsReply};

use crate::replies::{logging_after, monitoring_after, push_answer, push_welcome, shows_tables};
use crate::{
    Changes, Command, InputLine, Logging, Output, Tables, TakenOctet, View, parse_command,
};
use std::alloc::{AllocError, Global};
use std::marker::Model;

/// Whether a client is sent each change.
#[derive(Clone, Copy, PartialEq, Eq)]
pub enum Monitoring {
    /// It is.
    Yes,
    /// It isn't.
    No,
}

/// What a client may ask for.
#[derive(Clone, Copy)]
pub enum Access {
    /// All commands.
    All,
    /// All but `stop`.
    Reading,
}

/// What becomes of the connection.
#[derive(Clone, Copy)]
pub enum Stage {
    /// It goes on.
    Open,
    /// It is closed once what waits was sent.
    Closing,
    /// It is closed at once.
    Broken,
}

/// What a client wants of the speaker.
#[derive(Clone, Copy, PartialEq, Eq)]
pub enum Wish {
    /// Nothing.
    Nothing,
    /// That it ends in order.
    Stop,
}

/// A client of the control socket: the line that it has sent so far, and what waits for it.
#[derive(Drop)]
pub struct Client {
    alloc: Global,
    access: Access,
    input: InputLine,
    output: Output,
    monitoring: Monitoring,
    logging: Logging,
    stage: Stage,
}

impl Model for Client {
    ghost use Rattle.babel_control.specs.Clients.{ClientValue};

    ghost Value = { ClientValue };

    ghost view = { λ c. record { access = c.access; line = c.input; waiting = c.output; monitoring = c.monitoring; logging = c.logging; stage = c.stage } };
}

impl Client {
    /// A client that is greeted.
    pub fn new<T: Tables>(alloc: Global, access: Access, view: &View<'_, T>) -> Client
        ensures access { result.access ≡ access }
        ensures line { result.line ≡ [] }
        ensures monitoring { result.monitoring ≡ Monitoring.No }
        ensures logging { result.logging ≡ Logging.Off }
        ensures greeted { (result.stage ≡ Stage.Broken) ⊎ ((result.stage ≡ Stage.Open) × ((version : List ℕ) × (result.waiting ≡ greeting version view.entry.now.host.now view.entry.now.router))) }
    {
        let mut client = Client {
            alloc,
            access,
            input: InputLine::new(),
            output: Output::new(alloc),
            monitoring: Monitoring::No,
            logging: Logging::Off,
            stage: Stage::Open,
        };
        let mut text = String::new(alloc);
        match push_welcome(&mut text, view) {
            Ok(()) => client.push(Ok(()), &text),
            Err(AllocError) => {
                client.stage = Stage::Broken;
                return client;
            }
        }
        client
    }

    /// Whether the client is sent each change.
    pub fn monitoring(&self) -> Monitoring
        ensures { result ≡ self.now.monitoring }
    {
        self.monitoring
    }

    /// Whether the client is sent the log.
    pub fn logging(&self) -> Logging
        ensures { result ≡ self.now.logging }
    {
        self.logging
    }

    /// The octets that wait for it.
    pub fn waiting(&self) -> &[u8]
        ensures { result.now ≡ self.now.waiting }
    {
        self.output.waiting()
    }

    /// So many of them were sent.
    pub fn note_sent(&mut self, count: usize)
        ensures waiting { self.new.waiting ≡ drop count self.old.waiting }
        ensures stage { self.new.stage ≡ self.old.stage }
        ensures line { self.new.line ≡ self.old.line }
        ensures monitoring { self.new.monitoring ≡ self.old.monitoring }
        ensures logging { self.new.logging ≡ self.old.logging }
    {
        self.output.remove(count);
    }

    /// It has sent all that it will.
    pub fn note_end(&mut self)
        ensures closing { self.old.stage ≡ Stage.Open → self.new.stage ≡ Stage.Closing }
        ensures unchanged { self.old.stage ≢ Stage.Open → self.new.stage ≡ self.old.stage }
        ensures waiting { self.new.waiting ≡ self.old.waiting }
        ensures access { self.new.access ≡ self.old.access }
        ensures line { self.new.line ≡ self.old.line }
        ensures monitoring { self.new.monitoring ≡ self.old.monitoring }
        ensures logging { self.new.logging ≡ self.old.logging }
    {
        if let Stage::Open = self.stage {
            self.stage = Stage::Closing;
        }
    }

    /// Its connection failed.
    pub fn note_failure(&mut self)
        ensures { self.new.stage ≡ Stage.Broken }
    {
        self.stage = Stage::Broken;
    }

    /// Whether the connection is closed now.
    pub fn has_ended(&self) -> bool
        ensures open { self.now.stage ≡ Stage.Open → result ≡ false }
        ensures closing { self.now.stage ≡ Stage.Closing → (result ≡ true ↔ self.now.waiting ≡ []) }
        ensures broken { self.now.stage ≡ Stage.Broken → result ≡ true }
    {
        match self.stage {
            Stage::Open => false,
            Stage::Closing => self.output.waiting().is_empty(),
            Stage::Broken => true,
        }
    }

    /// Adds a text that was written, unless memory or room is missing. Then the connection is
    /// closed.
    fn push(&mut self, written: Result<(), AllocError>, text: &str)
        ensures failed { OnErr written (self.new.stage ≡ Stage.Broken) }
        ensures access { self.new.access ≡ self.old.access }
        ensures stage { (self.new.stage ≡ Stage.Broken) ⊎ ((self.new.stage ≡ self.old.stage) × (self.new.waiting ≡ self.old.waiting ++ text.now)) }
        ensures line { self.new.line ≡ self.old.line }
        ensures monitoring { self.new.monitoring ≡ self.old.monitoring }
        ensures logging { self.new.logging ≡ self.old.logging }
    {
        if written.is_err() || self.output.push(text.as_bytes()).is_err() {
            self.stage = Stage::Broken;
        }
    }

    /// Adds changes for a client that monitors.
    pub fn push_changes(&mut self, changes: &str)
        ensures sent { self.old.monitoring ≡ Monitoring.Yes → (self.new.stage ≡ Stage.Broken) ⊎ (self.new.waiting ≡ self.old.waiting ++ changes.now) }
        ensures others { self.old.monitoring ≡ Monitoring.No → self.new ≡ self.old }
    {
        if self.monitoring == Monitoring::Yes {
            self.push(Ok(()), changes);
        }
    }

    /// Adds lines of the log for a client that is sent it.
    pub fn push_log(&mut self, lines: &str)
        ensures sent { self.old.logging ≡ Logging.On → (self.new.stage ≡ Stage.Broken) ⊎ (self.new.waiting ≡ self.old.waiting ++ lines.now) }
        ensures others { self.old.logging ≡ Logging.Off → self.new ≡ self.old }
    {
        if self.logging == Logging::On {
            self.push(Ok(()), lines);
        }
    }

    /// Takes an octet of the client. A command, if its line is whole.
    pub fn take_octet(&mut self, octet: u8) -> Option<Option<Command>>
        ensures closed { self.old.stage ≢ Stage.Open → result ≡ None }
        ensures whole { IfSome result (λ command. octet ≡ line_feed) }
        ensures next { IfSome result (λ command. self.new.line ≡ []) }
        ensures more { octet ≢ line_feed → self.old.stage ≡ Stage.Open → length self.old.line < line_room → self.new.line ≡ self.old.line ++ octet ∷ [] }
        ensures too_long { octet ≢ line_feed → self.old.stage ≡ Stage.Open → line_room ≤ length self.old.line → self.new.stage ≢ Stage.Open }
        ensures command { octet ≡ line_feed → self.old.stage ≡ Stage.Open → IsSomeAnd result (IsLineReading self.old.line) }
        ensures refused { octet ≢ line_feed → self.old.stage ≡ Stage.Open → line_room ≤ length self.old.line → (self.new.stage ≡ Stage.Broken) ⊎ (self.new.waiting ≡ self.old.waiting ++ codes "bad" ++ line_end) }
        ensures kept { (octet ≡ line_feed) ⊎ (length self.old.line < line_room) → (self.new.stage ≡ self.old.stage) × (self.new.waiting ≡ self.old.waiting) }
        ensures unchanged { self.old.stage ≢ Stage.Open → self.new ≡ self.old }
        ensures access { self.new.access ≡ self.old.access }
        ensures monitoring { self.new.monitoring ≡ self.old.monitoring }
        ensures logging { self.new.logging ≡ self.old.logging }
    {
        if !matches!(self.stage, Stage::Open) {
            return None;
        }
        match self.input.take(octet) {
            TakenOctet::More => None,
            TakenOctet::Whole => {
                let command = command_in(self.input.octets());
                self.input.clear();
                Some(command)
            }
            TakenOctet::TooLong => {
                self.push(Ok(()), "bad\n");
                self.note_end();
                None
            }
        }
    }

    /// Replies to a command. `None` is one that there isn't.
    pub fn answer<T: Tables>(
        &mut self,
        command: &Option<Command>,
        view: &View<'_, T>,
        changes: &Changes,
    ) -> Wish
        ensures stop { result ≡ Wish.Stop → (command.now ≡ Some Command.Stop) × (self.old.access ≡ Access.All) }
        ensures stops { command.now ≡ Some Command.Stop → self.old.access ≡ Access.All → self.old.stage ≢ Stage.Broken → result ≡ Wish.Stop }
        ensures broken { self.old.stage ≡ Stage.Broken → (result ≡ Wish.Nothing) × (self.new ≡ self.old) }
        ensures unknown { command.now ≡ None → (self.new.stage ≡ Stage.Broken) ⊎ (self.new.waiting ≡ self.old.waiting ++ codes "bad" ++ line_end) }
        ensures stage { (self.new.stage ≡ self.old.stage) ⊎ ((self.new.stage ≡ Stage.Broken) ⊎ (command.now ≡ Some Command.Quit)) }
        ensures replied { self.old.stage ≢ Stage.Broken → IfSome command.now (λ command. (self.new.stage ≡ Stage.Broken) ⊎ ((text : List ℕ) × (self.new.waiting ≡ self.old.waiting ++ text) × IsReply self.old.access command view.entry.now changes.now text)) }
        ensures quit { command.now ≡ Some Command.Quit → self.new.stage ≢ Stage.Open }
        ensures monitoring { self.old.stage ≢ Stage.Broken → IfSome command.now (λ command. self.new.monitoring ≡ monitoring_by command self.old.monitoring) }
        ensures logging { self.old.stage ≢ Stage.Broken → IfSome command.now (λ command. self.new.logging ≡ logging_with view.entry.now.log command self.old.logging) }
        ensures access { self.new.access ≡ self.old.access }
        ensures line { self.new.line ≡ self.old.line }
    {
        if let Stage::Broken = self.stage {
            // Nothing more is sent to it, and no time is spent on it.
            return Wish::Nothing;
        }
        match command {
            Some(command) => self.answer_command(command, view, changes),
            None => {
                self.push(Ok(()), "bad\n");
                Wish::Nothing
            }
        }
    }

    fn answer_command<T: Tables>(
        &mut self,
        command: &Command,
        view: &View<'_, T>,
        changes: &Changes,
    ) -> Wish
        ensures stop { result ≡ Wish.Stop → (command.now ≡ Command.Stop) × (self.old.access ≡ Access.All) }
        ensures stops { command.now ≡ Command.Stop → self.old.access ≡ Access.All → result ≡ Wish.Stop }
        ensures stage { (self.new.stage ≡ self.old.stage) ⊎ ((self.new.stage ≡ Stage.Broken) ⊎ (command.now ≡ Command.Quit)) }
        ensures replied { (self.new.stage ≡ Stage.Broken) ⊎ ((text : List ℕ) × (self.new.waiting ≡ self.old.waiting ++ text) × IsReply self.old.access command.now view.entry.now changes.now text) }
        ensures quit { command.now ≡ Command.Quit → self.new.stage ≢ Stage.Open }
        ensures monitoring { self.new.monitoring ≡ monitoring_by command.now self.old.monitoring }
        ensures logging { self.new.logging ≡ logging_with view.entry.now.log command.now self.old.logging }
        ensures access { self.new.access ≡ self.old.access }
        ensures line { self.new.line ≡ self.old.line }
    {
        if is_forbidden(command, self.access) {
            self.push(
                Ok(()),
                "no only a client of a socket's file may stop the speaker\n",
            );
            return Wish::Nothing;
        }
        let mut text = String::new(self.alloc);
        let written = push_answer(&mut text, command, view, changes);
        self.push(written, &text);
        self.monitoring = monitoring_after(command, self.monitoring);
        self.logging = logging_after(view.log, command, self.logging);
        match command {
            Command::Quit => {
                self.note_end();
                Wish::Nothing
            }
            Command::Stop => Wish::Stop,
            _ => Wish::Nothing,
        }
    }
}

/// Whether a client with this access may not ask for the command: `stop` without all access.
fn is_forbidden(command: &Command, access: Access) -> bool
    ensures forbidden { result ≡ true → (command.now ≡ Command.Stop) × (access ≡ Access.Reading) }
    ensures allowed { result ≡ false → command.now ≡ Command.Stop → access ≡ Access.All }
{
    match command {
        Command::Stop => match access {
            Access::All => false,
            Access::Reading => true,
        },
        _ => false,
    }
}

/// Whether the tables have to be looked at before the reply to the command.
pub fn needs_tables(command: &Option<Command>) -> bool
    ensures known { IfSome command.now (λ command. result ≡ shows_tables_by command) }
    ensures unknown { command.now ≡ None → result ≡ false }
{
    match command {
        Some(command) => shows_tables(command),
        None => false,
    }
}

fn command_in(line: &[u8]) -> Option<Command>
    ensures { IsLineReading line.now result }
{
    match str::from_utf8(line) {
        Ok(text) => parse_command(text),
        Err(_) => None,
    }
}
