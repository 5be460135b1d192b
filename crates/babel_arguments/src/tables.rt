//! A command as a table of its arguments, with the texts of its help.

/// The commands of the program.
#[derive(Clone, Copy)]
pub enum CommandName {
    /// Shows datagrams.
    Show,
    /// Checks a configuration.
    Check,
    /// Replays a log.
    Replay,
    /// Explains the routes after a log.
    Explain,
    /// Runs the network of a scenario.
    Net,
    /// Simulates the network of a topology.
    Simulate,
    /// Runs the speaker of a configuration.
    Speak,
    /// Runs a speaker on the network's devices.
    Run,
    /// Asks a running speaker.
    Ask,
    /// Writes a topology.
    Topology,
}

/// The program: the texts of its help, and its commands.
#[derive(Clone, Copy)]
pub struct Program<'p> {
    /// Its name.
    pub name: &'static str,
    /// The version that it prints.
    pub version: &'static str,
    /// What it does, in a line.
    pub about: &'static str,
    /// What its help prints after the commands.
    pub after_help: &'static str,
    /// Its commands, in the order of the help.
    pub subcommands: &'p [Subcommand],
}

/// A command: its arguments, and the texts of its help.
#[derive(Clone, Copy)]
pub struct Subcommand {
    /// Which command it is.
    pub command: CommandName,
    /// The word of the command line that names it.
    pub name: &'static str,
    /// What it does, in a line.
    pub about: &'static str,
    /// Its usage, if that is not made of the arguments.
    pub usage: Option<&'static str>,
    /// What its help prints after the arguments.
    pub after_help: &'static str,
    /// Its arguments, in the order of the help.
    pub arguments: &'static [Argument],
}

/// An argument of a command.
#[derive(Clone, Copy)]
pub struct Argument {
    /// The name by which it is read, without dashes.
    pub name: &'static str,
    /// How it is found among the words.
    pub place: Place,
    /// What it takes.
    pub takes: Takes,
    /// Whether it may be left out, and what it is given with.
    pub rules: &'static [Rule],
    /// The line of the help.
    pub help: &'static str,
}

/// How an argument is found among the words.
#[derive(Clone, Copy)]
pub enum Place {
    /// By its position.
    Position,
    /// By its name, after two dashes.
    Name,
}

/// What an argument takes. The first text is the name of the value in the help.
#[derive(Clone, Copy)]
pub enum Takes {
    /// Nothing: it is there or not.
    Nothing,
    /// A text.
    Text(&'static str),
    /// Several texts, one each time that it is given.
    Texts(&'static str),
    /// A number from the least to the greatest.
    Number(&'static str, u64, u64),
    /// One of the words.
    Word(&'static str, &'static [&'static str]),
    /// Some of the words, with commas between them.
    Words(&'static str, &'static [&'static str]),
}

/// Whether an argument may be left out, and what it is given with. The text is the name of another
/// argument.
#[derive(Clone, Copy)]
pub enum Rule {
    /// It can't be left out.
    Required,
    /// It can be left out if the other one is given.
    RequiredUnless(&'static str),
    /// It is not given together with the other one.
    ConflictsWith(&'static str),
    /// It is given only together with the other one.
    Requires(&'static str),
}

/// What most arguments that are found by their position have in common.
pub const POSITIONAL: Argument = Argument {
    name: "",
    place: Place::Position,
    takes: Takes::Nothing,
    rules: &[Rule::Required],
    help: "",
};

/// What most arguments `--name VALUE` have in common: they may be left out.
pub const OPTION: Argument = Argument {
    name: "",
    place: Place::Name,
    takes: Takes::Nothing,
    rules: &[],
    help: "",
};

/// What arguments `--name` without a value have in common.
pub const FLAG: Argument = OPTION;
