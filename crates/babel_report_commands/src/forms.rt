//! The form of what a command writes: text or JSON objects.

use babel_arguments::{CommandName, argument};
use babel_json::{Addresses, FaultForm, Form, Report};
use clap::ArgMatches;

/// The form of the standard output.
pub fn form_of(command: CommandName, arguments: &ArgMatches<'_>) -> Form {
    let addresses = if arguments.get_flag("short") {
        Addresses::Short
    } else {
        Addresses::Full
    };
    match (report_of(command), arguments.get_flag("json")) {
        (Some(report), true) => Form::Json(report, addresses),
        _ if addresses == Addresses::Short => Form::Short,
        _ => Form::AsWritten,
    }
}

/// Whose lines the command writes, if it writes objects.
fn report_of(command: CommandName) -> Option<Report> {
    match command {
        CommandName::Show => Some(Report::Show),
        CommandName::Check => Some(Report::Check),
        CommandName::Replay => Some(Report::Replay),
        CommandName::Explain => Some(Report::Explain),
        CommandName::Net => Some(Report::Net),
        _ => None,
    }
}

/// The form of the standard error. Sentences on the codes of a report come if they are asked for.
pub fn fault_form(command: CommandName, arguments: &ArgMatches<'_>) -> FaultForm {
    if !arguments.get_flag("json") {
        return FaultForm::AsWritten;
    }
    match command {
        CommandName::Show | CommandName::Replay if !arguments.get_flag("details") => {
            FaultForm::Faults
        }
        _ => FaultForm::FaultsAndSentences,
    }
}

/// The files that a sentence may begin with.
pub fn files_of<'m>(arguments: &'m ArgMatches<'_>) -> [&'m str; 6] {
    let topology = argument(arguments, "topology");
    let config = argument(arguments, "config");
    let log = argument(arguments, "log");
    let scenario = argument(arguments, "scenario");
    let restore = argument(arguments, "restore");
    [topology, config, log, scenario, restore, "standard input"]
}
