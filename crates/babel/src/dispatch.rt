//! Calls the command that the command line names, and writes its fault.

use crate::commands::{Invocation, invocation_of, program_of, subcommands};
use crate::usage::write_usage;
use babel_arguments::{CommandName, NotingWriter, explain_output, parse, wants_details};
use babel_command_details::{explain_absence, explain_fault, warn};
use babel_commands::{Fault, Status, report, report_fault};
use babel_json::{FaultWriter, FormWriter};
use babel_report_commands::{
    fault_form, files_of, form_of, run_check, run_explain, run_net, run_replay, run_show,
    show_input,
};
use babel_router_commands::{run_ask, run_router, run_speak};
use babel_snapshot_file::LockFile;
use babel_text::LineFault;
use babel_topology_commands::{run_simulate, run_topology};
use std::fs::Files;
use std::io::{BufWriter, IsTerminal, Read, Write};
use std::net::Net;
use std::os::fd::AsRawFd;
use std::time::Clock;

/// How many octets of the output are written at a time.
const WRITE_LEN: usize = 65_536;

/// The standard output, which notes why it couldn't be written, and writes in the form that a
/// command asks for.
type Output<W> = NotingWriter<FormWriter<W>>;

/// Runs the command that the words of the command line name. The first word is the program's name.
pub(crate) fn run<F, R: Read + AsRawFd, W: Write + Drop, E: Write + IsTerminal>(
    rt: &F,
    words: &[String],
    input: &mut R,
    out: Output<W>,
    err: &mut E,
) -> Status
where
    F: AllocGlobal + Files + Net + Clock,
    F::File: LockFile,
{
    match try_run(rt, words, input, out, err) {
        Ok(status) => status,
        Err(fault) => report(fault, err),
    }
}

fn try_run<F, R: Read + AsRawFd, W: Write + Drop, E: Write + IsTerminal>(
    rt: &F,
    words: &[String],
    input: &mut R,
    out: Output<W>,
    err: &mut E,
) -> Result<Status, LineFault>
where
    F: AllocGlobal + Files + Net + Clock,
    F::File: LockFile,
{
    let mut out = BufWriter::with_capacity(rt.alloc(), WRITE_LEN, out).map_err(
        LineFault::of_writing,
    )?;
    let subcommands = subcommands();
    match parse(rt.alloc(), &program_of(&subcommands), words) {
        Ok(matches) => match invocation_of(&subcommands, &matches) {
            Some(invocation) => Ok(run_in_form(rt, invocation, input, &mut out, err)),
            None => Ok(Status::Usage),
        },
        Err(error) => write_usage(&error, &mut out, err),
    }
}

/// Runs the command in the form that its options ask for.
fn run_in_form<F, R: Read + AsRawFd, W: Write + Drop, E: Write + IsTerminal>(
    rt: &F,
    invocation: Invocation<'_, '_>,
    input: &mut R,
    out: &mut BufWriter<Output<W>>,
    err: &mut E,
) -> Status
where
    F: AllocGlobal + Files + Net + Clock,
    F::File: LockFile,
{
    let Invocation { command, arguments } = invocation;
    out.get_mut()
        .inner_mut()
        .set_form(form_of(command, arguments));
    let form = fault_form(command, arguments);
    let files = files_of(arguments);
    let mut err = FaultWriter::new(rt.alloc(), err, form, &files);
    let status = dispatch(rt, invocation, input, out, &mut err);
    // If writing the object fails, the status still reports the fault.
    let _ = err.finish();
    status
}

/// Runs the command, and writes its fault. If people read it, a sentence follows.
fn dispatch<F, R: Read + AsRawFd, W: Write + Drop, E: Write + IsTerminal>(
    rt: &F,
    invocation: Invocation<'_, '_>,
    input: &mut R,
    out: &mut BufWriter<NotingWriter<W>>,
    err: &mut E,
) -> Status
where
    F: AllocGlobal + Files + Net + Clock,
    F::File: LockFile,
{
    let arguments = invocation.arguments;
    match invocation.command {
        CommandName::Show if arguments.get_flag("stdin") => {
            show_input(rt.alloc(), arguments, input, out, err)
        }
        CommandName::Run => run_router(rt, arguments, input, out, err),
        CommandName::Ask => {
            let colours = out.get_ref().colours();
            run_ask(rt, arguments, colours, out, err)
        }
        CommandName::Simulate => run_simulate(rt, arguments, out, err),
        _ => run_explained(rt, invocation, out, err),
    }
}

/// Runs a command of [`run_one`], and writes its fault and the sentences on it.
fn run_explained<F, W: Write + Drop, E: Write + IsTerminal>(
    rt: &F,
    invocation: Invocation<'_, '_>,
    out: &mut BufWriter<NotingWriter<W>>,
    err: &mut E,
) -> Status
where
    F: AllocGlobal + Files + Net + Clock,
    F::File: LockFile,
{
    let Invocation { command, arguments } = invocation;
    let has_details = wants_details(arguments, err);
    // If writing a sentence fails, the status still reports the fault.
    match run_one(rt, invocation, out, err) {
        Ok(status) => {
            if has_details {
                let _ = match command {
                    CommandName::Check => warn(rt, arguments, err),
                    CommandName::Explain if !out.get_ref().is_written() => {
                        explain_absence(rt, arguments, err)
                    }
                    _ => Ok(()),
                };
            }
            status
        }
        Err(fault) => {
            let status = report_fault(fault, err);
            if has_details {
                let _ = match out.get_ref().failure() {
                    Some(failure) if is_of_writing(fault) => explain_output(failure, err),
                    _ => explain_fault(rt, command, arguments, fault, err),
                };
            }
            status
        }
    }
}

/// Whether the output couldn't be written.
fn is_of_writing(fault: Fault) -> bool {
    matches!(
        fault,
        Fault::Output(LineFault::Write) | Fault::Line(_, LineFault::Write)
    )
}

/// Runs a command that reads no standard input, and whose faults have sentences in common. Only
/// sentences on its output are written to `err`.
fn run_one<F, W: Write, E: Write + IsTerminal>(
    rt: &F,
    invocation: Invocation<'_, '_>,
    out: &mut W,
    err: &mut E,
) -> Result<Status, Fault>
where
    F: AllocGlobal + Files + Net + Clock,
    F::File: LockFile,
{
    let arguments = invocation.arguments;
    match invocation.command {
        CommandName::Show => return Ok(run_show(rt.alloc(), arguments, out, err)?),
        CommandName::Check => run_check(rt, arguments, out)?,
        CommandName::Replay => run_replay(rt, arguments, out, err)?,
        CommandName::Explain => run_explain(rt, arguments, out)?,
        CommandName::Net => run_net(rt, arguments, out)?,
        CommandName::Speak => run_speak(rt, arguments, out, err)?,
        CommandName::Topology => run_topology(arguments, out)?,
        CommandName::Simulate | CommandName::Run | CommandName::Ask => return Ok(Status::Usage),
    }
    Ok(Status::Done)
}
