//! The pictures of `simulate`: which are asked for, and their files.

use crate::refusals::Refused;
use crate::targets::{Target, keep_target};
use babel_outcome::Shown;
use babel_pictures::{Picture, Scene, picture_of, write_dot, write_svg};
use babel_topology::parse_time;
use babel_value::Prefix;
use clap::ArgMatches;
use std::fs::Files;

/// The moment of `--at`, in centiseconds; without it that of the end.
pub(crate) fn moment_of(arguments: &ArgMatches<'_>) -> Result<u64, Refused> {
    match arguments.get_str("at") {
        None => Ok(u64::MAX),
        Some(text) => match parse_time(text) {
            Some(at) => Ok(at),
            None => Err(Refused::Moment),
        },
    }
}

/// Writes the pictures that are asked for, each file whole or not at all.
pub(crate) fn write_pictures<F: AllocGlobal + Files>(
    rt: &F,
    arguments: &ArgMatches<'_>,
    shown: &Shown<'_>,
    at: u64,
) -> Result<(), Refused> {
    let svg = arguments.get_str("svg");
    let dot = arguments.get_str("dot");
    if svg.is_none() && dot.is_none() {
        return Ok(());
    }
    let prefix = drawn_prefix(shown);
    let picture = picture_of(rt.alloc(), shown, Scene { prefix, at })?;
    write_files(rt, &picture, svg, dot)
}

/// The prefix that is drawn: the one that is asked for, or else the first one. Without any the
/// network is drawn alone.
fn drawn_prefix(shown: &Shown<'_>) -> Option<Prefix> {
    match shown.prefix {
        Some(prefix) => Some(prefix),
        None => shown.outcome.prefixes.first().copied(),
    }
}

fn write_files<F: AllocGlobal + Files>(
    rt: &F,
    picture: &Picture,
    svg: Option<&str>,
    dot: Option<&str>,
) -> Result<(), Refused> {
    if let Some(path) = svg {
        keep_svg(rt, picture, path)?;
    }
    match dot {
        Some(path) => keep_dot(rt, picture, path),
        None => Ok(()),
    }
}

fn keep_svg<F: AllocGlobal + Files>(rt: &F, picture: &Picture, path: &str) -> Result<(), Refused> {
    let mut octets = Vec::new(rt.alloc());
    // Writing into memory fails only if an allocation does.
    match write_svg(rt.alloc(), picture, &mut octets) {
        Ok(()) => keep_target(rt, Target::Svg, path, &octets),
        Err(_) => Err(Refused::Memory),
    }
}

fn keep_dot<F: AllocGlobal + Files>(rt: &F, picture: &Picture, path: &str) -> Result<(), Refused> {
    let mut octets = Vec::new(rt.alloc());
    match write_dot(picture, &mut octets) {
        Ok(()) => keep_target(rt, Target::Dot, path, &octets),
        Err(_) => Err(Refused::Memory),
    }
}
