//! What is at the place of a control socket that can't be used, if that is seen from outside.

use babel_control::{ControlPlace, parse_place};
use std::fs::{self, Files};
use std::io;
use std::os::unix::fs::FileTypeExt;

/// The most octets of the path of a Unix socket (unix(7)).
const MAX_PATH_LEN: usize = 107;

/// Why a longer one can't be used.
pub(crate) const TOO_LONG: &str =
    "the path is too long for a socket, whose path has at most 107 octets";

/// What is at a place.
#[derive(Clone, Copy)]
pub(crate) enum PlaceState {
    /// It is a number that is no port.
    NoPort,
    /// It is a port.
    Port,
    /// There is a socket.
    Socket,
    /// There is a folder.
    Folder,
    /// There is another file.
    OtherFile,
    /// Nothing is there, or it can't be seen for this reason.
    Unseen(io::ErrorKind),
}

/// What is at the place that a text names.
pub(crate) fn place_state<F: Files>(rt: &F, text: &str) -> PlaceState {
    match parse_place(text) {
        None => PlaceState::NoPort,
        Some(ControlPlace::Port(_)) => PlaceState::Port,
        Some(ControlPlace::Path(path)) => path_state(rt, path),
    }
}

fn path_state<F: Files>(rt: &F, path: &str) -> PlaceState {
    match fs::metadata(rt, path) {
        Err(error) => PlaceState::Unseen(error.kind()),
        Ok(metadata) if metadata.is_dir() => PlaceState::Folder,
        Ok(metadata) if metadata.file_type().is_socket() => PlaceState::Socket,
        Ok(_) => PlaceState::OtherFile,
    }
}

/// Why no control socket can be made at the place.
pub(crate) fn why_not_made<F: Files>(rt: &F, text: &str) -> &'static str {
    match place_state(rt, text) {
        PlaceState::NoPort => "it is no port from 1 to 65535, and no path",
        PlaceState::Port => "another process has the port, or this user may not have it",
        PlaceState::Socket => "another process listens there",
        PlaceState::Folder => "it is a directory",
        PlaceState::OtherFile => "it is another file, which stays as it is",
        PlaceState::Unseen(_) if text.len() > MAX_PATH_LEN => TOO_LONG,
        PlaceState::Unseen(io::ErrorKind::NotFound) => match path_state(rt, folder_of(text)) {
            PlaceState::Folder => "its folder may not be written",
            _ => "its folder isn't there",
        },
        PlaceState::Unseen(io::ErrorKind::PermissionDenied) => "permission denied",
        PlaceState::Unseen(io::ErrorKind::NotADirectory) => "a part of the path is no directory",
        PlaceState::Unseen(_) => "the path can't be used",
    }
}

/// The folder of a path.
fn folder_of(path: &str) -> &str {
    match path.rsplit_once('/') {
        Some(("", _)) => "/",
        Some((folder, _)) => folder,
        None => ".",
    }
}
