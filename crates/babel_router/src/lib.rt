//! Speakers that run: a router on real links (RFC 8966, section 4), which is the command `run`, and
//! a speaker over UDP and IPv4, the command `speak`.
//!
//! `speaking` is the command `speak`. Both have in common:
//!
//! - `selections`: the selected routes as they are printed. `printing`: what else is printed.
//! - `counting`: what is counted.
//! - `keeping`: a wire with the file in which the snapshot is kept.
//! - `controlling`: the control socket. `limits`: their limits.
//!
//! The rest is the command `run`, over the devices and the wire of `babel_devices`:
//!
//! - `words`: what the command line and the file of `--config` ask for. `running`: the run.
//! - `pacing`: when it sends. `turns`: the turns of the speaker with the changes of devices.
#![tactic(auto)]

mod controlling;
mod counting;
mod errors;
mod keeping;
mod limits;
mod pacing;
mod printing;
mod running;
mod selections;
mod speaking;
mod turns;
mod words;

pub use babel_devices::{DeviceFault, DeviceSettings, Settings};
pub use controlling::{IgnoredUpdates, LiveLog, SpeakerTables};
pub use errors::{RunCode, RunFault, WordsFault};
pub use running::{Printed, RunOptions, run};
pub use speaking::{KeptOptions, SpeakOptions, speak, speak_kept};
pub use words::{RunWords, run_words};
