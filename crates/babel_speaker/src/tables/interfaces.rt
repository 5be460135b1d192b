//! The interface table (RFC 8966, section 3.2.3).

ghost use Rattle.std.specs.Prelude.{◌≡◌, ◌≤◌, ◌<◌, length, slice_get, slice_set, option_map, IfSome, true};
ghost use Rattle.std.specs.Option.{option_map_or};
ghost use Rattle.babel_value.specs.Metrics.{infinity};
ghost use Rattle.babel_state.specs.Limits.{longest_hello, most_interfaces};
ghost use Rattle.babel_speaker.specs.ShortHellos.{have_short_hellos};

use crate::tables::timers::interface_due;
use babel_state::{InterfaceEntry, MAX_INTERFACES};
use babel_value::Metric;
use std::marker::Model;

/// The interfaces, at most 8, by their numbers from 0 on.
#[derive(Drop)]
pub struct Interfaces {
    pub(crate) entries: Vec<InterfaceEntry>,
    /// Before this moment no timer is due.
    pub(crate) due: u64,
}

impl Model for Interfaces {
    ghost use Rattle.std.specs.Prelude.{◌≡◌, ◌≤◌, List, length, true};
    ghost use Rattle.babel_state.specs.declared.interfaces.InterfaceEntry.{InterfaceEntry};
    ghost use Rattle.babel_state.specs.Limits.{most_interfaces};
    ghost use Rattle.babel_speaker.specs.DueTimers.{AreTimersDueFrom};
    ghost use Rattle.babel_speaker.specs.ShortHellos.{have_short_hellos};

    ghost Value = { List InterfaceEntry };

    ghost view = { λ i. i.entries.items };

    ghost invariant = { λ i. (length i.entries.items ≤ most_interfaces) × (have_short_hellos i.entries.items ≡ true) × AreTimersDueFrom i.due i.entries.items };
}

impl Interfaces {
    /// The interfaces with these entries.
    pub fn new(entries: Vec<InterfaceEntry>) -> Interfaces
        requires few { length entries.items ≤ most_interfaces }
        requires hellos { have_short_hellos entries.items ≡ true }
        ensures { result ≡ entries.items }
    {
        Interfaces { entries, due: 0 }
    }

    /// The interface of the number. Its Hello interval is at most 4,000 centiseconds.
    #[tactic(auto, using(crate::proofs::ShortHellos::short_at))]
    pub fn get(&self, iface: u8) -> Option<InterfaceEntry>
        ensures interface { result ≡ slice_get self.now iface }
        ensures hello { IfSome result (λ i. i.hello ≤ longest_hello) }
    {
        self.entries.get(usize::from(iface)).copied()
    }

    /// The same where it is, without a copy.
    #[tactic(auto, using(crate::proofs::ShortHellos::short_at))]
    pub fn entry(&self, iface: u8) -> Option<&InterfaceEntry>
        ensures interface { option_map (λ i. i.now) result ≡ slice_get self.now iface }
        ensures hello { IfSome result (λ i. i.now.hello ≤ longest_hello) }
    {
        self.entries.get(usize::from(iface))
    }

    /// Changes the interface of the number.
    pub fn set(&mut self, iface: u8, entry: InterfaceEntry)
        requires known { iface < length self.old }
        requires hello { entry.hello ≤ longest_hello }
        ensures { self.new ≡ slice_set self.old iface entry }
    {
        self.due = self.due.min(interface_due(&entry));
        self.entries[usize::from(iface)] = entry;
    }

    /// How many interfaces there are.
    pub fn len(&self) -> u8
        ensures len { result ≡ length self.now }
        ensures within { result ≤ MAX_INTERFACES }
    {
        self.entries.len() as u8
    }

    /// The nominal cost of the interface (RFC 8966, appendix A.2.1): infinite if there is none of
    /// the number.
    pub fn nominal_cost(&self, iface: u8) -> Metric
        ensures { result ≡ option_map_or (λ i. i.cost) (slice_get self.now iface) infinity }
    {
        match self.get(iface) {
            Some(interface) => interface.cost,
            None => Metric::INFINITE,
        }
    }
}
