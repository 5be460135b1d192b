//! What changed of a speaker since it was looked at last.

ghost use Rattle.std.specs.Prelude.{◌≡◌, ◌++◌, [], length, flat_map, OnOk};
ghost use Rattle.std.specs.String.{string_bytes};
ghost use Rattle.babel_control.specs.Changes.{dump_lines};
ghost use Rattle.babel_control.specs.Lines.{interface_line, xroute_line};
ghost use Rattle.babel_control.specs.declared.lines.Event.TheVariants.{Add};

use crate::lines::{Event, push_interface, push_xroute};
use crate::rows::Row;
use crate::{DeviceAddresses, DeviceView, NeighbourRow, RouteRow, Tables, View};
use babel_value::Prefix;
use std::alloc::{AllocError, Global};
use std::cmp::Ordering;
use std::marker::Model;

/// A row, and the identifier that its lines have.
#[derive(Drop)]
pub(crate) struct Known<T: Row> {
    id: u64,
    row: T,
}

/// What was written of a speaker last: its devices, neighbours, announced prefixes and routes.
#[derive(Drop)]
pub struct Changes {
    pub(crate) alloc: Global,
    /// The devices by their numbers. One that was never written has no entry.
    devices: Vec<Option<DeviceAddresses>>,
    neighbours: Vec<Known<NeighbourRow>>,
    prefixes: Vec<Prefix>,
    routes: Vec<Known<RouteRow>>,
    /// The identifier that was given last.
    last_id: u64,
}

impl Model for Changes {
    ghost use Rattle.babel_control.specs.Changes.{ChangesValue};

    ghost Value = { ChangesValue };

    ghost view = { λ c. record { devices = c.devices.items; neighbours = c.neighbours.items; prefixes = c.prefixes.items; routes = c.routes.items; last_id = c.last_id } };
}

impl Changes {
    /// Nothing was written.
    pub fn new(alloc: Global) -> Changes
        ensures devices { result.devices ≡ [] }
        ensures neighbours { result.neighbours ≡ [] }
        ensures prefixes { result.prefixes ≡ [] }
        ensures routes { result.routes ≡ [] }
        ensures last_id { result.last_id ≡ 0 }
    {
        Changes {
            alloc,
            devices: Vec::new(alloc),
            neighbours: Vec::new(alloc),
            prefixes: Vec::new(alloc),
            routes: Vec::new(alloc),
            last_id: 0,
        }
    }

    /// How many neighbours there were when the speaker was looked at last.
    pub fn neighbour_count(&self) -> usize
        ensures { result ≡ length self.now.neighbours }
    {
        self.neighbours.len()
    }

    /// How many routes there were then.
    pub fn route_count(&self) -> usize
        ensures { result ≡ length self.now.routes }
    {
        self.routes.len()
    }

    /// Looks at the speaker, and writes a line for each thing that is new, another or gone.
    ///
    /// # Errors
    ///
    /// An allocation failed. What was written last isn't known then, so no client may go on with
    /// it.
    pub fn write_changes<T: Tables>(
        &mut self,
        view: &View<'_, T>,
        out: &mut String,
    ) -> Result<(), AllocError> {
        let alloc = self.alloc;
        let devices = view.devices;
        let rows = view.tables.rows(alloc)?;
        write_devices(&mut self.devices, devices, out)?;
        let mut writing = Writing {
            alloc,
            devices,
            last_id: self.last_id,
        };
        self.neighbours = writing.write_rows(&self.neighbours, &rows.neighbours, out)?;
        write_missing(&self.prefixes, &rows.prefixes, Event::Flush, out)?;
        write_missing(&rows.prefixes, &self.prefixes, Event::Add, out)?;
        self.routes = writing.write_rows(&self.routes, &rows.routes, out)?;
        self.last_id = writing.last_id;
        self.prefixes = rows.prefixes;
        Ok(())
    }

    /// Writes a line for each thing that was there when the speaker was looked at last.
    ///
    /// # Errors
    ///
    /// An allocation failed.
    pub fn write_all(&self, devices: &[DeviceView<'_>], out: &mut String) -> Result<(), AllocError>
        ensures { OnOk result (string_bytes out.new ≡ string_bytes out.old ++ dump_lines devices.now self.now) }
    {
        write_interfaces(devices, out)?;
        write_known(&self.neighbours, devices, out)?;
        write_xroutes(&self.prefixes, out)?;
        write_known(&self.routes, devices, out)?;
        Ok(())
    }
}

fn write_interfaces(devices: &[DeviceView<'_>], out: &mut String) -> Result<(), AllocError>
    ensures { OnOk result (string_bytes out.new ≡ string_bytes out.old ++ flat_map (interface_line Add) devices.now) }
{
    for device in devices {
        push_interface(out, Event::Add, device)?;
    }
    Ok(())
}

fn write_xroutes(prefixes: &[Prefix], out: &mut String) -> Result<(), AllocError>
    ensures { OnOk result (string_bytes out.new ≡ string_bytes out.old ++ flat_map (xroute_line Add) prefixes.now) }
{
    for prefix in prefixes {
        push_xroute(out, Event::Add, prefix)?;
    }
    Ok(())
}

fn write_known<T: Row>(
    known: &[Known<T>],
    devices: &[DeviceView<'_>],
    out: &mut String,
) -> Result<(), AllocError>
    ensures { OnOk result (string_bytes out.new ≡ string_bytes out.old ++ flat_map (λ it. T.line it.row Add it.id devices.now) known.now) }
{
    for it in known {
        it.row.push_line(out, Event::Add, it.id, devices)?;
    }
    Ok(())
}

/// Writes a line for each device that is another.
fn write_devices(
    written: &mut Vec<Option<DeviceAddresses>>,
    devices: &[DeviceView<'_>],
    out: &mut String,
) -> Result<(), AllocError> {
    for (number, device) in devices.iter().enumerate() {
        match written.get_mut(number) {
            Some(known) => write_device(known, device, out)?,
            None => {
                push_interface(out, Event::Add, device)?;
                written.push(device.addresses)?;
            }
        }
    }
    Ok(())
}

fn write_device(
    known: &mut Option<DeviceAddresses>,
    device: &DeviceView<'_>,
    out: &mut String,
) -> Result<(), AllocError> {
    if *known == device.addresses {
        return Ok(());
    }
    *known = device.addresses;
    push_interface(out, Event::Change, device)
}

/// Writes a line for each of these prefixes that isn't among the others.
fn write_missing(
    prefixes: &[Prefix],
    others: &[Prefix],
    event: Event,
    out: &mut String,
) -> Result<(), AllocError> {
    for prefix in prefixes {
        if !others.contains(prefix) {
            push_xroute(out, event, prefix)?;
        }
    }
    Ok(())
}

/// With what rows are written.
#[derive(Clone, Copy)]
struct Writing<'p, 'v> {
    alloc: Global,
    devices: &'p [DeviceView<'v>],
    /// The identifier that was given last.
    last_id: u64,
}

impl Writing<'_, '_> {
    /// Writes a line for each row that is new, another or gone. Both lists are in ascending order.
    fn write_rows<T: Row>(
        &mut self,
        before: &[Known<T>],
        now: &[T],
        out: &mut String,
    ) -> Result<Vec<Known<T>>, AllocError> {
        let mut rows = Vec::new(self.alloc);
        let mut from = 0;
        for number in 0..=now.len() {
            let row = now.get(number);
            from = write_gone(before, from, row, self.devices, out)?;
            let Some(row) = row else {
                break;
            };
            let (event, id) = match before.get(from) {
                Some(known) if known.row.compare(row) == Ordering::Equal => {
                    from = from.saturating_add(1);
                    let is_another = known.row != *row;
                    (is_another.then_some(Event::Change), known.id)
                }
                _ => {
                    self.last_id = self.last_id.saturating_add(1);
                    (Some(Event::Add), self.last_id)
                }
            };
            if let Some(event) = event {
                row.push_line(out, event, id, self.devices)?;
            }
            rows.push(Known { id, row: *row })?;
        }
        Ok(rows)
    }
}

/// Writes that the rows from `from` on are gone, up to the first that isn't before `end`; without
/// an `end`, all. Returns the index of the first that isn't gone.
fn write_gone<T: Row>(
    rows: &[Known<T>],
    from: usize,
    end: Option<&T>,
    devices: &[DeviceView<'_>],
    out: &mut String,
) -> Result<usize, AllocError> {
    for place in from..rows.len() {
        if let Some(known) = rows.get(place) {
            if let Some(end) = end {
                if known.row.compare(end) != Ordering::Less {
                    return Ok(place);
                }
            }
            known.row.push_line(out, Event::Flush, known.id, devices)?;
        }
    }
    Ok(rows.len())
}
