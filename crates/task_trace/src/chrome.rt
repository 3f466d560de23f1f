//! Events as Chrome's trace events.
ghost use Rattle.std.specs.Prelude.{◌≡◌, ◌≤◌, ◌∷◌, [], None, Some, OnOk, IfOk, IfErr, string_bytes, codes};
ghost use Rattle.serde.specs.Event.{field_key, double};
ghost use Rattle.serde.specs.declared.name.Case.TheVariants.{AsIs};
ghost use Rattle.serde_json.specs.Sent.{IsTextOf};
ghost use Rattle.task_trace.specs.declared.error.TraceError.TheVariants.{OutOfMemory};
ghost use Rattle.task_trace.specs.Chrome.{Grows, text_member, number_member, micros, common_members, event_members, hart_members, members_from, trace_members};

use crate::error::TraceError;
use crate::event::Event;
use serde::{Described, Serialize, Serializer};
use std::alloc::Global;
use std::num::nearest_u64_to_f64;

/// The events of each hart, as `chrome://tracing` and Perfetto read them.
#[derive(Clone, Copy)]
struct ChromeTrace<'p> {
    harts: &'p [Vec<Event>],
}

impl Described for ChromeTrace<'_> {
    ghost writes = { λ trace old new. Grows old new (trace_members trace.harts.now) };
}

// Why by hand: the text grows event by event, without a second list of events, and the contract states what is written.
impl Serialize for ChromeTrace<'_> {
    fn serialize<S: Serializer>(&self, out: &mut S) -> Result<(), S::Error> {
        out.begin_map(None)?;
        out.key("traceEvents")?;
        out.begin_seq(None)?;
        write_harts(out, self.harts)?;
        out.end_seq()?;
        write_text(out, "displayTimeUnit", "ns")?;
        out.end_map()?;
        Ok(())
    }
}

// Writes the events of all harts.
fn write_harts<S: Serializer>(out: &mut S, harts: &[Vec<Event>]) -> Result<(), S::Error>
    ensures { OnOk result (Grows (S.written out.old) (S.written out.new) (members_from 0 harts.now)) }
{
    'harts: for hart in 0..harts.len() {
        write_hart(out, hart as u64, harts[hart].as_slice())?;
    }
    Ok(())
}

// Writes the events of a hart.
fn write_hart<S: Serializer>(out: &mut S, hart: u64, events: &[Event]) -> Result<(), S::Error>
    ensures { OnOk result
        (Grows (S.written out.old) (S.written out.new) (hart_members hart events.now)) }
{
    'events: for index in 0..events.len() {
        write_event(out, hart, &events[index])?;
    }
    Ok(())
}

// Writes an event of a hart.
fn write_event<S: Serializer>(out: &mut S, hart: u64, event: &Event) -> Result<(), S::Error>
    ensures { OnOk result
        (Grows (S.written out.old) (S.written out.new) (event_members hart event.now)) }
{
    match *event {
        Event::Begin(site, nanos) => write_begin(out, hart, site, nanos),
        Event::End(nanos) => write_end(out, hart, nanos),
    }
}

// Writes that a task begins.
fn write_begin<S: Serializer>(out: &mut S, hart: u64, site: u16, nanos: u64) -> Result<(), S::Error>
    ensures { OnOk result
        (Grows (S.written out.old) (S.written out.new) (event_members hart (Event.Begin site nanos))) }
{
    write_common(out, "B", nanos, hart)?;
    out.key("args")?;
    out.begin_map(None)?;
    write_number(out, "site", site as u64)?;
    out.end_map()?;
    out.end_map()?;
    Ok(())
}

// Writes that a task ends.
fn write_end<S: Serializer>(out: &mut S, hart: u64, nanos: u64) -> Result<(), S::Error>
    ensures { OnOk result
        (Grows (S.written out.old) (S.written out.new) (event_members hart (Event.End nanos))) }
{
    write_common(out, "E", nanos, hart)?;
    out.end_map()
}

// Writes what begins and ends have in common.
fn write_common<S: Serializer>(
    out: &mut S,
    kind: &str,
    nanos: u64,
    hart: u64,
) -> Result<(), S::Error>
    ensures { OnOk result
        (Grows (S.written out.old) (S.written out.new) (common_members kind.now nanos hart)) }
{
    out.begin_map(None)?;
    write_text(out, "name", "task")?;
    write_text(out, "ph", kind)?;
    write_time(out, nanos)?;
    write_number(out, "pid", 0)?;
    write_number(out, "tid", hart)?;
    Ok(())
}

// Writes the time of an event, in microseconds.
fn write_time<S: Serializer>(out: &mut S, nanos: u64) -> Result<(), S::Error>
    ensures { OnOk result (Grows (S.written out.old) (S.written out.new)
        (field_key (codes "ts") AsIs ∷ double (micros nanos) ∷ [])) }
{
    out.key("ts")?;
    out.f64(micros_of(nanos))
}

// Nanoseconds in microseconds, the nearest double.
fn micros_of(nanos: u64) -> f64
    ensures { result ≡ micros nanos }
{
    nearest_u64_to_f64(nanos) / nearest_u64_to_f64(1000)
}

// Writes a member with a text.
fn write_text<S: Serializer>(out: &mut S, key: &str, value: &str) -> Result<(), S::Error>
    ensures { OnOk result
        (Grows (S.written out.old) (S.written out.new) (text_member key.now value.now)) }
{
    out.key(key)?;
    out.str(value)
}

// Writes a member with a number.
fn write_number<S: Serializer>(out: &mut S, key: &str, value: u64) -> Result<(), S::Error>
    ensures { OnOk result
        (Grows (S.written out.old) (S.written out.new) (number_member key.now value)) }
{
    out.key(key)?;
    out.u64(value)
}

/// Writes the events of each hart as JSON. The number of a hart is its index in the slice.
///
/// A task is a pair of events, `B` and `E`. The thread `tid` is the hart, `ts` is the time in microseconds, and `args` has the
/// site that the hart was in. The events of a hart stand in their order.
///
/// # Errors
///
/// `OutOfMemory`.
///
/// # Memory
///
/// The text, about 150 bytes for each task.
pub fn chrome_trace(alloc: Global, harts: &[Vec<Event>]) -> Result<String, TraceError>
    ensures text { IfOk result (λ text. IsTextOf (Some (trace_members harts.now)) (string_bytes text)) }
    ensures error { IfErr result (λ error. error ≡ OutOfMemory) }
{
    // Why no other error: the trace has only texts and finite numbers.
    match serde_json::to_string(alloc, &ChromeTrace { harts }) {
        Ok(text) => Ok(text),
        Err(_) => Err(TraceError::OutOfMemory),
    }
}
