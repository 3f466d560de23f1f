//! What a viewer reads in a text.
use serde_json::{Error, Value};
use std::alloc::Global;
use std::test::Fail;
use task_trace::{Event, chrome_trace};

/// What a viewer reads of one hart.
#[derive(Clone, Copy, Debug, PartialEq)]
pub struct Seen {
    /// The number of tasks that began.
    pub begun: u64,
    /// The number of tasks that ended.
    pub ended: u64,
    /// The number of tasks that began in the base.
    pub in_base: u64,
    /// Whether no end came without a task that runs, no time went back, and no task runs at the end.
    pub is_nested: bool,
}

/// What a viewer reads of a hart in a text.
pub fn seen_of(alloc: Global, text: &str, hart: u64) -> Result<Seen, Error> {
    let trace = Value::from_str(alloc, text)?;
    let mut seen = Seen {
        begun: 0,
        ended: 0,
        in_base: 0,
        is_nested: true,
    };
    let mut before = 0.0;
    let Some(events) = trace.get("traceEvents").and_then(Value::as_array) else {
        seen.is_nested = false;
        return Ok(seen);
    };
    for event in events.as_slice() {
        if number(event, "/tid") == Some(hart) {
            let time = event.get("ts").and_then(Value::as_f64).unwrap_or(-1.0);
            add(&mut seen, event);
            seen.is_nested = seen.is_nested && before <= time;
            before = time;
        }
    }
    seen.is_nested = seen.is_nested && seen.begun == seen.ended;
    Ok(seen)
}

// Adds an event to what was read.
fn add(seen: &mut Seen, event: &Value) {
    match event.get("ph").and_then(Value::as_str) {
        Some("B") => {
            seen.begun = seen.begun.wrapping_add(1);
            if number(event, "/args/site") == Some(0) {
                seen.in_base = seen.in_base.wrapping_add(1);
            }
        }
        Some("E") => {
            seen.ended = seen.ended.wrapping_add(1);
            seen.is_nested = seen.is_nested && seen.ended <= seen.begun;
        }
        _ => seen.is_nested = false,
    }
}

// The number at a path.
fn number(event: &Value, path: &str) -> Option<u64> {
    event.pointer(path).and_then(Value::as_u64)
}

#[test]
fn a_task_is_a_pair_of_events(rt: HostRuntime) -> Result<(), Fail> {
    let first = vec![in rt.alloc()]?;
    let second = vec![in rt.alloc(); Event::Begin(7, 1500), Event::End(2_000_000)]?;
    let text = chrome_trace(rt.alloc(), &[first, second]);
    let expected = concat!(
        r#"{"traceEvents":["#,
        r#"{"name":"task","ph":"B","ts":1.5,"pid":0,"tid":1,"args":{"site":7}},"#,
        r#"{"name":"task","ph":"E","ts":2000.0,"pid":0,"tid":1}],"#,
        r#""displayTimeUnit":"ns"}"#
    );
    match text {
        Ok(text) => assert_eq!(rt; text.as_str(), expected),
        Err(error) => assert!(rt; false, "{error:?}"),
    }
    Ok(())
}
