//! Check sums, compared with those that `tools/task_sums` prints, programs with their lines, and words that are refused.
use crate::error::DemoError;
use crate::runs::{Output, run_demo};
use crate::words::{Demo, Library, Made, Work, demo_of};
use std::alloc::{AllocError, Global};
use std::sync::Wait;
use std::test::Fail;
use std::thread::Threads;
use std::time::Clock;
use task_trace::{Trace, chrome_trace};

// Whether a run has this check sum on 1, 2, 4 and 16 harts.
fn has_sum<R: Threads + Wait + Clock + Sync>(
    rt: &R,
    alloc: Global,
    library: Library,
    count: u32,
    seed: u64,
    sum: u64,
) -> bool {
    for harts in [1u8, 2, 4, 16] {
        let demo = Demo {
            work: Work::Library(Made {
                library,
                count,
                seed,
            }),
            harts,
            trace: None,
        };
        let Ok(ran) = run_demo(rt, alloc, &demo, b"", None) else {
            return false;
        };
        if ran.output != Output::Sum(sum) {
            return false;
        }
    }
    true
}

#[test]
fn sorts_have_their_sums(rt: HostRuntime) -> Result<(), Fail> {
    assert!(rt;
        has_sum(
            &rt,
            rt.alloc(),
            Library::Sort,
            1000,
            3,
            15400790527062553858
        )
    );
    assert!(rt;
        has_sum(
            &rt,
            rt.alloc(),
            Library::Sort,
            20_000,
            u64::MAX,
            6030135711770996555
        )
    );
    assert!(rt; has_sum(&rt, rt.alloc(), Library::Sort, 0, 1, 0));
    Ok(())
}

#[test]
fn products_have_their_sums(rt: HostRuntime) -> Result<(), Fail> {
    assert!(rt;
        has_sum(
            &rt,
            rt.alloc(),
            Library::Matrix,
            20,
            5,
            11334307180767261637
        )
    );
    assert!(rt;
        has_sum(
            &rt,
            rt.alloc(),
            Library::Matrix,
            40,
            7,
            16301190544326893975
        )
    );
    assert!(rt; has_sum(&rt, rt.alloc(), Library::Matrix, 0, 1, 0));
    Ok(())
}

#[test]
fn tables_have_their_sums(rt: HostRuntime) -> Result<(), Fail> {
    assert!(rt; has_sum(&rt, rt.alloc(), Library::Nested, 3, 11, 2089507096137781418));
    assert!(rt; has_sum(&rt, rt.alloc(), Library::Flat, 3, 11, 2089507096137781418));
    assert!(rt; has_sum(&rt, rt.alloc(), Library::Empty, 50, 1, 100));
    assert!(rt; has_sum(&rt, rt.alloc(), Library::Empty, 0, 1, 1));
    Ok(())
}

// The words of a text, cut at its spaces.
fn words_in(alloc: Global, text: &str) -> Result<Vec<String>, AllocError> {
    let mut words = Vec::new(alloc);
    for word in text.split(' ') {
        words.push(String::from_str(alloc, word)?)?;
    }
    Ok(words)
}

#[test]
fn words_are_read(rt: HostRuntime) -> Result<(), Fail> {
    let words = words_in(
        rt.alloc(),
        "matrix --count 4000 --harts 64 --seed 18446744073709551615 --trace a.json",
    )?;
    let expected = Demo {
        work: Work::Library(Made {
            library: Library::Matrix,
            count: 4000,
            seed: u64::MAX,
        }),
        harts: 64,
        trace: Some(String::from_str(rt.alloc(), "a.json")?),
    };
    match demo_of(rt.alloc(), &words) {
        Ok(demo) => assert!(rt; demo == expected),
        Err(error) => assert!(rt; false, "{error}"),
    }
    Ok(())
}

#[test]
fn numbers_out_of_range_are_named(rt: HostRuntime) -> Result<(), Fail> {
    for (text, name) in [
        ("sort --count 100000001 --seed 1 --harts 1", "count"),
        ("matrix --count 4001 --seed 1 --harts 1", "count"),
        (
            "sort --count 1 --seed 18446744073709551616 --harts 1",
            "seed",
        ),
        ("sort --count 1 --seed x --harts 1", "seed"),
        ("sort --count 1 --seed 1 --harts 0", "harts"),
        ("sort --count 1 --seed 1 --harts 65", "harts"),
    ] {
        let words = words_in(rt.alloc(), text)?;
        match demo_of(rt.alloc(), &words) {
            Err(DemoError::NotInRange(named, _, _)) => assert_eq!(rt; named, name, "{text}"),
            _ => assert!(rt; false, "{text}"),
        }
    }
    Ok(())
}

#[test]
fn words_without_a_form_are_refused(rt: HostRuntime) -> Result<(), Fail> {
    for text in [
        "sort",
        "heap --count 1 --seed 1 --harts 1",
        "sort --count 1 --seed 1",
        "sort --count 1 --seed 1 --harts 1 --harts 2",
        "sort --count 1 --seed 1 --harts 1 more",
        "sort --count 1 --seed 1 --harts 1 --trace",
        "array --count 1 --harts 1",
        "array",
    ] {
        let words = words_in(rt.alloc(), text)?;
        match demo_of(rt.alloc(), &words) {
            Err(DemoError::Words(_)) => {}
            _ => assert!(rt; false, "{text}"),
        }
    }
    Ok(())
}

// A team of two members in two phases, with an `if`.
const PROGRAM: &[u8] =
    b"array a[4];\nteam i in 0..4 by 2 { a[i] = i * i; } barrier { if a[i] > 3 { a[i] = 3; } }\n";

// The run of a program on so many harts.
fn on_harts(harts: u8) -> Demo {
    Demo {
        work: Work::Program,
        harts,
        trace: None,
    }
}

#[test]
fn programs_print_their_arrays(rt: HostRuntime) -> Result<(), Fail> {
    for harts in [1u8, 4] {
        match run_demo(&rt, rt.alloc(), &on_harts(harts), PROGRAM, None) {
            Ok(ran) => {
                let lines = Output::Lines(b"a = 0 1 3 3\n".to_vec(rt.alloc())?);
                assert!(rt; ran.output == lines, "on {harts} harts");
            }
            Err(error) => assert!(rt; false, "{error}"),
        }
    }
    Ok(())
}

#[test]
fn a_traced_program_has_a_pair_of_events_for_each_job(rt: HostRuntime) -> Result<(), Fail> {
    let Ok(trace) = Trace::new(&rt, rt.alloc(), 4) else {
        return Err(Fail::new("no trace"));
    };
    let ran = run_demo(&rt, rt.alloc(), &on_harts(4), PROGRAM, Some(&trace));
    assert!(rt; ran.is_ok());
    let Ok(events) = trace.into_events(rt.alloc()) else {
        return Err(Fail::new("no events"));
    };
    let text = chrome_trace(rt.alloc(), events.as_slice())?;
    // The body, and two members in each of two phases.
    assert_eq!(rt; text.as_str().matches("\"ph\":\"B\"").count(), 5);
    assert_eq!(rt; text.as_str().matches("\"ph\":\"E\"").count(), 5);
    Ok(())
}

#[test]
fn programs_that_are_not_run_say_why(rt: HostRuntime) -> Result<(), Fail> {
    for (text, wanted) in [
        ("array a[2", "syntax: unexpected at byte 9\n"),
        ("array a[0];", "refused: length 0 at line 1\n"),
    ] {
        let Err(error) = run_demo(&rt, rt.alloc(), &on_harts(2), text.as_bytes(), None) else {
            return Err(Fail::new("the text ran"));
        };
        assert_eq!(rt; error.status(), 2, "{text}");
        match &error {
            DemoError::Refused(line) => assert_eq!(rt; line.as_slice(), wanted.as_bytes()),
            _ => assert!(rt; false, "{text}: {error}"),
        }
    }
    Ok(())
}

#[test]
fn the_words_of_a_program_are_read(rt: HostRuntime) -> Result<(), Fail> {
    let words = words_in(rt.alloc(), "array --harts 64 --trace a.json")?;
    let expected = Demo {
        work: Work::Program,
        harts: 64,
        trace: Some(String::from_str(rt.alloc(), "a.json")?),
    };
    match demo_of(rt.alloc(), &words) {
        Ok(demo) => assert!(rt; demo == expected),
        Err(error) => assert!(rt; false, "{error}"),
    }
    Ok(())
}
