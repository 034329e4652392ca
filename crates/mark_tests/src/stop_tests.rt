use crate::beds::{Case, Told, Wanted, bench_of, goes_so, has_world, system_of, tells};
use crate::mark_tests::{ACTIVE_OTHER, B_FIRST, LIST};
use machine::Fault;
use machine_bench::Bench;
use std::alloc::Global;

// The calls of an activation, by the fault of each, and the programs that were run before it.
static CALLS: [(Fault, &str); 6] = [
    (Fault::Read, ""),
    (Fault::Read, ""),
    (Fault::Clock, ""),
    (Fault::Run, ""),
    (Fault::Run, LIST),
    (Fault::Replace, B_FIRST),
];

// Whether a stop of the power leaves these runs and no status file.
fn stands_a_stop(m: Bench, runs: &str) -> bool {
    match m.after_stop(0) {
        Ok(left) => {
            let right = has_world(&left, runs, None);
            drop(left);
            right
        }
        Err(_) => false,
    }
}

fn stops_so(alloc: Global, case: &Case, fault: Fault, runs: &'static str) -> bool {
    let Some(system) = system_of(alloc, case.conf) else {
        return false;
    };
    match bench_of(alloc, case) {
        Some(mut m) => {
            let told = tells(alloc, &mut m, &system, case, &Told::Fault(fault));
            stands_a_stop(m, runs) && told
        }
        None => false,
    }
}

// Whether a call that fails, and a stop of the power at it, leave what was done before it.
fn is_right_at(alloc: Global, number: u64, fault: Fault, runs: &'static str) -> bool {
    let fails = Case {
        fails: Some(number),
        ..ACTIVE_OTHER
    };
    let stops = Case {
        stop: Some(number),
        ..ACTIVE_OTHER
    };
    let wanted = Wanted {
        told: Told::Fault(fault),
        runs,
        status: None,
    };
    goes_so(alloc, &fails, &wanted) && stops_so(alloc, &stops, fault, runs)
}

fn first_wrong(alloc: Global) -> Option<usize> {
    for (at, (fault, runs)) in CALLS.iter().enumerate() {
        if !is_right_at(alloc, at as u64 + 1, *fault, runs) {
            return Some(at);
        }
    }
    None
}

#[test]
fn stops(rt: HostRuntime) {
    assert_eq!(rt; first_wrong(rt.alloc()), None);
}
