//! The threads that each schedule picks, one turn after the other.

use kt_sched::Schedule;
use kt_types::Turns;
use std::alloc::Global;
use std::test::Fail;

// The thread of the next turn, where these are enabled.
fn pick(schedule: &mut Schedule, threads: &[usize]) -> Result<u8, Fail> {
    let mut enabled = [false; 65];
    for thread in threads {
        if *thread < 65 {
            enabled[*thread] = true;
        }
    }
    if !enabled.contains(&true) {
        return Err(Fail::from("no thread is enabled"));
    }
    Ok(schedule.pick(&enabled))
}

// Each turn's enabled threads, with the thread that is to be picked.
fn check(schedule: &mut Schedule, turns: &[(&[usize], u8)]) -> Result<(), Fail> {
    for (threads, wanted) in turns {
        if pick(schedule, threads)? != *wanted {
            return Err(Fail::from("another thread"));
        }
    }
    Ok(())
}

fn round_robin(quantum: u32) -> Schedule {
    Schedule::RoundRobin {
        quantum,
        thread: 0,
        used: 0,
    }
}

#[test]
fn round_robin_takes_a_quantum_of_turns() -> Result<(), Fail> {
    check(
        &mut round_robin(2),
        &[
            (&[0, 1, 2], 0),
            (&[0, 1, 2], 0),
            (&[0, 1, 2], 1),
            (&[0, 1, 2], 1),
            (&[0, 1, 2], 2),
            (&[0, 1, 2], 2),
            (&[0, 1, 2], 0),
        ],
    )
}

// A thread that isn't enabled loses what is left of its quantum.
#[test]
fn round_robin_goes_on_with_the_next_one() -> Result<(), Fail> {
    check(
        &mut round_robin(3),
        &[
            (&[0, 2], 0),
            (&[2], 2),
            (&[0, 2], 2),
            (&[0, 2], 2),
            (&[0, 2], 0),
            (&[2], 2),
            (&[0], 0),
        ],
    )
}

// The search goes up to thread 64, then from 0 on, and comes to the last thread itself at the end.
#[test]
fn round_robin_searches_round() -> Result<(), Fail> {
    check(
        &mut round_robin(1),
        &[
            (&[5, 64], 5),
            (&[5, 64], 64),
            (&[5, 64], 5),
            (&[5], 5),
            (&[3, 5], 3),
            (&[3], 3),
            (&[0, 3, 4], 4),
            (&[0, 3, 4], 0),
        ],
    )
}

// As long as one thread lives it takes all turns.
#[test]
fn round_robin_of_one_thread() -> Result<(), Fail> {
    let mut schedule = round_robin(50);
    for _ in 0..200 {
        check(&mut schedule, &[(&[0], 0)])?;
    }
    Ok(())
}

// The picks are those of a calculation in Python.
#[test]
fn mixed_picks_among_all() -> Result<(), Fail> {
    let mut schedule = Schedule::Mixed { x: 0 };
    let enabled = [true; 65];
    for wanted in [62, 64, 2, 11, 40, 21, 24, 45, 54, 14] {
        if schedule.pick(&enabled) != wanted {
            return Err(Fail::from("another thread"));
        }
    }
    match schedule {
        Schedule::Mixed {
            x: 8_237_903_092_696_572_954,
        } => Ok(()),
        _ => Err(Fail::from("another number")),
    }
}

#[test]
fn mixed_picks_among_some() -> Result<(), Fail> {
    let mut schedule = Schedule::Mixed { x: u64::MAX };
    for wanted in [0, 64, 3, 7, 0, 64, 3, 64, 0, 0, 64, 7] {
        check(&mut schedule, &[(&[0, 3, 7, 64], wanted)])?;
    }
    check(&mut schedule, &[(&[5], 5)])
}

// A listed thread that isn't enabled, or is none, gives way to the least enabled one, and so does the end of the list.
#[test]
fn listed_threads_take_their_turns(rt: HostRuntime) -> Result<(), Fail> {
    let alloc: Global = rt.alloc();
    let turns = Turns::from_vec(vec![in alloc; 1, 0, 2, 200, 4, 3]?);
    check(
        &mut Schedule::Listed { turns, made: 0 },
        &[
            (&[0, 1], 1),
            (&[0, 1], 0),
            (&[0, 1], 0),
            (&[3, 4], 3),
            (&[3, 4], 4),
            (&[3, 4], 3),
            (&[3, 4], 3),
            (&[7, 64], 7),
        ],
    )
}
