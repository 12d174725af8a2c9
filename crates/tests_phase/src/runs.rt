//! Runs of events, with what the counters show after each.

use kt_phase::{Phase, Phases};
use std::test::Fail;

#[derive(Clone, Copy)]
enum Event {
    Made,
    Ask,
    Park,
    Refused,
    Restart,
    MainThere,
    Back,
    End,
    EndUpdating,
}

// The event's call and its answer, `false` where it gives none. It fails where the event may not come.
fn happen(phases: &mut Phases, event: Event) -> Result<bool, Fail> {
    let all_parked = phases.phase == Phase::Asked && phases.parked == phases.live;
    match event {
        Event::Made if phases.live < 65 => phases.thread_made(),
        Event::Ask if phases.phase == Phase::Run => phases.ask(),
        Event::Park if phases.phase == Phase::Asked && phases.parked < phases.live => {
            return Ok(phases.park());
        }
        Event::Refused if all_parked => phases.unpark_all(),
        Event::Restart if all_parked => phases.begin_restart(),
        Event::MainThere if phases.phase == Phase::Main && phases.updating > 0 => {
            return Ok(phases.main_there());
        }
        Event::Back if phases.phase == Phase::Others && phases.updating > 0 => {
            return Ok(phases.back());
        }
        Event::End if phases.parked < phases.live && phases.updating < phases.live => {
            return Ok(phases.end_thread(false));
        }
        Event::EndUpdating if phases.parked < phases.live && phases.updating > 0 => {
            return Ok(phases.end_thread(true));
        }
        _ => return Err(Fail::from("an event that may not come")),
    }
    Ok(false)
}

// What the counters show: the phase, and how many threads live, are parked and are updating.
type Shown = (Phase, u8, u8, u8);

// The events from a run's start on, each with the answer that it wants and what the counters show after it.
fn run(events: &[(Event, bool, Shown)]) -> Result<(), Fail> {
    let mut phases = Phases::new();
    for (event, answer, shown) in events {
        if happen(&mut phases, *event)? != *answer {
            return Err(Fail::from("another answer"));
        }
        if (phases.phase, phases.live, phases.parked, phases.updating) != *shown {
            return Err(Fail::from("other counters"));
        }
    }
    Ok(())
}

#[test]
fn loop_updated_once() -> Result<(), Fail> {
    run(&[
        (Event::Ask, false, (Phase::Asked, 1, 0, 0)),
        (Event::Park, true, (Phase::Asked, 1, 1, 0)),
        (Event::Restart, false, (Phase::Main, 1, 0, 1)),
        (Event::MainThere, true, (Phase::Run, 1, 0, 0)),
    ])
}

#[test]
fn point_missing_in_new_version() -> Result<(), Fail> {
    run(&[
        (Event::Ask, false, (Phase::Asked, 1, 0, 0)),
        (Event::Park, true, (Phase::Asked, 1, 1, 0)),
        (Event::Refused, false, (Phase::Run, 1, 0, 0)),
        (Event::Ask, false, (Phase::Asked, 1, 0, 0)),
    ])
}

// Two threads park, `main` comes to its point first, and the other one comes to its own.
#[test]
fn two_threads_are_updated() -> Result<(), Fail> {
    run(&[
        (Event::Ask, false, (Phase::Asked, 1, 0, 0)),
        (Event::Made, false, (Phase::Asked, 2, 0, 0)),
        (Event::Park, false, (Phase::Asked, 2, 1, 0)),
        (Event::Park, true, (Phase::Asked, 2, 2, 0)),
        (Event::Restart, false, (Phase::Main, 2, 0, 2)),
        (Event::MainThere, false, (Phase::Others, 2, 0, 1)),
        (Event::Back, true, (Phase::Run, 2, 0, 0)),
    ])
}

// The last thread that isn't parked ends, and so the closing is due.
#[test]
fn an_end_makes_a_closing_due() -> Result<(), Fail> {
    run(&[
        (Event::Made, false, (Phase::Run, 2, 0, 0)),
        (Event::Made, false, (Phase::Run, 3, 0, 0)),
        (Event::End, false, (Phase::Run, 2, 0, 0)),
        (Event::Ask, false, (Phase::Asked, 2, 0, 0)),
        (Event::Park, false, (Phase::Asked, 2, 1, 0)),
        (Event::End, true, (Phase::Asked, 1, 1, 0)),
        (Event::Restart, false, (Phase::Main, 1, 0, 1)),
    ])
}

// On the way to their points `main` makes a thread, which isn't updating; it ends, then an updating one ends, and the last
// one comes to its point.
#[test]
fn threads_end_on_the_way() -> Result<(), Fail> {
    run(&[
        (Event::Made, false, (Phase::Run, 2, 0, 0)),
        (Event::Made, false, (Phase::Run, 3, 0, 0)),
        (Event::Ask, false, (Phase::Asked, 3, 0, 0)),
        (Event::Park, false, (Phase::Asked, 3, 1, 0)),
        (Event::Park, false, (Phase::Asked, 3, 2, 0)),
        (Event::Park, true, (Phase::Asked, 3, 3, 0)),
        (Event::Restart, false, (Phase::Main, 3, 0, 3)),
        (Event::Made, false, (Phase::Main, 4, 0, 3)),
        (Event::MainThere, false, (Phase::Others, 4, 0, 2)),
        (Event::End, false, (Phase::Others, 3, 0, 2)),
        (Event::EndUpdating, false, (Phase::Others, 2, 0, 1)),
        (Event::Back, true, (Phase::Run, 2, 0, 0)),
    ])
}

// The last updating thread ends, and so the update is over.
#[test]
fn an_end_ends_an_update() -> Result<(), Fail> {
    run(&[
        (Event::Made, false, (Phase::Run, 2, 0, 0)),
        (Event::Ask, false, (Phase::Asked, 2, 0, 0)),
        (Event::Park, false, (Phase::Asked, 2, 1, 0)),
        (Event::Park, true, (Phase::Asked, 2, 2, 0)),
        (Event::Restart, false, (Phase::Main, 2, 0, 2)),
        (Event::MainThere, false, (Phase::Others, 2, 0, 1)),
        (Event::EndUpdating, true, (Phase::Run, 1, 0, 0)),
    ])
}

// 65 threads live: `main` and 64 others, and all of them park.
#[test]
fn all_threads_park() -> Result<(), Fail> {
    let mut phases = Phases::new();
    for _ in 0..64 {
        happen(&mut phases, Event::Made)?;
    }
    happen(&mut phases, Event::Ask)?;
    for parked in 1..=65 {
        if happen(&mut phases, Event::Park)? != (parked == 65) {
            return Err(Fail::from("another answer"));
        }
    }
    happen(&mut phases, Event::Restart)?;
    if (phases.phase, phases.live, phases.parked, phases.updating) != (Phase::Main, 65, 0, 65) {
        return Err(Fail::from("other counters"));
    }
    Ok(())
}
