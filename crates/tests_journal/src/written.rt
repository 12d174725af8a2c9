//! Journals that are written, and read back.

use kt_check::check;
use kt_journal::{read, write};
use kt_lex::lex;
use kt_mem::Trap;
use kt_syntax::parse;
use kt_tree::Version;
use kt_types::{Numbers, Text};
use kt_world::{Closed, End, Job, Mark, Plans, Versions};
use std::alloc::Global;
use std::test::Fail;
use xf_plan::{Fault, Place, Why};

const OLD: &str = "int q; int main(void) { return 0; }";

const NEW: &str =
    "int *p; int a[3]; int f(int x) { int y = x; return y; } int main(void) { return 0; }";

const NEXT: &str = "int z; int main(void) { return 0; }";

fn version(alloc: Global, text: &str) -> Result<Version, Fail> {
    if text.len() > 1000 {
        return Err(Fail::from("a long text"));
    }
    let Ok(tokens) = lex(alloc, text.as_bytes()) else {
        return Err(Fail::from("no tokens"));
    };
    let Ok(file) = parse(alloc, tokens.as_slice(), text.as_bytes()) else {
        return Err(Fail::from("no tree"));
    };
    match check(alloc, &file) {
        Ok(version) => Ok(version),
        Err(_) => Err(Fail::from("no version")),
    }
}

fn job(alloc: Global) -> Result<Job, Fail> {
    let mut versions = Versions::new(alloc);
    versions.push(version(alloc, OLD)?)?;
    versions.push(version(alloc, NEW)?)?;
    versions.push(version(alloc, NEXT)?)?;
    Ok(Job {
        versions,
        plans: Plans::new(alloc),
        after: Numbers::from_vec(Vec::new(alloc)),
        budget: 1000,
        input: Text::from_vec(Vec::new(alloc)),
    })
}

// The journal is this one, and says these turns.
fn expect(alloc: Global, turns: &[u8], marks: &[Mark], wanted: &str) -> Result<(), Fail> {
    let text = write(alloc, &job(alloc)?, turns, marks)?;
    if text.as_slice() != wanted.as_bytes() {
        return Err(Fail::from("another text"));
    }
    if text.len() > 1000 {
        return Err(Fail::from("a long text"));
    }
    match read(alloc, text.as_slice()) {
        Ok(said) => {
            if said.as_slice() == turns {
                Ok(())
            } else {
                Err(Fail::from("other turns"))
            }
        }
        Err(_) => Err(Fail::from("no journal")),
    }
}

// An update of one thread (worked row 6).
#[test]
fn an_update(rt: HostRuntime) -> Result<(), Fail> {
    expect(
        rt.alloc(),
        &[0; 42],
        &[
            Mark::Ask {
                turn: 0,
                k: 1,
                woken: 0,
            },
            Mark::Close {
                turn: 28,
                k: 1,
                closed: Closed::Ok(3),
            },
            Mark::MainThere { turn: 31, k: 1 },
            Mark::Back { turn: 31, k: 1 },
            Mark::End {
                turn: 42,
                how: End::Main(0),
            },
        ],
        "kit 1\nask 1\nturn 0 28\nclose 1 ok 3\nturn 0 3\nmain 1\nback 1\nturn 0 11\nend main 0\n",
    )
}

// A request that wakes threads: the second form (generated case 198).
#[test]
fn waiters_woken(rt: HostRuntime) -> Result<(), Fail> {
    expect(
        rt.alloc(),
        &[0, 0, 1, 2, 0],
        &[
            Mark::Ask {
                turn: 4,
                k: 1,
                woken: 2,
            },
            Mark::End {
                turn: 5,
                how: End::Main(0),
            },
        ],
        "kit 2\nturn 0 2\nturn 1 1\nturn 2 1\nask 1 2\nturn 0 1\nend main 0\n",
    )?;
    // each request of the second form tells how many it woke
    expect(
        rt.alloc(),
        &[0],
        &[
            Mark::Ask {
                turn: 0,
                k: 1,
                woken: 0,
            },
            Mark::Close {
                turn: 0,
                k: 1,
                closed: Closed::Held,
            },
            Mark::Ask {
                turn: 1,
                k: 2,
                woken: 1,
            },
            Mark::End {
                turn: 1,
                how: End::Budget,
            },
        ],
        "kit 2\nask 1 0\nclose 1 refused held\nturn 0 1\nask 2 1\nend budget\n",
    )
}

// Refusals without a place (worked rows 5 and 14, generated case 230).
#[test]
fn refusals_of_threads(rt: HostRuntime) -> Result<(), Fail> {
    expect(
        rt.alloc(),
        &[0, 1],
        &[
            Mark::Close {
                turn: 1,
                k: 1,
                closed: Closed::Held,
            },
            Mark::Close {
                turn: 1,
                k: 2,
                closed: Closed::Point(0),
            },
            Mark::Close {
                turn: 1,
                k: 3,
                closed: Closed::Entry(2),
            },
            Mark::Close {
                turn: 1,
                k: 4,
                closed: Closed::Size,
            },
            Mark::End {
                turn: 2,
                how: End::Trap(1, Trap::Uninit),
            },
        ],
        "kit 1\nturn 0 1\nclose 1 refused held\nclose 2 refused point 0\nclose 3 refused entry 2\n\
         close 4 refused size\nturn 1 1\nend trap 1 uninit\n",
    )
}

// Refusals at places, with the names of the version that the closing was to bring (worked rows 7, 8 and 10, generated
// cases 103, 111 and 82).
#[test]
fn refusals_at_places(rt: HostRuntime) -> Result<(), Fail> {
    expect(
        rt.alloc(),
        &[0],
        &[
            Mark::Close {
                turn: 1,
                k: 1,
                closed: Closed::At(Fault {
                    place: Place::GlobalCell(0, 0),
                    why: Why::Interior,
                }),
            },
            Mark::Close {
                turn: 1,
                k: 2,
                closed: Closed::At(Fault {
                    place: Place::GlobalCell(1, 2),
                    why: Why::Extent,
                }),
            },
            Mark::Close {
                turn: 1,
                k: 3,
                closed: Closed::At(Fault {
                    place: Place::Argument(64),
                    why: Why::Gone,
                }),
            },
            Mark::Close {
                turn: 1,
                k: 4,
                closed: Closed::At(Fault {
                    place: Place::Local(1, 0, 0),
                    why: Why::Extent,
                }),
            },
            Mark::Close {
                turn: 1,
                k: 5,
                closed: Closed::At(Fault {
                    place: Place::Local(1, 0, 1),
                    why: Why::Retyped,
                }),
            },
            Mark::Close {
                turn: 1,
                k: 6,
                closed: Closed::At(Fault {
                    place: Place::HeapCell(7, 0),
                    why: Why::Interior,
                }),
            },
            Mark::Close {
                turn: 1,
                k: 7,
                closed: Closed::At(Fault {
                    place: Place::GlobalCell(1, 0),
                    why: Why::Rule(Trap::Zero),
                }),
            },
            Mark::Close {
                turn: 1,
                k: 8,
                closed: Closed::At(Fault {
                    place: Place::Argument(3),
                    why: Why::Rule(Trap::Range),
                }),
            },
            Mark::Close {
                turn: 1,
                k: 9,
                closed: Closed::At(Fault {
                    place: Place::Local(2, 0, 1),
                    why: Why::Rule(Trap::Null),
                }),
            },
            Mark::Close {
                turn: 1,
                k: 10,
                closed: Closed::At(Fault {
                    place: Place::HeapCell(6, 2),
                    why: Why::Rule(Trap::Uninit),
                }),
            },
            Mark::End {
                turn: 1,
                how: End::Stuck,
            },
        ],
        "kit 1\nturn 0 1\nclose 1 refused interior g p 0\nclose 2 refused extent g a 2\nclose 3 refused gone a 64\nclose 4 refused extent l 1 f x\nclose 5 refused retyped l 1 f y\nclose 6 refused interior h 7 0\nclose 7 refused rule g a 0 zero\nclose 8 refused rule a 3 range\nclose 9 refused rule l 2 f y null\nclose 10 refused rule h 6 2 uninit\nend stuck\n",
    )
}

// Behind an update the next closing is to bring the version after that.
#[test]
fn names_of_the_next_version(rt: HostRuntime) -> Result<(), Fail> {
    expect(
        rt.alloc(),
        &[0, 0],
        &[
            Mark::Close {
                turn: 1,
                k: 1,
                closed: Closed::Ok(0),
            },
            Mark::Close {
                turn: 2,
                k: 2,
                closed: Closed::At(Fault {
                    place: Place::GlobalCell(0, 0),
                    why: Why::Gone,
                }),
            },
            Mark::End {
                turn: 2,
                how: End::Main(-2147483648),
            },
        ],
        "kit 1\nturn 0 1\nclose 1 ok 0\nturn 0 1\nclose 2 refused gone g z 0\nend main -2147483648\n",
    )
}
