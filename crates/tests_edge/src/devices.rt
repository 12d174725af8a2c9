use kt_edge::{
    Failed, FileEnd, Files, HostFiles, HostSink, HostSource, MemFiles, MemSink, MemSource, ReadEnd,
    Sink, Source, read_all, write_whole,
};
use std::alloc::{AllocError, Global};
use std::fs::File;
use std::test::Fail;
use std::{fs, io};

const DIGITS: &str = "0123456789";

#[test]
fn host_files_pass_bytes(rt: HostRuntime) -> Result<(), Fail> {
    fs::write(&rt, "digits", DIGITS)?;
    let mut files = HostFiles::new(&rt);
    for (limit, want) in [(0, "0"), (4, "01234"), (9, DIGITS), (5000, DIGITS)] {
        let bytes = files.read(rt.alloc(), "digits", limit)?;
        assert_eq!(rt; bytes.as_slice(), want.as_bytes(), "under {limit}");
    }
    assert_eq!(rt; files.faults, 0);
    for (name, faults) in [("absent", 1), (".", 2)] {
        let end = files.read(rt.alloc(), name, 4);
        assert!(rt; matches!(&end, Err(FileEnd::Failed)), "at {name}");
        assert_eq!(rt; files.faults, faults, "at {name}");
    }
    fs::remove_file(&rt, "digits")?;
    Ok(())
}

#[test]
fn host_source_passes_bytes(rt: HostRuntime) -> Result<(), Fail> {
    fs::write(&rt, "digits", DIGITS)?;
    let mut source = HostSource::new(File::open(&rt, "digits")?);
    let bytes = read_all(rt.alloc(), &mut source, 10)?;
    assert_eq!(rt; bytes.as_slice(), DIGITS.as_bytes());
    assert_eq!(rt; source.faults, 0);
    fs::remove_file(&rt, "digits")?;
    Ok(())
}

#[test]
fn host_sink_passes_bytes(rt: HostRuntime) -> Result<(), Fail> {
    let mut sink = HostSink::new(File::create(&rt, "digits")?);
    write_whole(&mut sink, DIGITS.as_bytes())?;
    assert_eq!(rt; sink.faults, 0);
    let text = fs::read_to_string(&rt, "digits")?;
    assert_eq!(rt; text.as_str(), DIGITS);
    fs::remove_file(&rt, "digits")?;
    Ok(())
}

#[test]
fn adapters_pass_bytes_of_memory(rt: HostRuntime) -> Result<(), Fail> {
    let mut source = HostSource::new(DIGITS.as_bytes());
    let end = read_all(rt.alloc(), &mut source, 3);
    assert!(rt; matches!(&end, Err(ReadEnd::TooLong)));
    assert_eq!(rt; source.reader, b"456789".as_slice());
    let bytes = read_all(rt.alloc(), &mut source, 6)?;
    assert_eq!(rt; bytes.as_slice(), b"456789".as_slice());
    let mut sink = HostSink::new(Vec::new(rt.alloc()));
    write_whole(&mut sink, b"0123")?;
    write_whole(&mut sink, bytes.as_slice())?;
    assert_eq!(rt; sink.writer.as_slice(), DIGITS.as_bytes());
    assert_eq!(rt; (source.faults, sink.faults), (0, 0));
    Ok(())
}

#[test]
fn standard_streams_are_adapted(rt: HostRuntime) -> Result<(), Fail> {
    write_whole(&mut HostSink::new(rt.stdout()), b"bytes pass\n")?;
    write_whole(&mut HostSink::new(rt.stderr()), b"")?;
    let source = HostSource::new(rt.stdin());
    assert_eq!(rt; source.faults, 0);
    Ok(())
}

#[test]
fn a_write_of_no_byte_is_a_fault(rt: HostRuntime) -> Result<(), Fail> {
    let mut room = [0; 4];
    let mut sink = HostSink::new(room.as_mut_slice());
    assert_eq!(rt; write_whole(&mut sink, DIGITS.as_bytes()), Err(Failed));
    assert_eq!(rt; sink.faults, 1);
    Ok(())
}

fn files(alloc: Global, fail_on: &[u64]) -> Result<MemFiles, AllocError> {
    let mut entries = Vec::new(alloc);
    for (name, bytes) in [("a", "first"), ("b", "other"), ("a", "second")] {
        let name = String::from_str(alloc, name)?;
        let bytes = bytes.as_bytes().to_vec(alloc)?;
        entries.push((name, bytes))?;
    }
    Ok(MemFiles {
        entries,
        fail_on: fail_on.to_vec(alloc)?,
        calls: 0,
        faults: 0,
    })
}

#[test]
fn files_in_memory(rt: HostRuntime) -> Result<(), Fail> {
    let mut files = files(rt.alloc(), &[2, 5])?;
    let calls = [
        ("a", 9, Ok("first")),
        ("a", 9, Err(FileEnd::Failed)),
        ("b", 2, Ok("oth")),
        ("c", 9, Err(FileEnd::Missing)),
        ("c", 9, Err(FileEnd::Failed)),
        ("b", 4, Ok("other")),
    ];
    for (name, limit, want) in calls {
        let call = files.calls;
        match (files.read(rt.alloc(), name, limit), want) {
            (Ok(bytes), Ok(text)) => {
                assert_eq!(rt; bytes.as_slice(), text.as_bytes(), "after {call}");
            }
            (Err(end), Err(want)) => assert_eq!(rt; end, want, "after {call}"),
            _ => panic!(rt; "another answer after {call}"),
        }
    }
    assert_eq!(rt; files.calls, 6);
    assert_eq!(rt; files.faults, 2);
    Ok(())
}

#[test]
fn sources_in_memory(rt: HostRuntime) -> Result<(), Fail> {
    // piece, failing call, limit, what comes of it, what is left, calls
    let reads = [
        (1, 0, 10, Ok(()), "", 11),
        (7, 0, 10, Ok(()), "", 3),
        (64, 0, 4000, Ok(()), "", 2),
        (7, 0, 9, Err(ReadEnd::TooLong), "", 2),
        (3, 0, 5, Err(ReadEnd::TooLong), "6789", 2),
        (1, 0, 0, Err(ReadEnd::TooLong), "123456789", 1),
        (2, 1, 10, Err(ReadEnd::Failed), DIGITS, 1),
        (2, 2, 10, Err(ReadEnd::Failed), "23456789", 2),
        (10, 2, 10, Err(ReadEnd::Failed), "", 2),
    ];
    for (piece, failing, limit, want, left, calls) in reads {
        assert!(rt; piece > 0);
        let mut source = MemSource {
            rest: DIGITS.as_bytes().to_vec(rt.alloc())?,
            piece,
            fail_on: [failing].to_vec(rt.alloc())?,
            calls: 0,
            faults: 0,
        };
        let found = match read_all(rt.alloc(), &mut source, limit) {
            Ok(bytes) => {
                assert_eq!(rt; bytes.as_slice(), DIGITS.as_bytes(), "piece {piece}");
                Ok(())
            }
            Err(end) => Err(end),
        };
        assert_eq!(rt; found, want, "piece {piece}, limit {limit}");
        assert_eq!(rt; source.rest.as_slice(), left.as_bytes(), "piece {piece}");
        assert_eq!(rt; source.calls, calls, "piece {piece}, limit {limit}");
        let faults = if failing == 0 { 0 } else { 1 };
        assert_eq!(rt; source.faults, faults, "piece {piece}");
    }
    Ok(())
}

// So many bytes, which don't repeat with a power of two.
fn long(alloc: Global, length: u32) -> Result<Vec<u8>, AllocError> {
    let mut bytes = Vec::new(alloc);
    for at in 0..length {
        bytes.push((at % 251) as u8)?;
    }
    Ok(bytes)
}

#[test]
fn long_sources_in_pieces(rt: HostRuntime) -> Result<(), Fail> {
    let bytes = long(rt.alloc(), 100_000)?;
    // piece, calls: each asks for 4,096 bytes, and the last finds none
    for (piece, calls) in [
        (65_536, 26),
        (4_096, 26),
        (4_095, 26),
        (1_000, 101),
        (300, 335),
    ] {
        assert!(rt; piece > 0);
        let mut source = MemSource {
            rest: bytes.clone()?,
            piece,
            fail_on: Vec::new(rt.alloc()),
            calls: 0,
            faults: 0,
        };
        let found = read_all(rt.alloc(), &mut source, 100_000)?;
        assert!(rt; found == bytes, "piece {piece}");
        assert!(rt; source.rest.is_empty(), "piece {piece}");
        assert_eq!(rt; source.calls, calls, "piece {piece}");
    }
    Ok(())
}

#[test]
fn pieces_of_a_long_source(rt: HostRuntime) -> Result<(), Fail> {
    let bytes = long(rt.alloc(), 100_000)?;
    let mut buffer = vec![in rt.alloc(); 0; 65_536]?;
    for (piece, counts) in [
        (65_536, [65_536, 34_464, 0]),
        (100_000, [65_536, 34_464, 0]),
        (50_000, [50_000, 50_000, 0]),
    ] {
        assert!(rt; piece > 0);
        let mut source = MemSource {
            rest: bytes.clone()?,
            piece,
            fail_on: Vec::new(rt.alloc()),
            calls: 0,
            faults: 0,
        };
        let mut found = Vec::new(rt.alloc());
        for want in counts {
            let count = source.read(&mut buffer)?;
            assert_eq!(rt; count, want, "piece {piece}");
            found.extend_from_slice(&buffer[..count])?;
        }
        assert!(rt; found == bytes, "piece {piece}");
    }
    Ok(())
}

#[test]
fn sinks_in_memory(rt: HostRuntime) -> Result<(), Fail> {
    // room, piece, failing call, what comes of it, what was taken, calls
    let writes = [
        (10, 64, 0, Ok(()), DIGITS, 1),
        (64, 4, 0, Ok(()), DIGITS, 3),
        (64, 1, 0, Ok(()), DIGITS, 10),
        (64, 4, 3, Err(Failed), "01234567", 3),
        (64, 4, 1, Err(Failed), "", 1),
        (5, 2, 0, Err(Failed), "01234", 4),
        (0, 2, 0, Err(Failed), "", 1),
    ];
    for (room, piece, failing, want, taken, calls) in writes {
        assert!(rt; piece > 0);
        let fail_on = [failing].to_vec(rt.alloc())?;
        let mut sink = MemSink::new(rt.alloc(), room, piece, fail_on)?;
        assert_eq!(rt;
            write_whole(&mut sink, DIGITS.as_bytes()),
            want,
            "room {room}, piece {piece}"
        );
        assert_eq!(rt;
            sink.taken.as_slice(),
            taken.as_bytes(),
            "room {room}, piece {piece}"
        );
        assert_eq!(rt; sink.calls, calls, "room {room}, piece {piece}");
        let faults = if want == Ok(()) { 0 } else { 1 };
        assert_eq!(rt; sink.faults, faults, "room {room}, piece {piece}");
    }
    Ok(())
}

#[test]
fn a_full_sink_takes_an_empty_piece(rt: HostRuntime) -> Result<(), Fail> {
    let mut sink = MemSink::new(rt.alloc(), 0, 1, Vec::new(rt.alloc()))?;
    assert_eq!(rt; sink.write(b""), Ok(0));
    assert_eq!(rt; sink.write(b"a"), Err(Failed));
    assert_eq!(rt; sink.faults, 1);
    Ok(())
}
