use kt_journal::{JournalFault, read};
use std::test::Fail;

#[test]
fn journals_are_read(rt: HostRuntime) -> Result<(), Fail> {
    for (text, turns) in [
        ("kit 1\nend budget\n", [].as_slice()),
        (
            "kit 1\nturn 0 2\nask 1\nturn 1 1\nend main -3\n",
            [0, 0, 1].as_slice(),
        ),
        // equal neighbours that are not counted together
        (
            "kit 1\nturn 0 1\nturn 0 2\nend trap 0 overflow\n",
            [0, 0, 0].as_slice(),
        ),
        ("kit 2\nask 1 65\nturn 64 1\nend stuck\n", [64].as_slice()),
        ("kit 1\nend main -2147483648\n", [].as_slice()),
        (
            "kit 1\nclose 1 ok 18446744073709551615\nmain 1\nback 1\nclose 2 refused held\nclose 3 refused point 64\n\
             close 4 refused entry 1\nclose 5 refused size\nclose 6 refused interior g p 0\nclose 7 refused gone a 1\n\
             close 8 refused retyped l 2 f x\nclose 9 refused extent h 9 1\nclose 10 refused rule h 9 1 range\n\
             close 11 refused rule l 0 main i literal\nend main 0\n",
            [].as_slice(),
        ),
    ] {
        let said = read(rt.alloc(), text.as_bytes())?;
        assert_eq!(rt; said.as_slice(), turns);
    }
    Ok(())
}

#[test]
fn faults_are_told_at_their_lines(rt: HostRuntime) -> Result<(), Fail> {
    for (text, at) in [
        ("", 0),
        ("kit 1", 0),
        ("kit 3\nend stuck\n", 0),
        ("kit 1 \nend stuck\n", 0),
        // the last line is missing
        ("kit 1\n", 6),
        ("kit 1\nturn 0 1\n", 15),
        // it has no newline
        ("kit 1\nend stuck", 6),
        (
            "kit 1\nask 1\nturn 0 28\nclose 1 ok 3\nturn 0 3\nmain 1\nback 1\nturn 0 11\nend main 0",
            68,
        ),
        // leading zeros
        ("kit 1\nturn 00 1\nend stuck\n", 6),
        ("kit 1\nturn 0 01\nend stuck\n", 6),
        ("kit 1\nend main -0\n", 6),
        ("kit 1\nend main 00\n", 6),
        // out of range
        ("kit 1\nturn 0 0\nend stuck\n", 6),
        ("kit 1\nturn 65 1\nend stuck\n", 6),
        ("kit 1\nend main 2147483648\n", 6),
        ("kit 1\nclose 1 ok 18446744073709551616\nend stuck\n", 6),
        ("kit 2\nask 1 66\nend stuck\n", 6),
        // too many turns
        ("kit 1\nturn 0 10000001\nend stuck\n", 6),
        ("kit 1\nturn 0 9999999\nturn 1 1\nturn 1 1\nend stuck\n", 30),
        // behind the last line
        ("kit 1\nend stuck\nturn 0 1\n", 16),
        ("kit 1\nend stuck\n\n", 16),
        ("kit 1\nend stuck\nend stuck\n", 16),
        // other forms
        ("kit 1\n\nend stuck\n", 6),
        ("kit 1\nask 1 1\nend stuck\n", 6),
        ("kit 2\nask 1\nend stuck\n", 6),
        ("kit 1\nturn  0 1\nend stuck\n", 6),
        ("kit 1\nturn 0 1\nask 1 \nend stuck\n", 15),
        ("kit 1\nturn 0 1\nkit 1\nend stuck\n", 15),
        ("kit 1\nclose 1 refused gone g int 0\nend stuck\n", 6),
        ("kit 1\nclose 1 refused gone g p 0 range\nend stuck\n", 6),
        ("kit 1\nclose 1 refused rule a 1\nend stuck\n", 6),
        ("kit 1\nend trap 0 lost\n", 6),
    ] {
        assert!(rt; text.len() < 1000);
        let told = read(rt.alloc(), text.as_bytes()).err();
        assert_eq!(rt; told, Some(JournalFault::Line { at }));
    }
    Ok(())
}
