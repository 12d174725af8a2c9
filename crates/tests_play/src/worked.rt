//! The worked programs: their output, their journal and their end.

use crate::calls::{APPEND, FIRST, differing, run};
use std::test::Fail;

/// Each with its answer before it.
const PROGRAMS: &str =
    r#"Trap { thread: 0, cause: Overflow } |  | kit 1/turn 0 2/end trap 0 overflow/ <- int n=2147483647; int main(){n=n+1;return 0;}
Budget |  | kit 1/turn 0 1000000/end budget/ <- int main(){while(1){}}
Trap { thread: 0, cause: Overflow } |  | kit 1/turn 0 1/end trap 0 overflow/ <- int main(void){int x=2147483647; return x+1;}
Trap { thread: 0, cause: Overflow } |  | kit 1/turn 0 1/end trap 0 overflow/ <- int main(void){int x=-2147483647-1; return x/-1;}
Trap { thread: 0, cause: Zero } |  | kit 1/turn 0 1/end trap 0 zero/ <- int main(void){return 1/0;}
Trap { thread: 0, cause: Range } |  | kit 1/turn 0 1/end trap 0 range/ <- int main(void){char c=300; return c;}
Main(0) | -3 -1/ | kit 1/turn 0 2/end main 0/ <- int main(void){printf("%d %d\n",-7/2,-7%2); return 0&&1/0;}
"#;

#[test]
fn first_program(rt: HostRuntime) -> Result<(), Fail> {
    let found = run(rt.alloc(), FIRST)?;
    assert_eq!(rt; found.as_str(), "Main(0) | A | kit 1/turn 0 2/end main 0/");
    Ok(())
}

#[test]
fn append_loop_counts_turns(rt: HostRuntime) -> Result<(), Fail> {
    let found = run(rt.alloc(), APPEND)?;
    assert_eq!(rt;
        found.as_str(),
        "Main(3) | aaa | kit 1/turn 0 18/end main 3/"
    );
    Ok(())
}

#[test]
fn worked_programs_run(rt: HostRuntime) -> Result<(), Fail> {
    assert_eq!(rt; differing(rt.alloc(), PROGRAMS)?.as_str(), "");
    Ok(())
}
