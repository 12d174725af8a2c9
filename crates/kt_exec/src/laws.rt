//! A law of settling, the contract of a function that does nothing.
ghost use Rattle.kt_exec.specs.Renaming.{RepliesAmong, RepliesRenamed, SettlesAmong, SettlesRenamed, StandsAmong, StandsRenamed};

use kt_code::Code;

/// Heap objects may have other names. A renamed thread settles to the renamed settled thread, with the renamed act or the
/// same trap, and after the renamed reply it goes on as the renamed thread that had the reply. A thread
/// makes no name: settled, at its act and after a reply it has those that it had, and that of the reply.
pub fn rename_law(code: &Code)
    ensures settled { SettlesRenamed code.now }
    ensures head { StandsRenamed code.now }
    ensures reply { RepliesRenamed code.now }
    ensures settled_among { SettlesAmong code.now }
    ensures head_among { StandsAmong code.now }
    ensures reply_among { RepliesAmong code.now }
{
    let _jumps = code.instrs();
}
