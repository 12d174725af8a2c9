//! Laws of threads, each the contract of a function that does nothing.
ghost use Rattle.std.specs.Prelude.{◌≡◌, ℕ};
ghost use Rattle.kt_meaning.specs.Rows.{division_run, division_row, counting_run, counting_row, ring_run, ring_row, clients_run, clients_row, restarted_run, restarted_row, left_run, left_row, compound_run, compound_row, null_run, null_row, char_run, char_row, late_run, late_row, deep_run, deep_row, fall_run, fall_row, control_run, control_row, same_point_run, same_point_row, other_point_run, other_point_row};
ghost use Rattle.kt_meaning.specs.Steps.{Settles};
ghost use Rattle.kt_meaning.specs.ThreadTypes.{IsThread};
ghost use Rattle.kt_meaning.specs.TreeSteps.{step};
ghost use Rattle.kt_meaning.specs.View.{thread_of};
ghost use Rattle.kt_meaning.specs.Weights.{settle};
ghost use Rattle.kt_meaning.specs.Laws.{numbered, IsTypedStep, IsReplyTo, after_reply, EntriesAreThreads, EffectsReply, EffectsStayTyped, TextsAreLoads};

use crate::thread::TreeThread;
use kt_mem::Reply;
use kt_tree::{Version, version_law};

/// From every thread of a version, whatever the version's number is, settling ends after finitely many quiet steps in
/// exactly one act, trap or end; each value that the act stores or hands to a new thread is of its type, and the element
/// type of what it allocates is complete.
pub fn settle_law(version: &Version, thread: &TreeThread)
    requires thread { IsThread version.now (thread_of thread.now) }
    ensures settles { (n : ℕ) → Settles (step (numbered version.now n)) (thread_of thread.now) (settle (numbered version.now n) (thread_of thread.now)) }
    ensures typed { (n : ℕ) → IsTypedStep version.now (step (numbered version.now n) (settle (numbered version.now n) (thread_of thread.now))) }
{
    version_law(version);
}

/// Where a thread of a version settles to an act, each reply of the act's kind gives a thread of that version again.
pub fn act_law(version: &Version, thread: &TreeThread, reply: &Reply)
    requires thread { IsThread version.now (thread_of thread.now) }
    ensures { (n : ℕ) → IsReplyTo (step (numbered version.now n) (settle (numbered version.now n) (thread_of thread.now))) reply.now → IsThread version.now (after_reply (numbered version.now n) (settle (numbered version.now n) (thread_of thread.now)) reply.now) }
{
    version_law(version);
}

/// A thread at the entry of a function of a version, with arguments of its parameters' types, is a thread of that version.
pub fn entry_law(version: &Version)
    ensures { EntriesAreThreads version.now }
{
    version_law(version);
}

/// What an act does to memory, input and output gives a reply of the act's kind, or the thread waits, or the act is one
/// on threads or updates; memory, input and output stay typed; and a text is read by loads of its cells.
pub fn effect_law()
    ensures reply { EffectsReply }
    ensures typed { EffectsStayTyped }
    ensures texts { TextsAreLoads }
{}

/// Worked programs do the acts that were counted by hand, write what was written down, and end so.
pub fn worked_programs_law()
    ensures division_and_short_circuit { division_run ≡ division_row }
    ensures counting_loop { counting_run ≡ counting_row }
    ensures ring_of_nodes { ring_run ≡ ring_row }
    ensures noted_clients { clients_run ≡ clients_row }
    ensures noted_clients_restarted { restarted_run ≡ restarted_row }
{}

/// Small programs that show the order of operands, of loads and stores, of traps and acts, and what a point does.
pub fn order_law()
    ensures left_operand_first { left_run ≡ left_row }
    ensures load_before_the_operand { compound_run ≡ compound_row }
    ensures null_field { null_run ≡ null_row }
    ensures no_wrapping { char_run ≡ char_row }
    ensures trap_before_the_store { late_run ≡ late_row }
    ensures two_hundred_calls { deep_run ≡ deep_row }
    ensures end_without_a_value { fall_run ≡ fall_row }
    ensures loops_and_choices { control_run ≡ control_row }
    ensures own_point { same_point_run ≡ same_point_row }
    ensures other_point { other_point_run ≡ other_point_row }
{}
