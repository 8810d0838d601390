//! What follows from how a run ended. Each function does nothing: its contract is the law.
ghost use Rattle.session.specs.AnyLaws.{PlainWordsAreAnswered, ToldDeadlockIsShown};
ghost use Rattle.session.specs.CheckLaws.{CheckedDeadlockIsPrinted, CheckedDeadlockIsShown, CheckedSafetyIsPrinted, CheckedSafetyIsTrue, EncodedFormulaIsPrinted, ReadFilesAreNotBlamed, RefutedIsChecked, ReplayedDeadlockIsShown, ReplayedRunIsPrinted, ShownDeadlockIsChecked, ShownDeadlockIsReplayed};
ghost use Rattle.session.specs.parts.FileLaws.{ShrunkProgramHangs};
ghost use Rattle.session.specs.FileLaws.{ExportedAnswerIsPrinted, ExportedProofIsWritten, ExportedSafetyIsTrue, TrimmedRefutationIsWritten};
ghost use Rattle.session.specs.SweepLaws.{EachRunIsRight, UnrolledRunsAreRight};
ghost use Rattle.session.specs.UnrollLaws.{UnrolledTextIsPrinted};
ghost use Rattle.session.specs.PhaseLaws.{CutsAreWritten, CutsStayInFolder, PhasesAreJoined};
ghost use Rattle.session.specs.SearchLaws.{DecidedRunsAreRight, ExplainedDeadlockIsShown, ExplainedSafetyIsTrue, ExplainedUnknownFinishes, ProvedDeadlockIsPrinted, ProvedDeadlockIsShown, ProvedSafetyIsPrinted, ProvedSafetyIsTrue, ProvedUnknownFinishes, WrittenDeadlockIsShown, WrittenSafetyIsRefuted};

/// Where words ask for a check, and the run printed the line that tells a deadlock or ended with
/// the status 1, the evidence of the one file shows a stuck run of the program of the other.
pub fn checked_deadlock_is_shown()
    ensures { CheckedDeadlockIsShown }
{}

/// Where the evidence of the one file shows a stuck run of the program of the other, a check ends
/// with the status 1, or with that of want of memory or of a file or an output that fails.
pub fn shown_deadlock_is_checked()
    ensures { ShownDeadlockIsChecked }
{}

/// Where words ask for a check, and the run printed the line that tells that there is no deadlock
/// or ended with the status 0, no run of the program ends stuck.
pub fn checked_safety_is_true()
    ensures { CheckedSafetyIsTrue }
{}

/// Where the evidence of the one file refutes the program of the other, a check ends with the
/// status 0, or with that of want of memory or of a file or an output that fails.
pub fn refuted_is_checked()
    ensures { RefutedIsChecked }
{}

/// A check that ended with the status 0 printed the line that tells that there is no deadlock.
pub fn checked_safety_is_printed()
    ensures { CheckedSafetyIsPrinted }
{}

/// And one that ended with the status 1 printed the line that tells a deadlock.
pub fn checked_deadlock_is_printed()
    ensures { CheckedDeadlockIsPrinted }
{}

/// Where the files tell that they read both the program and the evidence, a check with the status 5
/// tells none of them as failed: its output did.
pub fn read_files_are_not_blamed()
    ensures { ReadFilesAreNotBlamed }
{}

/// Where words ask for a replay, and the run ended with the status 1, the evidence of the one file
/// shows a stuck run of the program of the other.
pub fn replayed_deadlock_is_shown()
    ensures { ReplayedDeadlockIsShown }
{}

/// Where the evidence of the one file shows a stuck run of the program of the other, a replay ends
/// with the status 1, or with that of want of memory or of a file or an output that fails.
pub fn shown_deadlock_is_replayed()
    ensures { ShownDeadlockIsReplayed }
{}

/// A replay that ended with the status 1 printed the run that the evidence shows, and none ends
/// with the status 0.
pub fn replayed_run_is_printed()
    ensures { ReplayedRunIsPrinted }
{}

/// Where words ask to prove a program, and the run printed the line that tells a deadlock or ended
/// with the status 1, some evidence shows a stuck run of the program of the file.
pub fn proved_deadlock_is_shown()
    ensures { ProvedDeadlockIsShown }
{}

/// And where they name a file for the evidence, it holds such an evidence afterwards.
pub fn written_deadlock_is_shown()
    ensures { WrittenDeadlockIsShown }
{}

/// Where words ask to prove a program, and the run printed the line that tells that there is no
/// deadlock or ended with the status 0, no run of the program of the file ends stuck.
pub fn proved_safety_is_true()
    ensures { ProvedSafetyIsTrue }
{}

/// And where they name a file for the evidence, it holds afterwards one that refutes the program.
pub fn written_safety_is_refuted()
    ensures { WrittenSafetyIsRefuted }
{}

/// A search that ended with the status 0 printed the line that tells that there is no deadlock, and
/// on standard error how far it was, where its words ask for that, and else nothing.
pub fn proved_safety_is_printed()
    ensures { ProvedSafetyIsPrinted }
{}

/// And one that ended with the status 1 printed the line that tells a deadlock.
pub fn proved_deadlock_is_printed()
    ensures { ProvedDeadlockIsPrinted }
{}

/// Where words ask to prove a program with a budget above 0, and the run printed the line `unknown
/// budget`, `unknown full` or `unknown left` or ended with the status 2, some run of the program of
/// the file ends with all ranks finished.
pub fn proved_unknown_finishes()
    ensures { ProvedUnknownFinishes }
{}

/// Where words ask to explain a program, and the run printed the line that tells a deadlock or
/// ended with the status 1, the evidence that they name shows a stuck run of it; and where they
/// name none, some steps are a run of it that gets stuck.
pub fn explained_deadlock_is_shown()
    ensures { ExplainedDeadlockIsShown }
{}

/// Where words ask to explain a program, and the run ended with the status 0, no run of the program
/// ends stuck; where they name no evidence, the program may have any length.
pub fn explained_safety_is_true()
    ensures { ExplainedSafetyIsTrue }
{}

/// Where it ended with the status 2, the words name no evidence, and messages may race; and with a
/// budget above 0 some run of the program ends with all ranks finished, or the program is refused
/// as too large for a search.
pub fn explained_unknown_finishes()
    ensures { ExplainedUnknownFinishes }
{}

/// Where words ask to export a proof, and the run printed the line that tells that there is no
/// deadlock or ended with the status 0, no run of the program of the file ends stuck.
pub fn exported_safety_is_true()
    ensures { ExportedSafetyIsTrue }
{}

/// And the file that they name for it holds afterwards a proof of the formula of the program.
pub fn exported_proof_is_written()
    ensures { ExportedProofIsWritten }
{}

/// An export that ended with the status 0 printed the line that tells that there is no deadlock,
/// and one with the status 1 the line that tells one, and then no file has changed.
pub fn exported_answer_is_printed()
    ensures { ExportedAnswerIsPrinted }
{}

/// Where words ask to encode a program, and the run ended with the status 0, it printed the text of
/// the formula of the program of the file, in the DIMACS format where they ask for that; and none
/// ends with the status 1.
pub fn encoded_formula_is_printed()
    ensures { EncodedFormulaIsPrinted }
{}

/// Where words ask to trim a refutation, and the run ended with the status 0, the file that they
/// name holds afterwards the refutation without the lines that aren't needed, which refutes each
/// program that the evidence refutes, and the numbers of lines before and after were printed; and
/// none ends with the status 1.
pub fn trimmed_refutation_is_written()
    ensures { TrimmedRefutationIsWritten }
{}

/// Where words ask for a smaller program, and the run ended with the status 1, the program of the
/// file has a run that ends stuck, and one was printed, or written to the file that they name, that
/// has such a run too and is no larger; with the status 2 some run of the program of the file
/// finishes; and none ends with the status 0.
pub fn shrunk_program_hangs()
    ensures { ShrunkProgramHangs }
{}

/// Where words ask to unroll an SPMD text, and the run ended with the status 0, it printed the text
/// of the program whose call lines are the calls of the meaning of the SPMD text, or the file that
/// they name holds it, and another one its map; with the status 3 it told what is wrong with the
/// SPMD text, and no file has changed; and none ends with the status 1 or 2.
pub fn unrolled_text_is_printed()
    ensures { UnrolledTextIsPrinted }
{}

/// Where words ask to decide or to explain an SPMD text for numbers of ranks, and the run ended
/// with the status 0, what the text is unrolled to never gets stuck, for each of these numbers; and
/// where it ended with the status 1, it has a run that does for one of them.
pub fn unrolled_runs_are_right()
    ensures { UnrolledRunsAreRight }
{}

/// Where words ask to decide or to explain several programs, and the run ended with the status 0,
/// none of them has a run that gets stuck; where it ended with the status 1, one of them has; with
/// a status below 4 the file that is named holds a report of tests; and no other file changes.
pub fn each_run_is_right()
    ensures { EachRunIsRight }
{}

/// Where any run printed the line of a deadlock or ended with the status 1, its words ask to prove,
/// check, replay, explain, export, shrink, decide, cut or join a program, and that program has a
/// run that ends stuck.
pub fn told_deadlock_is_shown()
    ensures { ToldDeadlockIsShown }
{}

/// A run of words in their usual order answers their command, or tells want of memory, with the
/// status 4, before it is known.
pub fn plain_words_are_answered()
    ensures { PlainWordsAreAnswered }
{}

/// Where words ask to decide a program by one run: a deadlock that was told is a run of the program
/// that gets stuck, and the file that is named holds it; where no deadlock was told, no run of the
/// program gets stuck; and where neither was, some receive, matched probe or probe takes any
/// source. The program may have any length.
pub fn decided_runs_are_right()
    ensures { DecidedRunsAreRight }
{}

/// A run that judges a program by phases: a deadlock that was told is a run of the program that
/// gets stuck, and the file that is named holds it; where no deadlock was told, no run of the
/// program gets stuck; and no other file changes.
pub fn phases_are_joined()
    ensures { PhasesAreJoined }
{}

/// A run that cuts a program into phases changes files in the folder that is named alone.
pub fn cuts_stay_in_folder()
    ensures { CutsStayInFolder }
{}

/// Where a run cut a program into phases, and ended with the status 0: no run of the program gets
/// stuck, and no file has changed; or messages of its one run may race, the run printed how many
/// phases there are, how many of them differ, and how many of those one run doesn't decide, each
/// file of a phase holds its text, `jobs` the paths of those that one run doesn't decide, and
/// `phases` the order, in which each of the phases that differ occurs and no other number; and no
/// other file has changed.
pub fn cuts_are_written()
    ensures { CutsAreWritten }
{}
