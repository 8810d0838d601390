//! How the help of each command ends: an example, and the exit statuses.

/// How the help of a command ends that has this example and, before those that all commands have,
/// these exit statuses.
macro_rules! ending {
    ($example:literal, $statuses:literal) => {
        concat!(
            "Example:\n  mpiprove ",
            $example,
            "\n\nExit status:",
            $statuses,
            "
  4  memory ran out
  5  a file or standard output failed
  6  the words can't be read

File names are paths, and - is one of them, not standard input.
The file FORMATS.md in the folder docs tells the texts and the answers."
        )
    };
}

/// Of the program.
pub const HELP_END: &str = "Example:
  mpiprove prove program.mpi --out program.evidence
  mpiprove check program.mpi program.evidence

Each command tells its options and exit statuses: mpiprove COMMAND --help";

/// Of `prove`.
pub const PROVE_END: &str = ending!(
    "prove program.mpi --out program.evidence",
    "
  0  no deadlock: no run of the program gets stuck
  1  deadlock: some run of it does
  2  unknown: no answer was found, with the reason
  3  refused: the program, with the reason"
);

/// Of `check`.
pub const CHECK_END: &str = ending!(
    "check program.mpi program.evidence",
    "
  0  no deadlock: the evidence shows that no run of the program gets stuck
  1  deadlock: the evidence shows a run that does
  3  refused: the program or the evidence, with the reason"
);

/// Of `replay`.
pub const REPLAY_END: &str = ending!(
    "replay program.mpi program.evidence",
    "
  1  deadlock: the steps are printed, and the last line is stuck
  3  refused: the program or the evidence, with the reason"
);

/// Of `encode`.
pub const ENCODE_END: &str = ending!(
    "encode program.mpi --dimacs > program.cnf",
    "
  0  the formula is printed
  3  refused: the program, with the reason"
);

/// Of `explain`.
pub const EXPLAIN_END: &str = ending!(
    "explain program.mpi
  mpiprove explain program.mpi --map program.map
  mpiprove explain program.mpi program.evidence
  mpiprove explain program.mpi --map program.map --messages
  mpiprove explain one.mpi other.mpi --each --junit report.xml
  mpiprove explain halo.spmd --ranks 4",
    "
  0  no deadlock: the size of the program, and of a refutation, is printed
  1  deadlock: what each rank waits for is printed
  2  unknown: no evidence is named and none was found, with the reason
  3  refused: the program, the evidence or the map, with the reason"
);

/// Of `export`.
pub const EXPORT_END: &str = ending!(
    "export program.mpi program.evidence --out program.lrat",
    "
  0  no deadlock: the proof is written
  1  deadlock: there is no proof, and no file is written
  3  refused: the program or the evidence, with the reason"
);

/// Of `trim`.
pub const TRIM_END: &str = ending!(
    "trim program.evidence --out smaller.evidence",
    "
  0  the evidence is written, with as many lines as are printed
  3  refused: the evidence, with the reason"
);

/// Of `shrink`.
pub const SHRINK_END: &str = ending!(
    "shrink program.mpi --out smaller.mpi --map smaller.map
  mpiprove explain smaller.mpi --map smaller.map",
    "
  1  deadlock: the smaller program, or the answer on it, is printed
  2  unknown: no run that was tried gets stuck
  3  refused: the program, with the reason"
);

/// Of `decide`.
pub const DECIDE_END: &str = ending!(
    "decide program.mpi --out program.evidence
  mpiprove decide program.mpi --phases
  mpiprove decide one.mpi other.mpi --junit report.xml
  mpiprove decide halo.spmd --ranks 2..16",
    "
  0  no deadlock: no run of the program gets stuck
  1  deadlock: some run of it does
  2  unknown race: a receive or probe takes any source, so one run may not tell; prove may
     unknown phases: with --phases, which phase lacks what
  3  refused: the program, with the reason"
);

/// Of `unroll`.
pub const UNROLL_END: &str = ending!(
    "unroll halo.spmd --ranks 4 --set px=2 --out halo.mpi --map halo.map
  mpiprove prove halo.mpi --out halo.evidence
  mpiprove decide halo.spmd --ranks 4 --set px=2",
    "
  0  the program is printed, or written
  3  refused: the SPMD text, with its first fault"
);

/// Of `phases`.
pub const PHASES_END: &str = ending!(
    "phases program.mpi --out phases
  parallel -a phases/jobs mpiprove prove {} --out {.}.evidence
  mpiprove join program.mpi phases",
    "
  0  the phases are written: 0001.mpi and so on, their order to phases, and to jobs the paths of
     those that have to be proved; or no deadlock, and nothing is written
  1  deadlock: some run of the program gets stuck, and nothing is written
  3  refused: the program, with the reason"
);

/// Of `join`.
pub const JOIN_END: &str = ending!(
    "join program.mpi phases",
    "
  0  no deadlock: no run of the program gets stuck
  1  deadlock: some run of it does
  2  unknown phases: which phase lacks what
  3  refused: the program, with the reason"
);
