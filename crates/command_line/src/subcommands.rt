//! The subcommands and their arguments.

use crate::argument::{ANY_NUMBER, Argument, Form, PLAIN};
use clap::Command;
use clap::builder::ValueParser;
use std::alloc::{AllocError, Global};

/// What `--version` prints after the program's name.
const VERSION: &str = "0.1.0";

/// How a command ends.
const STATUSES: &str = "Exit status:
  0  all was done, or a check wrote ok
  1  a line, a frame or the command line is wrong
  2  a read or a write failed
  3  a check or a history wrote wrong, a test differs, finish has no epoch left, threads ended with a
     fault, explore --all found a dead end; with --strict also: a frame was refused
  4  memory ran out, or a thread could not be started
  5  a history was not decided, or a small world has more states than explore --all was to find
  6  nothing was looked at: a test compared no answer, lint, draw or show found no line of a script,
     a history has no operation; with --strict also: no entry was checked, there was no frame, or a
     script of a test has no answer

The program uffd-audit judges logs of userfaultfd calls.
docs/SCRIPT.md has the lines of scripts and transcripts.";

/// `--cpus N`.
const CPUS: Argument = Argument {
    id: "cpus",
    help: "How many processors the guest has",
    form: Form::Preset("N", ValueParser::Signed(1, 16), "2"),
    ..PLAIN
};

/// `[FILE]`.
const FILE: Argument = Argument {
    id: "file",
    help: "Is read in place of standard input, which is - too",
    form: Form::Positional("FILE"),
    ..PLAIN
};

/// `--explain` of a command that takes no lines.
const EXPLAIN_FAULTS: Argument = Argument {
    id: "explain",
    help: "Says on standard error why a read or a write failed",
    ..PLAIN
};

/// `--explain` of a command that ends at a wrong line.
const EXPLAIN_LINES: Argument = Argument {
    id: "explain",
    help: "Says on standard error what is wrong with each line of FILE, and why a read or a write failed",
    ..PLAIN
};

/// `postmig run [--cpus N] [--transcript] [--steps] [--answers] [--echo] [--wire FILE] [--back FILE] [--urgent FILE] [--explain] [FILE]`.
/// With `--steps`, `--answers` or `--echo` a run writes the lines of its steps alone.
const RUN: &[Argument] = &[
    CPUS,
    Argument {
        id: "transcript",
        help: "Writes the commands that took effect, with their replies",
        ..PLAIN
    },
    Argument {
        id: "steps",
        help: "Writes after each line the calls of a host that its step stands for",
        conflicts: &["transcript", "wire", "back", "urgent"],
        ..PLAIN
    },
    Argument {
        id: "answers",
        help: "Writes the script with the answer of each line after it",
        conflicts: &["transcript", "steps", "wire", "back", "urgent"],
        ..PLAIN
    },
    Argument {
        id: "echo",
        help: "Writes the script with the answer of each line beside it",
        conflicts: &["transcript", "steps", "answers", "wire", "back", "urgent"],
        ..PLAIN
    },
    Argument {
        id: "wire",
        help: "Gets the bytes that are put on the wire to the destination",
        form: Form::Valued("FILE", ValueParser::String),
        ..PLAIN
    },
    Argument {
        id: "back",
        help: "Gets the bytes that are put on the wire back",
        form: Form::Valued("FILE", ValueParser::String),
        ..PLAIN
    },
    Argument {
        id: "urgent",
        help: "Gets the bytes that are put on the urgent wire",
        form: Form::Valued("FILE", ValueParser::String),
        ..PLAIN
    },
    EXPLAIN_LINES,
    FILE,
];

/// `--explain` of a command that also counts the lines that it looks at.
const EXPLAIN_COUNT: Argument = Argument {
    id: "explain",
    help: "Says on standard error what is wrong with each line of FILE, or how many there are, and why a read or a write failed",
    ..PLAIN
};

/// `postmig finish [--cpus N] [--explain] [FILE]`.
const FINISH: &[Argument] = &[CPUS, EXPLAIN_LINES, FILE];

/// `postmig draw [--cpus N] [--explain] [FILE]`.
const DRAW: &[Argument] = &[CPUS, EXPLAIN_COUNT, FILE];

/// `postmig check [--all] [--strict] [--explain] [FILE]`.
const CHECK: &[Argument] = &[
    Argument {
        id: "all",
        help: "Lists each wrong entry, and not the first alone",
        ..PLAIN
    },
    Argument {
        id: "strict",
        help: "Has status 6 if no entry was checked",
        ..PLAIN
    },
    Argument {
        id: "explain",
        help: "Says which entries decide the reply of a wrong one, and why a read or a write failed",
        ..PLAIN
    },
    FILE,
];

/// `postmig lint [--transcript] [--explain] [FILE]`.
const LINT: &[Argument] = &[
    Argument {
        id: "transcript",
        help: "Reads a transcript instead of a script",
        ..PLAIN
    },
    Argument {
        id: "explain",
        help: "Says on standard error how many lines were looked at, and why a read or a write failed",
        ..PLAIN
    },
    FILE,
];

/// `postmig history [--explain] [--transcript FILE] [--draw FILE] [FILE]`.
const HISTORY: &[Argument] = &[
    Argument {
        id: "explain",
        help: "Says which operations contradict each other, and why a read or a write failed",
        ..PLAIN
    },
    Argument {
        id: "transcript",
        help: "Gets the operations in the order that was found, as a transcript",
        form: Form::Valued("FILE", ValueParser::String),
        ..PLAIN
    },
    Argument {
        id: "draw",
        help: "Gets a picture of the operations that the first contradiction has",
        form: Form::Valued("FILE", ValueParser::String),
        ..PLAIN
    },
    FILE,
];

/// `postmig frames [--cpus N] [--strict] [--explain] [FILE]`.
const FRAMES: &[Argument] = &[
    CPUS,
    Argument {
        id: "strict",
        help: "Has status 3 if a frame was refused, and 6 if there was none",
        ..PLAIN
    },
    EXPLAIN_FAULTS,
    FILE,
];

/// `postmig show [--at LINE] [--range START:END] [--json] [--cpus N] [--explain] WHAT [FILE]`. The words for WHAT are in the order of
/// `show::What::ALL`.
const SHOW: &[Argument] = &[
    Argument {
        id: "at",
        help: "The last line of the script that is run, and not that of FILE",
        form: Form::Valued("LINE", ANY_NUMBER),
        ..PLAIN
    },
    Argument {
        id: "range",
        help: "The addresses whose pages are shown, and not all; END is the one after the last",
        form: Form::Valued("START:END", ValueParser::String),
        ..PLAIN
    },
    Argument {
        id: "json",
        help: "Writes one JSON object, and not a line for each fact",
        ..PLAIN
    },
    CPUS,
    EXPLAIN_COUNT,
    Argument {
        id: "what",
        help: "What is shown",
        form: Form::Among("WHAT", &["cpus", "queues", "owed", "wires", "pages", "all"]),
        ..PLAIN
    },
    FILE,
];

/// The names of the profiles of `postmig explore`, in the order of `explore::Profile::ALL`.
const PROFILES: &[&str] = &[
    "commands", "precopy", "postcopy", "moves", "breaks", "urgent", "bytes", "runs", "all",
];

/// What asks for random scripts.
const RANDOM: &[&str] = &["seed", "seeds"];

/// `postmig explore --seed S [--lines N] [--cpus N] [--profile P] [--pages M] [--finish] [--sweep] [--answers] [--explain]`, or with
/// `--seeds A:B` in place of `--seed S`. Scripts of earlier versions have `--steps` in place of `--lines`. And
/// `postmig explore --all [--cpus N] [--pages M] [--breaks N] [--rounds N] [--commands N] [--states N] [--out FOLDER]`.
const EXPLORE: &[Argument] = &[
    Argument {
        id: "seed",
        help: "The seed of the draws; it, --seeds or --all must be given",
        form: Form::Valued("S", ANY_NUMBER),
        ..PLAIN
    },
    Argument {
        id: "seeds",
        help: "Writes a script for each seed from A to B, one after the other",
        form: Form::Valued("A:B", ValueParser::String),
        conflicts: &["seed"],
        ..PLAIN
    },
    Argument {
        id: "lines",
        help: "The number of lines after the first, which is a comment",
        form: Form::Preset("N", ValueParser::Signed(0, 0xffff_ffff), "200"),
        aliases: &["steps"],
        ..PLAIN
    },
    Argument {
        id: "cpus",
        help: "How many processors the guest has: 2, or 1 with --all, if it is not given",
        form: Form::Valued("N", ValueParser::Signed(1, 16)),
        ..PLAIN
    },
    Argument {
        id: "profile",
        help: "Which steps are drawn more often",
        form: Form::Preset("P", ValueParser::Names(PROFILES), "all"),
        ..PLAIN
    },
    Argument {
        id: "pages",
        help: "The number of pages that the commands touch: 8, or 1 with --all, if it is not given",
        form: Form::Valued("M", ValueParser::Signed(1, 4096)),
        ..PLAIN
    },
    Argument {
        id: "finish",
        help: "Ends the script with the lines that complete its migration, and a sweep",
        ..PLAIN
    },
    Argument {
        id: "sweep",
        help: "Ends the script with loads of all that was stored",
        ..PLAIN
    },
    Argument {
        id: "answers",
        help: "Writes the answer of each line after it",
        ..PLAIN
    },
    Argument {
        id: "all",
        help: "Walks all schedules of a small world, and counts its states",
        conflicts: &[
            "seed", "seeds", "lines", "profile", "finish", "sweep", "answers",
        ],
        ..PLAIN
    },
    Argument {
        id: "breaks",
        help: "How often the channel of the small world may break: 1 if it is not given",
        form: Form::Valued("N", ValueParser::Signed(0, 1000)),
        conflicts: RANDOM,
        needs: &["all"],
        ..PLAIN
    },
    Argument {
        id: "rounds",
        help: "How many rounds of pre-copy it may have: 1 if it is not given",
        form: Form::Valued("N", ValueParser::Signed(0, 1000)),
        conflicts: RANDOM,
        needs: &["all"],
        ..PLAIN
    },
    Argument {
        id: "commands",
        help: "How many commands each of its processors makes, 0 to 3: 1 if it is not given",
        form: Form::Valued("N", ValueParser::Signed(0, 3)),
        conflicts: RANDOM,
        needs: &["all"],
        ..PLAIN
    },
    Argument {
        id: "states",
        help: "Ends at more states, each of which takes some 70 KB: 20000 if it is not given",
        form: Form::Valued("N", ValueParser::Signed(1, 0xffff_ffff)),
        conflicts: RANDOM,
        needs: &["all"],
        ..PLAIN
    },
    Argument {
        id: "out",
        help: "Gets for each step and each refusal of it the shortest script that reaches it",
        form: Form::Valued("FOLDER", ValueParser::String),
        conflicts: RANDOM,
        needs: &["all"],
        ..PLAIN
    },
    EXPLAIN_FAULTS,
];

/// `postmig test [--cpus N] [--all] [--strict] [--tap] [--write] [FILE ..]`.
const TEST: &[Argument] = &[
    CPUS,
    Argument {
        id: "all",
        help: "Names each answer that differs, and not the first of a script alone",
        ..PLAIN
    },
    Argument {
        id: "strict",
        help: "Has status 6 if no answer of a script was compared",
        ..PLAIN
    },
    Argument {
        id: "tap",
        help: "Writes the report in the form of TAP, a line for each script",
        ..PLAIN
    },
    Argument {
        id: "write",
        help: "Replaces the answers of each FILE by the output of its lines",
        conflicts: &["strict", "all", "tap"],
        needs: &["file"],
        ..PLAIN
    },
    Argument {
        id: "file",
        help: "Scripts with answers; standard input where none is given, and for -",
        form: Form::Positionals("FILE"),
        ..PLAIN
    },
];

/// `postmig threads [--cpus N] [--calls C] [--cut] [--verbose] [--explain]`.
const THREADS: &[Argument] = &[
    CPUS,
    Argument {
        id: "calls",
        help: "How many stores each processor makes, and how many loads",
        form: Form::Preset("C", ValueParser::Signed(1, 1000), "8"),
        ..PLAIN
    },
    Argument {
        id: "cut",
        help: "Breaks the channel once, and resumes",
        ..PLAIN
    },
    Argument {
        id: "verbose",
        help: "Says on standard error what the migration did, and how often its workers came to their turn",
        ..PLAIN
    },
    EXPLAIN_FAULTS,
];

/// `postmig completion [--explain] SHELL`. The words for SHELL are those of `Shell::named`.
const COMPLETION: &[Argument] = &[
    EXPLAIN_FAULTS,
    Argument {
        id: "shell",
        help: "The shell that reads what is written",
        form: Form::Among("SHELL", &["bash", "zsh", "fish"]),
        ..PLAIN
    },
];

/// A subcommand.
#[derive(Clone, Copy)]
pub(crate) struct Subcommand {
    pub(crate) name: &'static str,
    /// What help says of it.
    pub(crate) about: &'static str,
    pub(crate) arguments: &'static [Argument],
}

/// The first half of the subcommands, in the order of help. (A loop over all of them has too long a proof.)
pub(crate) const FIRST_HALF: &[Subcommand] = &[
    Subcommand {
        name: "run",
        about: "Runs a script",
        arguments: RUN,
    },
    Subcommand {
        name: "finish",
        about: "Writes the lines that complete the migration of a script",
        arguments: FINISH,
    },
    Subcommand {
        name: "check",
        about: "Says whether a transcript is that of one flat memory",
        arguments: CHECK,
    },
    Subcommand {
        name: "lint",
        about: "Lists the wrong lines of a script, and what is wrong with each",
        arguments: LINT,
    },
    Subcommand {
        name: "history",
        about: "Says whether what threads did to a memory at once is what one flat memory does",
        arguments: HISTORY,
    },
    Subcommand {
        name: "frames",
        about: "Hands frames to a destination",
        arguments: FRAMES,
    },
];

/// The other half.
pub(crate) const OTHER_HALF: &[Subcommand] = &[
    Subcommand {
        name: "draw",
        about: "Runs a script, and writes a picture of the run as SVG",
        arguments: DRAW,
    },
    Subcommand {
        name: "show",
        about: "Runs a script up to a line, and says what is there",
        arguments: SHOW,
    },
    Subcommand {
        name: "explore",
        about: "Writes a random script of a migration",
        arguments: EXPLORE,
    },
    Subcommand {
        name: "test",
        about: "Runs scripts whose lines have answers, and names what differs",
        arguments: TEST,
    },
    Subcommand {
        name: "threads",
        about: "Runs a migration with each processor in a thread of its own",
        arguments: THREADS,
    },
    Subcommand {
        name: "completion",
        about: "Writes the script by which a shell completes the words of a command line",
        arguments: COMPLETION,
    },
];

/// The command with one more argument.
fn with_argument<'a>(
    command: Command<'a>,
    alloc: Global,
    argument: &Argument,
) -> Result<Command<'a>, AllocError> {
    command.arg(argument.to_arg(alloc)?)
}

impl Subcommand {
    /// The subcommand as `clap` takes it.
    fn to_command<'a>(&self, alloc: Global) -> Result<Command<'a>, AllocError> {
        let mut command = Command::new(alloc, self.name).about(self.about);
        for argument in self.arguments {
            command = with_argument(command, alloc, argument)?;
        }
        Ok(command)
    }
}

/// The command with these subcommands.
fn with_subcommands<'a>(
    mut command: Command<'a>,
    alloc: Global,
    subcommands: &[Subcommand],
) -> Result<Command<'a>, AllocError> {
    for subcommand in subcommands {
        command = command.subcommand(subcommand.to_command(alloc)?)?;
    }
    Ok(command)
}

/// The command line: one of the subcommands, or `postmig --version`. An error is that memory was refused.
pub fn command_line<'a>(alloc: Global) -> Result<Command<'a>, AllocError> {
    // The name in usage lines, whatever the file is called.
    let command = Command::new(alloc, "postmig")
        .bin_name("postmig")?
        .about("Runs scripts on a model of post-copy live migration")
        .version(VERSION)
        .after_help(STATUSES)
        .subcommand_required(true);
    let command = with_subcommands(command, alloc, FIRST_HALF)?;
    with_subcommands(command, alloc, OTHER_HALF)
}
