//! The command line as the help prints it: its commands and their arguments.
use clap::{Arg, ArgAction, Command};
use std::alloc::{AllocError, Global};

/// How an argument is given.
#[derive(Clone, Copy)]
enum Kind {
    /// By its place. It must be given.
    Required,
    /// By its place. It may be left out.
    Optional,
    /// By an option that takes no value.
    Flag,
    /// By an option that takes a value of this name.
    Value(&'static str),
    /// By an option that takes a value of this name and must be given.
    Needed(&'static str),
    /// By an option that takes a value of this name. If it isn't given it has the second one.
    Default(&'static str, &'static str),
}

/// An argument of some commands.
struct Argument {
    name: &'static str,
    commands: &'static [&'static str],
    kind: Kind,
    /// The arguments beside which it is refused.
    excludes: &'static [&'static str],
    help: &'static str,
}

/// The file in which Linux has the id of this boot.
pub(crate) const BOOT: &str = "/proc/sys/kernel/random/boot_id";

const EXAMPLES: &str = "Examples:
  amo_worker door tonight.run --workers 2 tonight.txt
  amo_worker status tonight.run";

/// The commands, and what each is about.
static COMMANDS: [(&str, &str); 7] = [
    (
        "door",
        "Checks that workers may begin in RUN, and makes the run there if there is none",
    ),
    (
        "work",
        "Runs worker P; its runner is on standard input and output",
    ),
    (
        "lines",
        "Runs worker P of a round of N jobs; its runner keeps the words and the journal too",
    ),
    ("status", "Prints how all lines stand"),
    ("doubts", "Prints the doubts that are final"),
    ("answer", "Records what you found out about an attempt"),
    (
        "again",
        "Opens each line again whose command reported that it did nothing",
    ),
];

/// The arguments of all commands, in the order of the help.
static ARGUMENTS: [Argument; 26] = [
    Argument {
        name: "RUN",
        commands: &["door", "work", "status", "doubts", "answer", "again"],
        kind: Kind::Required,
        excludes: &[],
        help: "the folder of the run",
    },
    Argument {
        name: "file-system",
        commands: &["door", "work", "status", "doubts", "answer", "again"],
        kind: Kind::Value("TYPE"),
        excludes: &[],
        help: "also accept this file system type; a power cut empties tmpfs (default: ext2-4, xfs, btrfs, f2fs, zfs)",
    },
    Argument {
        name: "id",
        commands: &["door", "work", "status", "doubts", "answer", "again"],
        kind: Kind::Value("ID"),
        excludes: &[],
        help: "refuse a folder whose id isn't this one, 32 hexadecimal digits (default: any id)",
    },
    Argument {
        name: "boot-id",
        commands: &["door", "work", "status", "doubts", "answer", "again"],
        kind: Kind::Default("FILE", BOOT),
        excludes: &[],
        help: "for tests: read the boot id from this file",
    },
    Argument {
        name: "into",
        commands: &["door"],
        kind: Kind::Flag,
        excludes: &[],
        help: "make RUN under its own name; refused if it has an id (default: make RUN.new-X, then rename that)",
    },
    Argument {
        name: "P",
        commands: &["work"],
        kind: Kind::Required,
        excludes: &[],
        help: "the number of the worker, 1 to M",
    },
    Argument {
        name: "workers",
        commands: &["door", "work"],
        kind: Kind::Needed("M"),
        excludes: &[],
        help: "the number of workers, 1 to 16 (must be given)",
    },
    Argument {
        name: "beta",
        commands: &["door", "work"],
        kind: Kind::Default("B", "1"),
        excludes: &[],
        help: "advanced, leave it: the threshold, 1 to 65535; at least the workers of a round",
    },
    Argument {
        name: "JOBS",
        commands: &["door", "work"],
        kind: Kind::Required,
        excludes: &[],
        help: "the list: a text file in which each line is a job",
    },
    Argument {
        name: "P",
        commands: &["lines"],
        kind: Kind::Required,
        excludes: &[],
        help: "the number of the worker, 1 to WORKERS",
    },
    Argument {
        name: "WORKERS",
        commands: &["lines"],
        kind: Kind::Required,
        excludes: &[],
        help: "the number of workers, 1 to 16",
    },
    Argument {
        name: "BETA",
        commands: &["lines"],
        kind: Kind::Required,
        excludes: &[],
        help: "the threshold, WORKERS to 65535",
    },
    Argument {
        name: "N",
        commands: &["lines"],
        kind: Kind::Required,
        excludes: &[],
        help: "the number of jobs, 0 to 4096",
    },
    Argument {
        name: "protocol",
        commands: &["lines"],
        kind: Kind::Value("VERSION"),
        excludes: &[],
        help: "the protocol of the runner: 2, in which it answers `clear` (must be given)",
    },
    Argument {
        name: "json",
        commands: &["status", "doubts"],
        kind: Kind::Flag,
        excludes: &[],
        help: "print JSON (default: text)",
    },
    Argument {
        name: "lines",
        commands: &["status"],
        kind: Kind::Value("KIND"),
        excludes: &["json"],
        help: "print only done, failed, doubt, untouched, running or open lines, for `answer --from` (default: all)",
    },
    Argument {
        name: "damaged",
        commands: &["status"],
        kind: Kind::Flag,
        excludes: &["json", "lines"],
        help: "print what can be read of a run that is refused; no line counts as open (default: refuse it)",
    },
    Argument {
        name: "follow",
        commands: &["status"],
        kind: Kind::Flag,
        excludes: &["json", "lines", "damaged"],
        help: "print a line of JSON a second, without any lock, as docs/follow.schema.json says (default: print once)",
    },
    Argument {
        name: "once",
        commands: &["status"],
        kind: Kind::Flag,
        excludes: &[],
        help: "with --follow: print one line, and end (default: go on)",
    },
    Argument {
        name: "quiet",
        commands: &["answer"],
        kind: Kind::Default("SECONDS", "60"),
        excludes: &[],
        help: "refuse `not-done` until so many seconds have passed since the attempt ended, 0 to 1000000000; a request may arrive late",
    },
    Argument {
        name: "now",
        commands: &["answer"],
        kind: Kind::Flag,
        excludes: &[],
        help: "take `not-done` at once, whenever the attempt ended (default: wait as --quiet says)",
    },
    Argument {
        name: "INTENT",
        commands: &["answer"],
        kind: Kind::Optional,
        excludes: &[],
        help: "the attempt, P.S, as `doubts` prints it",
    },
    Argument {
        name: "LINE",
        commands: &["answer"],
        kind: Kind::Optional,
        excludes: &[],
        help: "the number of its line",
    },
    Argument {
        name: "TEXT",
        commands: &["answer"],
        kind: Kind::Optional,
        excludes: &[],
        help: "the text of that line",
    },
    Argument {
        name: "VERDICT",
        commands: &["answer"],
        kind: Kind::Optional,
        excludes: &[],
        help: "done or not-done",
    },
    Argument {
        name: "from",
        commands: &["answer"],
        kind: Kind::Value("FILE"),
        excludes: &["INTENT"],
        help: "take the answers of this file: P.S, LINE, TEXT and VERDICT a line, with tabs (default: the arguments)",
    },
];

/// Returns the program's command line.
pub(crate) fn program<'a>(alloc: Global) -> Result<Command<'a>, AllocError> {
    let mut command = Command::new(alloc, "amo_worker")
        .about("A worker of a run: it hands each line of a list to a runner, at most once")
        .after_help(EXAMPLES)
        .subcommand_required(true);
    for (name, about) in &COMMANDS {
        let made = Command::new(alloc, name).about(about);
        command = command.subcommand(with_arguments(alloc, made, name)?)?;
    }
    Ok(command)
}

/// Adds its arguments to the command of this name.
fn with_arguments<'a>(
    alloc: Global,
    command: Command<'a>,
    name: &str,
) -> Result<Command<'a>, AllocError> {
    let mut command = command;
    for it in &ARGUMENTS {
        if it.commands.contains(&name) {
            command = command.arg(it.made(alloc)?)?;
        }
    }
    Ok(command)
}

impl Argument {
    /// Returns the argument in the form that clap takes.
    fn made<'a>(&self, alloc: Global) -> Result<Arg<'a>, AllocError> {
        let mut arg = self.kind.given(Arg::new(alloc, self.name), self.name);
        for other in self.excludes {
            arg = arg.conflicts_with(other)?;
        }
        Ok(arg.help(self.help))
    }
}

impl Kind {
    /// Returns the argument of this name, given in this way.
    fn given<'a>(self, arg: Arg<'a>, name: &'static str) -> Arg<'a> {
        match self {
            Kind::Required => arg.required(true),
            Kind::Optional => arg,
            Kind::Flag => arg.long(name).action(ArgAction::SetTrue),
            Kind::Value(value) => valued(arg, name, value),
            Kind::Needed(value) => valued(arg, name, value).required(true),
            Kind::Default(value, default) => valued(arg, name, value).default_value(default),
        }
    }
}

/// Returns this argument as an option of this name, which takes a value of that name.
fn valued<'a>(arg: Arg<'a>, name: &'static str, value: &'static str) -> Arg<'a> {
    arg.long(name).value_name(value)
}
