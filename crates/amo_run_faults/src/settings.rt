//! The arguments of a command about a run.
ghost use Rattle.std.specs.Prelude.{◌≤◌};
ghost use Rattle.amo_params.specs.declared.limits.TheConstants.{MAX_WORKERS, MAX_BETA};

/// A run's folder, and the conditions on it.
#[derive(Clone, Copy)]
pub struct Setting<'a> {
    /// The path of the folder.
    pub run: &'a str,
    /// The id that the run must have, if one is named.
    pub id: Option<&'a str>,
    /// A type of file system that is accepted like the known local ones, as /proc/self/mountinfo
    /// spells it.
    pub file_system: Option<&'a str>,
    /// The path of the file with the boot id.
    pub boot: &'a str,
}

/// Which jobs a run has, and how many may share them.
#[derive(Clone, Copy)]
pub struct ListSettings<'a> {
    /// The path of the jobs' file: a line is a job.
    pub list: &'a str,
    /// How many workers there may be, 1 to 16.
    pub workers: u64,
    /// The threshold that is asked for, 1 to 65535.
    pub beta: u64,
    ghost in_range: { (1 ≤ workers) × (workers ≤ MAX_WORKERS) × (1 ≤ beta) × (beta ≤ MAX_BETA) },
}
