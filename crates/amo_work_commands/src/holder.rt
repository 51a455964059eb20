//! The process that has the number of a worker.
use amo_run_dir::path_of;
use amo_run_faults::{Fault, Item, Later, Setting, had};
use amo_system_calls::{Os, SystemCalls};
use std::rt::HostRuntime;

/// Returns why a number can't be taken, with the process that has its lock if the system lists it.
pub(crate) fn holder(rt: HostRuntime, setting: &Setting<'_>, item: Item) -> Later {
    match holder_of(&mut Os::new(rt), setting, item) {
        Ok(Some(process)) => Later::TakenBy(process),
        _ => Later::Taken,
    }
}

fn holder_of<S: SystemCalls>(
    system: &mut S,
    setting: &Setting<'_>,
    item: Item,
) -> Result<Option<u64>, Fault> {
    let path = path_of(system.alloc(), setting, item)?;
    let Some(found) = had(item, system.look(path.as_str(), true))? else {
        return Ok(None);
    };
    let Some(locks) = had(item, system.read_file("/proc/locks"))? else {
        return Ok(None);
    };
    let inode = found.inode;
    let end = format!(in system.alloc(); ":{inode}")?;
    Ok(holder_in(std::str::from_utf8(&locks).unwrap_or(""), end.as_str()))
}

/// Returns the process that has a lock on a whole file whose device and inode number end so.
fn holder_in(locks: &str, end: &str) -> Option<u64> {
    for line in locks.lines() {
        if let Some(process) = holder_by(line, end) {
            return Some(process);
        }
    }
    None
}

/// Returns the process of a line like `1: FLOCK ADVISORY WRITE 708 08:01:1234 0 EOF`, if that is a
/// lock on such a file.
fn holder_by(line: &str, end: &str) -> Option<u64> {
    let mut words = line.split_whitespace();
    let _number = words.next()?;
    let kind = words.next()?;
    let _advisory = words.next()?;
    let _how = words.next()?;
    let process = words.next()?;
    let place = words.next()?;
    if kind == "FLOCK" && place.ends_with(end) {
        process.parse::<u64>().ok()
    } else {
        None
    }
}
