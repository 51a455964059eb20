//! The logs of a folder of version 0.1.0.
use amo_journal::texts_in;
use amo_run_dir::bytes_of;
use amo_run_faults::{Fault, Item, Setting};
use amo_run_log::with_time;
use amo_system_calls::SystemCalls;

/// Returns the texts of a log of version 0.1.0, as they are written today. One that is missing has
/// none.
pub(crate) fn old_texts_of<S: SystemCalls>(
    system: &mut S,
    setting: &Setting<'_>,
    item: Item,
) -> Result<Vec<Vec<u8>>, Fault> {
    let mut texts = Vec::new(system.alloc());
    let Some(bytes) = bytes_of(system, setting, item)? else {
        return Ok(texts);
    };
    for text in &texts_in(system.alloc(), &bytes)? {
        texts.push(with_time(system.alloc(), text)?)?;
    }
    Ok(texts)
}
