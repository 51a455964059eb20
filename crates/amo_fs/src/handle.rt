//! The mount on which an open file or folder lies, by the system's text about its handle.
ghost use Rattle.std.specs.Prelude.{◌≡◌, IfOk, IfSome, IfNone, map, option_map};
ghost use Rattle.amo_fs.specs.Handles.{id_of, first_id, mnt_id_in, IsIdIn, NoIdIn};

use crate::parts::lines_of;
use std::alloc::{AllocError, Global};

/// Returns the id of the mount on which an open file or folder lies. The text is that of
/// /proc/self/fdinfo/FD. The id is the rest of the first line that begins with `mnt_id:` and a tab.
/// Returns `None` if no line begins so, as before Linux 3.15.
///
/// # Errors
///
/// `AllocError` if there is no memory for the list of lines.
pub fn mnt_id_in<'a>(alloc: Global, fdinfo: &'a [u8]) -> Result<Option<&'a [u8]>, AllocError>
    ensures exact { IfOk result (λ found. option_map (λ id. id.now) found ≡ mnt_id_in fdinfo.now) }
    ensures found { IfOk result (λ found. IfSome found (λ id. IsIdIn fdinfo.now id.now)) }
    ensures none { IfOk result (λ found. IfNone found (NoIdIn fdinfo.now)) }
{
    find_id(alloc, fdinfo)
}

fn find_id<'a>(alloc: Global, fdinfo: &'a [u8]) -> Result<Option<&'a [u8]>, AllocError>
    ensures { IfOk result (λ found. option_map (λ id. id.now) found ≡ mnt_id_in fdinfo.now) }
{
    let lines = lines_of(alloc, fdinfo)?;
    Ok(first_id(&lines))
}

fn first_id<'a>(lines: &[&'a [u8]]) -> Option<&'a [u8]>
    ensures { option_map (λ id. id.now) result ≡ first_id (map (λ line. line.now) lines.now) }
{
    for line in lines {
        let found = id_of(line);
        if found.is_some() {
            return found;
        }
    }
    None
}

/// Returns the id of this line, if it is the line of the id.
fn id_of<'a>(line: &'a [u8]) -> Option<&'a [u8]>
    ensures { option_map (λ id. id.now) result ≡ id_of line.now }
{
    if 8 <= line.len() && &line[..8] == b"mnt_id:\t".as_slice() {
        Some(&line[8..])
    } else {
        None
    }
}
