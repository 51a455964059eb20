//! Mounts, and the lines that describe them.
ghost use Rattle.std.specs.Prelude.{◌≡◌, IfOk, IfSome, IfNone, map, option_map};
ghost use Rattle.amo_fs.specs.Mounts.{seen, behind_dash, mount_by, mount_of, mount_at, first_mount, mount_of_id, IsMountOf, NoMountOf};

use crate::parts::{fields_of, lines_of};
use std::alloc::{AllocError, Global};

/// A mount, as a line of /proc/self/mountinfo has it.
#[derive(Clone, Copy, Debug)]
pub struct Mount<'a> {
    /// The device of the file system, as MAJOR:MINOR.
    pub device: &'a [u8],
    /// The options of the mount, with commas between.
    pub options: &'a [u8],
    /// The type of the file system.
    pub kind: &'a [u8],
    /// The options of the file system, with commas between.
    pub super_options: &'a [u8],
}

/// Returns the mount of this id. The text is that of /proc/self/mountinfo. The mount is that of the
/// first line whose first field is the id and which has all fields that proc(5) names. Returns
/// `None` if there is no such line: the system leaves out mounts outside of the process's root.
///
/// # Errors
///
/// `AllocError` if there is no memory for the lists of lines and fields.
pub fn mount_of_id<'a>(
    alloc: Global,
    mountinfo: &'a [u8],
    id: &[u8],
) -> Result<Option<Mount<'a>>, AllocError>
    ensures exact { IfOk result (λ found. option_map seen found ≡ mount_of_id mountinfo.now id.now) }
    ensures found { IfOk result (λ found. IfSome found (λ mount. IsMountOf mountinfo.now id.now (seen mount))) }
    ensures none { IfOk result (λ found. IfNone found (NoMountOf mountinfo.now id.now)) }
{
    find_mount(alloc, mountinfo, id)
}

fn find_mount<'a>(
    alloc: Global,
    mountinfo: &'a [u8],
    id: &[u8],
) -> Result<Option<Mount<'a>>, AllocError>
    ensures { IfOk result (λ found. option_map seen found ≡ mount_of_id mountinfo.now id.now) }
{
    let lines = lines_of(alloc, mountinfo)?;
    first_mount(alloc, &lines, id)
}

fn first_mount<'a>(
    alloc: Global,
    lines: &[&'a [u8]],
    id: &[u8],
) -> Result<Option<Mount<'a>>, AllocError>
    ensures { IfOk result (λ found. option_map seen found ≡ first_mount id.now (map (λ line. line.now) lines.now)) }
{
    for line in lines {
        let found = mount_at(alloc, line, id)?;
        if found.is_some() {
            return Ok(found);
        }
    }
    Ok(None)
}

/// Returns the mount of a line, if it has this id.
fn mount_at<'a>(alloc: Global, line: &'a [u8], id: &[u8]) -> Result<Option<Mount<'a>>, AllocError>
    ensures { IfOk result (λ found. option_map seen found ≡ mount_at id.now line.now) }
{
    let fields = fields_of(alloc, line)?;
    if fields.len() < 6 || fields[0] != id {
        return Ok(None);
    }
    Ok(mount_of(&fields))
}

/// Returns the mount of a line of these fields.
fn mount_of<'a>(fields: &[&'a [u8]]) -> Option<Mount<'a>>
    ensures { option_map seen result ≡ mount_of (map (λ field. field.now) fields.now) }
{
    if fields.len() < 6 {
        return None;
    }
    mount_by(fields[2], fields[5], behind_dash(&fields[6..]))
}

/// Returns the mount of this device and these options, if there are three fields after the dash.
fn mount_by<'a>(device: &'a [u8], options: &'a [u8], last: &[&'a [u8]]) -> Option<Mount<'a>>
    ensures { option_map seen result ≡ mount_by device.now options.now (map (λ field. field.now) last.now) }
{
    if last.len() != 3 {
        return None;
    }
    Some(Mount {
        device,
        options,
        kind: last[0],
        super_options: last[2],
    })
}

/// Returns the fields after the first that is a lone dash.
fn behind_dash<'s, 'a>(fields: &'s [&'a [u8]]) -> &'s [&'a [u8]]
    ensures { map (λ field. field.now) result.now ≡ behind_dash (map (λ field. field.now) fields.now) }
{
    for (i, field) in fields.iter().enumerate() {
        if *field == b"-".as_slice() {
            return &fields[i + 1..];
        }
    }
    &[]
}
