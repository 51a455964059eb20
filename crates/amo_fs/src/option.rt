//! Options with which a file system doesn't keep what is synced.
ghost use Rattle.std.specs.Prelude.{◌≡◌, IfOk, IfSome, IfNone, map, option_map};
ghost use Rattle.amo_fs.specs.Mounts.{seen};
ghost use Rattle.amo_fs.specs.Options.{is_refused, first_refused, all_options, refused_option, refused_default, IsFirstRefused, NoneRefused};
ghost use Rattle.amo_fs.specs.Parts.{lines_of};

use crate::mount::Mount;
use crate::parts::{lines_of, options_of};
use std::alloc::{AllocError, Global};

/// Returns the first option of a mount by which a power cut may lose what was synced: `nobarrier`,
/// `barrier=0` or `data=writeback`. The options of the mount come first, then those of its file
/// system. Whole options are compared.
///
/// # Errors
///
/// `AllocError` if there is no memory for the lists of options.
pub fn refused_option<'a>(alloc: Global, mount: &Mount<'a>) -> Result<Option<&'a [u8]>, AllocError>
    ensures exact { IfOk result (λ found. option_map (λ option. option.now) found ≡ refused_option (seen mount.now)) }
    ensures found { IfOk result (λ found. IfSome found (λ option. IsFirstRefused (all_options (seen mount.now)) option.now)) }
    ensures none { IfOk result (λ found. IfNone found (NoneRefused (all_options (seen mount.now)))) }
{
    find_option(alloc, mount)
}

fn find_option<'a>(alloc: Global, mount: &Mount<'a>) -> Result<Option<&'a [u8]>, AllocError>
    ensures { IfOk result (λ found. option_map (λ option. option.now) found ≡ refused_option (seen mount.now)) }
{
    let options = options_of(alloc, mount.options)?;
    let found = first_refused(&options);
    if found.is_some() {
        return Ok(found);
    }
    let options = options_of(alloc, mount.super_options)?;
    Ok(first_refused(&options))
}

/// Returns the first such option in the text of /proc/fs/ext4/DEV/options. This text has one option
/// a line, and has options that are set by default, which mountinfo leaves out.
///
/// # Errors
///
/// `AllocError` if there is no memory for the list of lines.
pub fn refused_default<'a>(alloc: Global, text: &'a [u8]) -> Result<Option<&'a [u8]>, AllocError>
    ensures exact { IfOk result (λ found. option_map (λ option. option.now) found ≡ refused_default text.now) }
    ensures found { IfOk result (λ found. IfSome found (λ option. IsFirstRefused (lines_of text.now) option.now)) }
    ensures none { IfOk result (λ found. IfNone found (NoneRefused (lines_of text.now))) }
{
    find_default(alloc, text)
}

fn find_default<'a>(alloc: Global, text: &'a [u8]) -> Result<Option<&'a [u8]>, AllocError>
    ensures { IfOk result (λ found. option_map (λ option. option.now) found ≡ refused_default text.now) }
{
    let options = lines_of(alloc, text)?;
    Ok(first_refused(&options))
}

fn first_refused<'a>(options: &[&'a [u8]]) -> Option<&'a [u8]>
    ensures { option_map (λ option. option.now) result ≡ first_refused (map (λ option. option.now) options.now) }
{
    for option in options {
        if is_refused(option) {
            return Some(*option);
        }
    }
    None
}

fn is_refused(option: &[u8]) -> bool
    ensures { result ≡ is_refused option.now }
{
    option == b"nobarrier".as_slice()
        || option == b"barrier=0".as_slice()
        || option == b"data=writeback".as_slice()
}
