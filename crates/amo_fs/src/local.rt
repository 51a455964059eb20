//! The types of file systems that are taken unless the operator names others.
ghost use Rattle.std.specs.Prelude.{◌≡◌};
ghost use Rattle.amo_fs.specs.Local.{is_local};

/// Returns true if a file system of this type is a machine's own, on a disk: ext2, ext3, ext4, xfs,
/// btrfs, f2fs or zfs.
pub fn is_local(kind: &[u8]) -> bool
    ensures { result ≡ is_local kind.now }
{
    kind == b"ext2".as_slice()
        || kind == b"ext3".as_slice()
        || kind == b"ext4".as_slice()
        || kind == b"xfs".as_slice()
        || kind == b"btrfs".as_slice()
        || kind == b"f2fs".as_slice()
        || kind == b"zfs".as_slice()
}
