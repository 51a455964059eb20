//! The reasons for which a file system is refused.
use thiserror::Error;

/// Why a file system is refused.
#[derive(Debug, Drop, Error)]
pub enum Disk {
    /// The system doesn't list the mount of the folder.
    #[error("/proc/self/mountinfo doesn't list its mount, as in a chroot; use a folder on a volume that is mounted there")]
    Unknown,
    /// It is an overlay.
    #[error("its file system is `overlay`, which may vanish with its container; put it on a volume, or use it anyway: --file-system overlay")]
    Overlay,
    /// It is of this type, which isn't among the known local ones.
    #[error("its file system is `{0}`, which may lose synced data; put it on a local disk, or use it anyway: --file-system {0}")]
    Other(String),
    /// It is mounted with this option.
    #[error("its file system is mounted with `{0}`, so a power cut may lose synced data; mount it without `{0}`")]
    Option(String),
    /// It has this option as a default; the second is the one that it needs.
    #[error("its file system has `{0}` as a default, so a power cut may lose synced data; mount it with `{1}`")]
    Default(String, String),
}
