//! The versions of the format, and the mark.
ghost use Rattle.std.specs.Prelude.{◌≡◌, List, ℕ, take};
ghost use Rattle.std.specs.Option.{option_map};
ghost use Rattle.gd_bytes.specs.File as files;
ghost use Rattle.gd_journal.specs.Versions.{version_seen, number_of};

/// The versions of the format. In a file of the first one texts have no language before the mark;
/// in one of the second one they may have one from the start, and no mark may stand.
#[derive(Clone, Copy, Debug, PartialEq, Eq)]
pub enum Version {
    One,
    Two,
}

/// The first bytes of a file of version 1: `GRAPHD1` and a newline.
pub const HEADER_ONE: [u8; 8] = *b"GRAPHD1\n";

/// The first bytes of a file of version 2: `GRAPHD2` and a newline.
pub const HEADER_TWO: [u8; 8] = *b"GRAPHD2\n";

/// The payload that stands once in a file of version 1, in front of the first text that may have a
/// language.
pub const MARK: [u8; 4] = [0, 0, 0, 2];

impl Version {
    /// 1 or 2.
    pub fn number(self) -> u8
        ensures { result ≡ number_of (version_seen self) }
    {
        match self {
            Version::One => 1,
            Version::Two => 2,
        }
    }

    /// Whether texts may have languages from the start.
    pub fn is_marked(self) -> bool
        ensures { result ≡ files.is_marked (version_seen self) }
    {
        match self {
            Version::One => false,
            Version::Two => true,
        }
    }
}

/// The version of a file that begins with these bytes, which are its first eight, or all of fewer.
pub(crate) fn version_by(bytes: &[u8]) -> Option<Version>
    ensures { (file : List ℕ) → bytes.now ≡ take 8 file
        → option_map version_seen result ≡ files.version_of file }
{
    if bytes == &HEADER_ONE[..] {
        return Some(Version::One);
    }
    if bytes == &HEADER_TWO[..] {
        return Some(Version::Two);
    }
    None
}
