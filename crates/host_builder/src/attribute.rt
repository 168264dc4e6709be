//! What an attribute says of the host.

ghost use Rattle.std.specs.Prelude.{◌≡◌, ◌↔◌, ◌<◌, ◌^◌, IfSome, IsTrue};
ghost use Rattle.std.specs.Str.{is_utf8};
ghost use Rattle.std.specs.Fmt.{decimal};
ghost use Rattle.host_builder.specs.HostAttributes.{seconds_of, is_target, attribute_of, IsSpelled};

use script_lines::Text;

/// The most seconds since 1970 that a host can set.
const MAX_SECONDS: u64 = i64::MAX as u64;

/// What the host is to have of links: empty files with the attribute `link`, which says where they lead.
#[derive(Clone, Copy, Debug, PartialEq, Eq)]
pub enum Links {
    /// Links.
    Made,
    /// Neither a link nor an empty file in its place.
    LeftOut,
    /// An empty file: the attribute is data alone.
    Data,
}

/// What the host is to have of a tree.
#[derive(Clone, Copy, Debug, PartialEq, Eq)]
pub struct Wanted {
    /// `mode`, the byte `x` where a file may be executed.
    pub mode: bool,
    /// `mtime`, the seconds since 1970 of the last change.
    pub mtime: bool,
    /// What becomes of links.
    pub links: Links,
    /// Whether what has no path on the host is left out, with all below it. Else the first such path is an obstacle.
    pub skips: bool,
}

/// Why an entry is left out.
#[derive(Clone, Copy, Debug, PartialEq, Eq)]
pub enum LeftOut {
    /// Its path has none on the host: one of its names is the spelling of none, or of one that is not UTF-8.
    NoName,
    /// It is a link.
    Link,
}

/// What an attribute says of the host.
#[derive(Clone, Copy, Debug, PartialEq, Eq)]
pub enum HostAttribute {
    /// The file may be executed.
    Executes,
    /// The seconds since 1970 of the last change.
    Time(u64),
    /// The empty file is a link.
    Link,
}

/// Whether a host can set so many seconds, and these are their digits.
fn is_spelled(seconds: u64, digits: &[u8]) -> bool
    ensures { IsTrue result ↔ ((digits.now ≡ decimal seconds) × (seconds < 2 ^ 63)) }
{
    let mut spelled = Text::new();
    spelled.push_long(seconds);
    spelled.as_slice() == digits && seconds <= MAX_SECONDS
}

/// The seconds that decimal digits say, with no zero before them; none where a host can't set them.
fn seconds_in(digits: &[u8]) -> Option<u64>
    ensures value { result ≡ seconds_of digits.now }
    ensures spelled { IfSome result
        (λ seconds. (digits.now ≡ decimal seconds) × (seconds < 2 ^ 63)) }
{
    let Ok(text) = str::from_utf8(digits) else {
        return None;
    };
    let Ok(seconds) = text.parse::<u64>() else {
        return None;
    };
    if is_spelled(seconds, digits) {
        Some(seconds)
    } else {
        None
    }
}

/// Whether the bytes are UTF-8.
fn is_text(bytes: &[u8]) -> bool
    ensures { result ≡ is_utf8 bytes.now }
{
    match str::from_utf8(bytes) {
        Ok(_) => true,
        Err(_) => false,
    }
}

/// Whether a link may lead there.
fn is_target(bytes: &[u8]) -> bool
    ensures { result ≡ is_target bytes.now }
{
    if bytes.is_empty() || bytes.contains(&0) {
        return false;
    }
    is_text(bytes)
}

/// What an attribute says of the host, if it says something.
pub fn attribute_in(name: &[u8], bytes: &[u8]) -> Option<HostAttribute>
    ensures value { result ≡ attribute_of name.now bytes.now }
    ensures spelled { IfSome result (IsSpelled name.now bytes.now) }
{
    if name == b"mode".as_slice() {
        return (bytes == b"x".as_slice()).then_some(HostAttribute::Executes);
    }
    if name == b"mtime".as_slice() {
        return seconds_in(bytes).map(HostAttribute::Time);
    }
    if name == b"link".as_slice() && is_target(bytes) {
        return Some(HostAttribute::Link);
    }
    None
}
