//! The frames of an audit.
ghost use Rattle.std.specs.Prelude.{◌≡◌, option_map};
ghost use Rattle.tp_audit_tool.specs.Frames.{asked_in, asked_by, site_in, is_piece};

use tp_names::SiteName;

/// The most bytes of a log that a frame has.
const MOST: usize = 2_000;

/// What a frame asks for.
#[derive(Clone, Copy)]
pub(crate) enum Frame<'a> {
    /// The log of that site opens.
    Opens(SiteName),
    /// The log that is open goes on with these bytes.
    GoesOn(&'a [u8]),
}

/// What the body asks for, where it is the whole of a frame of an audit.
pub(crate) fn read_frame(body: &[u8]) -> Option<Frame<'_>>
    ensures { option_map asked_by result ≡ asked_in body.now }
{
    match body {
        [0x40, len, name @ ..] => Some(Frame::Opens(site_of(*len, name)?)),
        [0x41, high, low, bytes @ ..] if is_piece(u16::from_be_bytes([*high, *low]), bytes) => {
            Some(Frame::GoesOn(bytes))
        }
        _ => None,
    }
}

fn site_of(len: u8, name: &[u8]) -> Option<SiteName>
    ensures { result ≡ site_in len name.now }
{
    if name.len() != usize::from(len) {
        return None;
    }
    SiteName::new(name)
}

fn is_piece(len: u16, bytes: &[u8]) -> bool
    ensures { result ≡ is_piece len bytes.now }
{
    bytes.len() == usize::from(len) && !bytes.is_empty() && bytes.len() <= MOST
}
