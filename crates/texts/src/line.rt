// A line that is built a piece at a time.
ghost use Rattle.std.specs.Prelude.{◌≡◌, ℕ, List, ◌+◌, ◌≤◌, ◌++◌, [], length, take};
ghost use Rattle.access.specs.GetChannelAccess.{limit_text, mode_text};
ghost use Rattle.auth.specs.Auth.{auth_type_name};
ghost use Rattle.base.specs.Connection.{channel_text};
ghost use Rattle.base.specs.Outcome.{accepted};
ghost use Rattle.base.specs.Text.{hex2};
ghost use Rattle.base.specs.Written.{Writes};
ghost use Rattle.lines.specs.Lines.{decimal};
ghost use Rattle.media.specs.Media.{medium_text, protocol_text, session_text};

use access::get_channel_access::{ChannelAccessMode, ChannelPrivilegeLevel};
use auth::AuthType;
use base::connection::Channel;
use base::refusal::Refusal;
use base::written::place;
use lines::{decimal, hex};
use media::get_channel_info::{ChannelMediumType, ChannelProtocolType, ChannelSessionSupport};
use std::marker::Model;

// What has a text of its own, of at most so many bytes.
pub(crate) trait Piece {
    ghost text: { Self → List ℕ };

    ghost most: { ℕ };

    fn write(self, out: &mut [u8]) -> Result<usize, Refusal>
        ensures writes { Writes (accepted (text self)) result out.old out.new }
        ensures fits { length (text self) ≤ most };
}

impl Piece for Channel {
    ghost text = { channel_text };

    ghost most = { 15 };

    fn write(self, out: &mut [u8]) -> Result<usize, Refusal> {
        self.text(out)
    }
}

impl Piece for ChannelMediumType {
    ghost text = { medium_text };

    ghost most = { 25 };

    fn write(self, out: &mut [u8]) -> Result<usize, Refusal> {
        self.text(out)
    }
}

impl Piece for ChannelProtocolType {
    ghost text = { protocol_text };

    ghost most = { 15 };

    fn write(self, out: &mut [u8]) -> Result<usize, Refusal> {
        self.text(out)
    }
}

impl Piece for ChannelSessionSupport {
    ghost text = { session_text };

    ghost most = { 15 };

    fn write(self, out: &mut [u8]) -> Result<usize, Refusal> {
        self.text(out)
    }
}

impl Piece for ChannelAccessMode {
    ghost text = { mode_text };

    ghost most = { 16 };

    fn write(self, out: &mut [u8]) -> Result<usize, Refusal> {
        self.text(out)
    }
}

impl Piece for ChannelPrivilegeLevel {
    ghost text = { limit_text };

    ghost most = { 14 };

    fn write(self, out: &mut [u8]) -> Result<usize, Refusal> {
        self.text(out)
    }
}

impl Piece for AuthType {
    ghost text = { auth_type_name };

    ghost most = { 4 };

    fn write(self, out: &mut [u8]) -> Result<usize, Refusal> {
        self.name(out)
    }
}

// In decimal.
impl Piece for u64 {
    ghost text = { decimal };

    ghost most = { 20 };

    fn write(self, out: &mut [u8]) -> Result<usize, Refusal> {
        decimal(self, out)
    }
}

// A byte as two digits.
#[derive(Drop)]
pub(crate) struct Hex(pub(crate) u8);

impl Piece for Hex {
    ghost text = { λ byte. hex2 byte.0 };

    ghost most = { 2 };

    fn write(self, out: &mut [u8]) -> Result<usize, Refusal> {
        hex(self.0, out)
    }
}

// More than any text but a list of suites takes.
const ROOM: usize = 160;

// To a proof it is the list of its bytes.
#[derive(Drop)]
pub(crate) struct Line {
    bytes: [u8; ROOM],
    length: usize,
}

impl Model for Line {
    ghost Value = { List ℕ };

    ghost view = { λ line. take line.length line.bytes };

    ghost invariant = { λ line. line.length ≤ 160 };
}

impl Line {
    pub(crate) fn new() -> Self
        ensures { result ≡ [] }
    {
        Line {
            bytes: [0; ROOM],
            length: 0,
        }
    }

    pub(crate) fn push(&mut self, piece: &[u8])
        requires { length self.old + length piece.now ≤ 160 }
        ensures { self.new ≡ self.old ++ piece.now }
    {
        let end = self.length + piece.len();
        self.bytes[self.length..end].copy_from_slice(piece);
        self.length = end;
    }

    pub(crate) fn show<P: Piece>(&mut self, piece: P)
        requires { length self.old + P.most ≤ 160 }
        ensures after { self.new ≡ self.old ++ P.text piece }
        ensures fits { length self.new ≤ length self.old + P.most }
    {
        let n = piece.write(&mut self.bytes[self.length..]).unwrap_or(0);
        self.length += n;
    }

    // The line, at the start of a lent buffer.
    pub(crate) fn place(&self, out: &mut [u8]) -> Result<usize, Refusal>
        ensures { Writes (accepted self.now) result out.old out.new }
    {
        place(&self.bytes[..self.length], out)
    }
}
