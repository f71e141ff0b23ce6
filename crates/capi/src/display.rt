// Texts: the Rust's Display, and AuthType's Debug, at the start of out. No zero stands behind them.
ghost use Rattle.base.specs.Outcome.{accepted};
ghost use Rattle.capi.specs.Display.{channel_name};
ghost use Rattle.capi.specs.Number.{Codes, CodesAny};
ghost use Rattle.capi.specs.Numbered.{type_name};
ghost use Rattle.access.specs.GetChannelAccess.{limit_of, limit_text, mode_of, mode_text};
ghost use Rattle.media.specs.Media.{medium_of, medium_text, protocol_of, protocol_text, session_of, session_text};

use crate::number::{NONE, code, refused};
use access::get_channel_access::{ChannelAccessMode, ChannelPrivilegeLevel};
use auth::AuthType;
use base::connection::Channel;
use media::get_channel_info::{ChannelMediumType, ChannelProtocolType, ChannelSessionSupport};

pub fn ghj_channel_text(channel: u8, out: &mut [u8]) -> u64
    ensures { Codes (channel_name channel) result out.old out.new }
{
    match Channel::new(channel) {
        Ok(channel) => code(channel.text(out)),
        Err(refusal) => refused(refusal),
    }
}

pub fn ghj_mode_text(mode: u8, out: &mut [u8]) -> u64
    ensures { Codes (accepted (mode_text (mode_of mode))) result out.old out.new }
{
    code(ChannelAccessMode::from(mode).text(out))
}

pub fn ghj_limit_text(limit: u8, out: &mut [u8]) -> u64
    ensures { Codes (accepted (limit_text (limit_of limit))) result out.old out.new }
{
    code(ChannelPrivilegeLevel::from(limit).text(out))
}

pub fn ghj_medium_text(medium: u8, out: &mut [u8]) -> u64
    ensures { Codes (accepted (medium_text (medium_of medium))) result out.old out.new }
{
    code(ChannelMediumType::from(medium).text(out))
}

pub fn ghj_protocol_text(protocol: u8, out: &mut [u8]) -> u64
    ensures { Codes (accepted (protocol_text (protocol_of protocol))) result out.old out.new }
{
    code(ChannelProtocolType::from(protocol).text(out))
}

pub fn ghj_session_support_text(support: u8, out: &mut [u8]) -> u64
    ensures { Codes (accepted (session_text (session_of support))) result out.old out.new }
{
    code(ChannelSessionSupport::from(support).text(out))
}

pub fn ghj_auth_type_name(auth_type: u8, out: &mut [u8]) -> u64
    ensures { CodesAny (type_name auth_type) result out.old out.new }
{
    let Some(kind) = AuthType::numbered(auth_type) else {
        return NONE;
    };
    code(kind.name(out))
}
