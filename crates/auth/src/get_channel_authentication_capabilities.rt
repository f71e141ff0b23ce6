// Get Channel Authentication Capabilities, App 38h: IPMI 2.0, Table 22-15; the Rust's get_channel_authentication_capabilities.rs.
ghost use Rattle.std.specs.Prelude.{◌≡◌, ◌≤◌, length};
ghost use Rattle.auth.specs.GetChannelAuthenticationCapabilities.{Typed, best_auth, capabilities_bytes, capabilities_of, command, command_bytes, command_for, command_of, extended_of, plain};
ghost use Rattle.base.specs.Outcome.{accepted};
ghost use Rattle.base.specs.Refusal.{said};
ghost use Rattle.base.specs.Written.{Writes};

use crate::{AuthType, PrivilegeLevel};
use base::connection::Channel;
use base::field::{flag, flags};
use base::refusal::Refusal;
use base::written::place;

#[derive(Drop)]
pub struct GetChannelAuthenticationCapabilities {
    pub channel_number: Channel,
    pub privilege_level: PrivilegeLevel,
}

impl GetChannelAuthenticationCapabilities {
    pub const COMMAND: u8 = 0x38;

    pub fn new(channel_number: Channel, privilege_level: PrivilegeLevel) -> Self
        ensures { result ≡ command channel_number privilege_level }
    {
        Self {
            channel_number,
            privilege_level,
        }
    }

    // For a channel that is given as a number.
    pub fn numbered(number: u8, privilege_level: PrivilegeLevel) -> Result<Self, Refusal>
        ensures { said result ≡ command_for number privilege_level }
    {
        Ok(Self::new(Channel::new(number)?, privilege_level))
    }

    // The request's data. Bit 7 asks for the extended answer.
    pub fn write(self, out: &mut [u8]) -> Result<usize, Refusal>
        ensures { Writes (command_bytes self) result out.old out.new }
    {
        let number = self.channel_number.field()?;
        place(&[0x80 + number, u8::from(self.privilege_level)], out)
    }

    // The command whose request this is: takes only what some command writes.
    pub fn read(request: &[u8]) -> Result<Self, Refusal>
        ensures { said result ≡ command_of request.now }
    {
        let &[first, second] = request else {
            return Err(Refusal::NotARequest);
        };
        if first < 0x80 {
            return Err(Refusal::NotARequest);
        }
        let Ok(channel) = Channel::new(first - 0x80) else {
            return Err(Refusal::NotARequest);
        };
        let Some(level) = PrivilegeLevel::numbered(second) else {
            return Err(Refusal::NotARequest);
        };
        Ok(Self::new(channel, level))
    }
}

#[derive(Drop)]
pub struct ChannelAuthenticationCapabilities {
    pub channel_number: u8,
    pub oem_proprietary: bool,
    pub key: bool,
    pub md5: bool,
    pub md2: bool,
    pub none: bool,
    pub kg_status: bool,
    pub per_message_authentication_enabled: bool,
    pub user_level_authentication_enabled: bool,
    pub non_null_usernames_enabled: bool,
    pub null_usernames_enabled: bool,
    pub anonymous_login_enabled: bool,
    pub ipmi2_connections_supported: bool,
    pub ipmi15_connections_supported: bool,
    pub oem_id: [u8; 3],
    pub oem_auxiliary_data: u8,
}

impl ChannelAuthenticationCapabilities {
    // What the machine gives of every record; the laws ask for it.
    fn typed(self)
        ensures { Typed self }
    {}

    // The form without bit 7 of byte 1. Bits 4 and 3 of the status say what is NOT enabled.
    fn plain(response: &[u8]) -> Self
        requires { 7 ≤ length response.now }
        ensures { result ≡ plain response.now }
    {
        let types = response[1];
        let status = response[2];
        Self {
            channel_number: response[0],
            oem_proprietary: flag(types, 5),
            key: flag(types, 4),
            md5: flag(types, 2),
            md2: flag(types, 1),
            none: flag(types, 0),
            kg_status: false,
            per_message_authentication_enabled: !flag(status, 4),
            user_level_authentication_enabled: !flag(status, 3),
            non_null_usernames_enabled: flag(status, 2),
            null_usernames_enabled: flag(status, 1),
            anonymous_login_enabled: flag(status, 0),
            ipmi2_connections_supported: false,
            ipmi15_connections_supported: false,
            oem_id: [response[3], response[4], response[5]],
            oem_auxiliary_data: response[6],
        }
    }

    // The form with it: the OEM fields stand one byte later.
    fn extended(response: &[u8]) -> Result<Self, Refusal>
        ensures { said result ≡ extended_of response.now }
    {
        if response.len() < 8 {
            return Err(Refusal::NotEnoughData);
        }
        Ok(Self {
            kg_status: flag(response[2], 5),
            ipmi2_connections_supported: flag(response[3], 1),
            ipmi15_connections_supported: flag(response[3], 0),
            oem_id: [response[4], response[5], response[6]],
            oem_auxiliary_data: response[7],
            ..Self::plain(response)
        })
    }

    pub fn parse(response: &[u8]) -> Result<Self, Refusal>
        ensures { said result ≡ capabilities_of response.now }
    {
        if response.len() < 7 {
            return Err(Refusal::NotEnoughData);
        }
        if flag(response[1], 7) {
            return Self::extended(response);
        }
        Ok(Self::plain(response))
    }

    pub fn best_auth(self) -> Option<AuthType>
        ensures { result ≡ best_auth self }
    {
        AuthType::best_of(self.key, self.md5, self.md2, self.none)
    }

    // The response's data, always in the extended form.
    pub fn write(self, out: &mut [u8]) -> Result<usize, Refusal>
        ensures { Writes (accepted (capabilities_bytes self)) result out.old out.new }
    {
        let types = flags(
            true,
            false,
            self.oem_proprietary,
            self.key,
            false,
            self.md5,
            self.md2,
            self.none,
        );
        let status = flags(
            false,
            false,
            self.kg_status,
            !self.per_message_authentication_enabled,
            !self.user_level_authentication_enabled,
            self.non_null_usernames_enabled,
            self.null_usernames_enabled,
            self.anonymous_login_enabled,
        );
        let v2 = self.ipmi2_connections_supported;
        let v15 = self.ipmi15_connections_supported;
        let versions = flags(false, false, false, false, false, false, v2, v15);
        let channel = self.channel_number;
        let id = self.oem_id;
        let aux = self.oem_auxiliary_data;
        place(
            &[channel, types, status, versions, id[0], id[1], id[2], aux],
            out,
        )
    }
}
