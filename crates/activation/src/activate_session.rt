// Activate Session, App 3Ah: IPMI 2.0, 22.17; the Rust's activate_session.rs.
ghost use Rattle.std.specs.Prelude.{◌≡◌};
ghost use Rattle.activation.specs.ActivateSession.{Typed, TypedCommand, begin_bytes, begin_of, command_bytes, command_of};
ghost use Rattle.base.specs.Outcome.{accepted};
ghost use Rattle.base.specs.Refusal.{said};
ghost use Rattle.base.specs.Written.{Writes};

use auth::{AuthType, PrivilegeLevel};
use base::little::{bytes, number};
use base::refusal::Refusal;
use base::written::{join, place};

#[derive(Drop)]
pub struct ActivateSession {
    pub auth_type: AuthType,
    pub maximum_privilege_level: PrivilegeLevel,
    pub challenge_string: [u8; 16],
    pub initial_sequence_number: u32,
}

impl ActivateSession {
    pub const COMMAND: u8 = 0x3A;

    // What the machine gives of every command; the laws ask for it.
    fn typed(self)
        ensures { TypedCommand self }
    {}

    // The request's data.
    pub fn write(self, out: &mut [u8]) -> Result<usize, Refusal>
        ensures { Writes (accepted (command_bytes self)) result out.old out.new }
    {
        let mut head = [0; 18];
        head[0] = u8::from(self.auth_type);
        head[1] = u8::from(self.maximum_privilege_level);
        head[2..].copy_from_slice(&self.challenge_string);
        join(&head, &bytes::<4>(self.initial_sequence_number as u64), out)
    }

    // The command whose request this is: takes only what some command writes.
    pub fn read(request: &[u8]) -> Result<Self, Refusal>
        ensures { said result ≡ command_of request.now }
    {
        if request.len() != 22 {
            return Err(Refusal::NotARequest);
        }
        let Some(auth_type) = AuthType::numbered(request[0]) else {
            return Err(Refusal::NotARequest);
        };
        let Some(maximum_privilege_level) = PrivilegeLevel::numbered(request[1]) else {
            return Err(Refusal::NotARequest);
        };
        let mut challenge_string = [0; 16];
        challenge_string.copy_from_slice(&request[2..18]);
        let initial_sequence_number = number([request[18], request[19], request[20], request[21]]);
        Ok(Self {
            auth_type,
            maximum_privilege_level,
            challenge_string,
            initial_sequence_number,
        })
    }
}

#[derive(Drop)]
pub struct BeginSessionInfo {
    pub auth_type: AuthType,
    pub session_id: u32,
    pub initial_sequence_number: u32,
    pub maximum_privilege_level: PrivilegeLevel,
}

impl BeginSessionInfo {
    // What the machine gives of every record; the laws ask for it.
    fn typed(self)
        ensures { Typed self }
    {}

    // Of the authentication byte and of the level's the low nibble counts; a refusal carries the whole byte.
    pub fn parse(response: &[u8]) -> Result<Self, Refusal>
        ensures { said result ≡ begin_of response.now }
    {
        if response.len() < 10 {
            return Err(Refusal::NotEnoughData);
        }
        let kind = response[0];
        let Ok(auth_type) = AuthType::try_from(kind) else {
            return Err(Refusal::InvalidAuthType(kind));
        };
        let session_id = number([response[1], response[2], response[3], response[4]]);
        if session_id == 0 {
            return Err(Refusal::InvalidZeroSession);
        }
        let level = response[9];
        let Ok(maximum_privilege_level) = PrivilegeLevel::try_from(level) else {
            return Err(Refusal::InvalidPrivilegeLevel(level));
        };
        let initial_sequence_number = number([response[5], response[6], response[7], response[8]]);
        Ok(Self {
            auth_type,
            session_id,
            initial_sequence_number,
            maximum_privilege_level,
        })
    }

    // The response's data.
    pub fn write(self, out: &mut [u8]) -> Result<usize, Refusal>
        ensures { Writes (begin_bytes self) result out.old out.new }
    {
        if self.session_id == 0 {
            return Err(Refusal::NoForm);
        }
        let id = bytes::<4>(self.session_id as u64);
        let first = bytes::<4>(self.initial_sequence_number as u64);
        let kind = u8::from(self.auth_type);
        let limit = u8::from(self.maximum_privilege_level);
        place(
            &[
                kind, id[0], id[1], id[2], id[3], first[0], first[1], first[2], first[3], limit,
            ],
            out,
        )
    }
}
