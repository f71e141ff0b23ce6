// Get Session Challenge, App 39h: IPMI 2.0, 22.16; the Rust's get_session_challenge.rs.
ghost use Rattle.std.specs.Prelude.{◌≡◌};
ghost use Rattle.challenge.specs.GetSessionChallenge.{Typed, TypedCommand, challenge_bytes, challenge_of, command_bytes, command_for, command_of, shown};
ghost use Rattle.base.specs.Outcome.{accepted};
ghost use Rattle.base.specs.Part.{Part};
ghost use Rattle.base.specs.Refusal.{said};
ghost use Rattle.base.specs.Written.{Writes};

use auth::AuthType;
use base::little::{bytes, number};
use base::refusal::Refusal;
use base::written::{join, place};

#[derive(Clone, Copy)]
pub struct GetSessionChallenge {
    pub auth_type: AuthType,
    pub username: [u8; 16],
}

// The part of a name that is shown: up to its first zero.
pub fn shown(name: &[u8]) -> &[u8]
    ensures { Part name.entry result (shown name.now) }
{
    let end = name
        .iter()
        .position(|&byte| byte == 0)
        .unwrap_or(name.len());
    &name[..end]
}

impl GetSessionChallenge {
    pub const COMMAND: u8 = 0x39;

    // What the machine gives of every command; the laws ask for it.
    fn typed(self)
        ensures { TypedCommand self }
    {}

    pub fn new(auth_type: AuthType, name: &[u8]) -> Result<Self, Refusal>
        ensures { said result ≡ command_for auth_type name.now }
    {
        if 16 < name.len() {
            return Err(Refusal::LongName);
        }
        let mut padded = [0; 16];
        padded[..name.len()].copy_from_slice(name);
        Ok(Self {
            auth_type,
            username: padded,
        })
    }

    pub fn auth_type(self) -> AuthType
        ensures { result ≡ self.auth_type }
    {
        self.auth_type
    }

    // The name, as it is shown.
    pub fn username(self, out: &mut [u8]) -> Result<usize, Refusal>
        ensures { Writes (accepted (shown self.username)) result out.old out.new }
    {
        place(shown(&self.username), out)
    }

    // The request's data.
    pub fn write(self, out: &mut [u8]) -> Result<usize, Refusal>
        ensures { Writes (accepted (command_bytes self)) result out.old out.new }
    {
        join(&[u8::from(self.auth_type)], &self.username, out)
    }

    // The command whose request this is: takes only what some command writes.
    pub fn read(request: &[u8]) -> Result<Self, Refusal>
        ensures { said result ≡ command_of request.now }
    {
        if request.len() != 17 {
            return Err(Refusal::NotARequest);
        }
        let Some(auth_type) = AuthType::numbered(request[0]) else {
            return Err(Refusal::NotARequest);
        };
        let mut username = [0; 16];
        username.copy_from_slice(&request[1..]);
        Ok(Self {
            auth_type,
            username,
        })
    }
}

#[derive(Drop)]
pub struct SessionChallenge {
    pub temporary_session_id: u32,
    pub challenge_string: [u8; 16],
}

impl SessionChallenge {
    // What the machine gives of every challenge; the laws ask for it.
    fn typed(self)
        ensures { Typed self }
    {}

    pub fn parse(response: &[u8]) -> Result<Self, Refusal>
        ensures { said result ≡ challenge_of response.now }
    {
        if response.len() != 20 {
            return Err(Refusal::NotEnoughData);
        }
        let id = number([response[0], response[1], response[2], response[3]]);
        if id == 0 {
            return Err(Refusal::InvalidZeroSession);
        }
        let mut challenge_string = [0; 16];
        challenge_string.copy_from_slice(&response[4..]);
        Ok(Self {
            temporary_session_id: id,
            challenge_string,
        })
    }

    // The response's data.
    pub fn write(self, out: &mut [u8]) -> Result<usize, Refusal>
        ensures { Writes (challenge_bytes self) result out.old out.new }
    {
        if self.temporary_session_id == 0 {
            return Err(Refusal::NoForm);
        }
        join(
            &bytes::<4>(self.temporary_session_id as u64),
            &self.challenge_string,
            out,
        )
    }
}
