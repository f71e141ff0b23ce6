// The session's messages: the Rust's auth/mod.rs. `name` is its Debug.
#![tactic(auto)]

ghost use Rattle.std.specs.Prelude.{◌≡◌, ok_or};
ghost use Rattle.auth.specs.Auth.{auth_type_name, auth_type_of, auth_type_value, auth_types, best_of, privilege_of, privilege_value, privileges, rank, strength};
ghost use Rattle.base.specs.Named.{named};
ghost use Rattle.base.specs.Outcome.{accepted};
ghost use Rattle.base.specs.Written.{Writes};

use base::field::bits;
use base::refusal::Refusal;
use base::written::place;
use std::cmp::Ordering;

pub mod algorithms;
pub mod get_channel_authentication_capabilities;

#[derive(Clone, Copy)]
pub enum AuthType {
    None,
    MD2,
    MD5,
    Key,
}

impl AuthType {
    // The whole number counts, as in what a command writes.
    pub fn numbered(number: u8) -> Option<Self>
        ensures { result ≡ named auth_types number }
    {
        match number {
            0 => Some(AuthType::None),
            1 => Some(AuthType::MD2),
            2 => Some(AuthType::MD5),
            4 => Some(AuthType::Key),
            _ => None,
        }
    }

    // A writer and no Display: C lends the memory, which has all of the name or none of it.
    pub fn name(self, out: &mut [u8]) -> Result<usize, Refusal>
        ensures { Writes (accepted (auth_type_name self)) result out.old out.new }
    {
        match self {
            AuthType::None => place(b"None", out),
            AuthType::MD2 => place(b"MD2", out),
            AuthType::MD5 => place(b"MD5", out),
            AuthType::Key => place(b"Key", out),
        }
    }

    // Weakest first: neither the order of the numbers nor that of the names, so no derive has it.
    fn rank(self) -> u8
        ensures { result ≡ rank self }
    {
        match self {
            AuthType::None => 0,
            AuthType::Key => 1,
            AuthType::MD2 => 2,
            AuthType::MD5 => 3,
        }
    }

    // Greater: `self` is the stronger. The Rust's chain of comparisons gives the same: `chain_is`.
    pub fn compare_strength(self, other: Self) -> Ordering
        ensures { result ≡ strength self other }
    {
        self.rank().cmp(&other.rank())
    }

    // The strongest of the types that are offered: `best_iff`.
    pub fn best_of(key: bool, md5: bool, md2: bool, none: bool) -> Option<Self>
        ensures { result ≡ best_of key md5 md2 none }
    {
        if md5 {
            Some(AuthType::MD5)
        } else if md2 {
            Some(AuthType::MD2)
        } else if key {
            Some(AuthType::Key)
        } else if none {
            Some(AuthType::None)
        } else {
            None
        }
    }
}

impl TryFrom<u8> for AuthType {
    type Error = ();

    ghost try_from_gives = { λ value result. result ≡ ok_or (auth_type_of value) tt };

    // The low nibble counts: the high one is reserved.
    fn try_from(value: u8) -> Result<Self, ()> {
        AuthType::numbered(bits(value, 0, 4)).ok_or(())
    }
}

impl From<AuthType> for u8 {
    ghost from_gives = { λ kind value. value ≡ auth_type_value kind };

    fn from(kind: AuthType) -> u8 {
        match kind {
            AuthType::None => 0,
            AuthType::MD2 => 1,
            AuthType::MD5 => 2,
            AuthType::Key => 4,
        }
    }
}

#[derive(Clone, Copy)]
pub enum PrivilegeLevel {
    Callback,
    User,
    Operator,
    Administrator,
    OemProperietary,
}

impl PrivilegeLevel {
    // The whole number counts, as in what a command writes.
    pub fn numbered(number: u8) -> Option<Self>
        ensures { result ≡ named privileges number }
    {
        match number {
            1 => Some(PrivilegeLevel::Callback),
            2 => Some(PrivilegeLevel::User),
            3 => Some(PrivilegeLevel::Operator),
            4 => Some(PrivilegeLevel::Administrator),
            5 => Some(PrivilegeLevel::OemProperietary),
            _ => None,
        }
    }
}

impl TryFrom<u8> for PrivilegeLevel {
    type Error = ();

    ghost try_from_gives = { λ value result. result ≡ ok_or (privilege_of value) tt };

    // The low nibble counts.
    fn try_from(value: u8) -> Result<Self, ()> {
        PrivilegeLevel::numbered(bits(value, 0, 4)).ok_or(())
    }
}

impl From<PrivilegeLevel> for u8 {
    ghost from_gives = { λ level value. value ≡ privilege_value level };

    fn from(level: PrivilegeLevel) -> u8 {
        match level {
            PrivilegeLevel::Callback => 1,
            PrivilegeLevel::User => 2,
            PrivilegeLevel::Operator => 3,
            PrivilegeLevel::Administrator => 4,
            PrivilegeLevel::OemProperietary => 5,
        }
    }
}
