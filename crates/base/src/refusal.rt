// The refusals of documents 01 and 02, by the names that these give them.
ghost use Rattle.std.specs.Prelude.{◌≡◌};
ghost use Rattle.base.specs.Field.{byte};
ghost use Rattle.base.specs.Refusal.{row};

#[derive(Clone, Copy, Debug, PartialEq, Eq)]
pub enum Refusal {
    NotEnoughData,
    TooMuchData,
    InvalidZeroSession,
    InvalidAuthType(u8),
    InvalidPrivilegeLevel(u8),
    NoChannel,
    BadIndex,
    LongName,
    NoForm,
    NotARequest,
    NoRoom,
    Disagrees,
    Incomplete(u8),
    BadLine,
    WrongChannel,
    BadRecord(usize),
}

impl Refusal {
    // The number in document 01's table, or a later request's.
    pub fn number(self) -> u8
        ensures { result ≡ (row self).0 }
    {
        match self {
            Refusal::NotEnoughData => 1,
            Refusal::TooMuchData => 2,
            Refusal::InvalidZeroSession => 3,
            Refusal::InvalidAuthType(_) => 4,
            Refusal::InvalidPrivilegeLevel(_) => 5,
            Refusal::NoChannel => 6,
            Refusal::BadIndex => 7,
            Refusal::LongName => 8,
            Refusal::NoForm => 9,
            Refusal::NotARequest => 10,
            Refusal::NoRoom => 11,
            Refusal::Disagrees => 12,
            Refusal::Incomplete(_) => 13,
            Refusal::BadLine => 14,
            Refusal::WrongChannel => 15,
            Refusal::BadRecord(_) => 16,
        }
    }

    // The byte or place that it carries, 0 where it carries none.
    pub fn carried(self) -> usize
        ensures { result ≡ byte 0 (row self).1 }
    {
        match self {
            Refusal::InvalidAuthType(byte) => byte as usize,
            Refusal::InvalidPrivilegeLevel(byte) => byte as usize,
            Refusal::Incomplete(index) => index as usize,
            Refusal::BadRecord(place) => place,
            _ => 0,
        }
    }
}
