// The three algorithms of a suite: the Rust's auth/algorithms.rs. Each type has a table of its own, so nothing is generic.
ghost use Rattle.std.specs.Prelude.{◌≡◌, ok_or};
ghost use Rattle.auth.specs.Algorithms.{authentication_of, authentication_value, confidentiality_of, confidentiality_value, integrity_of, integrity_value};

#[derive(Clone, Copy)]
pub enum AuthenticationAlgorithm {
    RakpNone,
    RakpHmacSha1,
    RakpHmacMd5,
    RakpHmacSha256,
}

impl TryFrom<u8> for AuthenticationAlgorithm {
    type Error = ();

    ghost try_from_gives = { λ value result. result ≡ ok_or (authentication_of value) tt };

    fn try_from(value: u8) -> Result<Self, ()> {
        match value {
            0 => Ok(AuthenticationAlgorithm::RakpNone),
            1 => Ok(AuthenticationAlgorithm::RakpHmacSha1),
            2 => Ok(AuthenticationAlgorithm::RakpHmacMd5),
            3 => Ok(AuthenticationAlgorithm::RakpHmacSha256),
            _ => Err(()),
        }
    }
}

impl From<AuthenticationAlgorithm> for u8 {
    ghost from_gives = { λ algorithm value. value ≡ authentication_value algorithm };

    fn from(algorithm: AuthenticationAlgorithm) -> u8 {
        match algorithm {
            AuthenticationAlgorithm::RakpNone => 0,
            AuthenticationAlgorithm::RakpHmacSha1 => 1,
            AuthenticationAlgorithm::RakpHmacMd5 => 2,
            AuthenticationAlgorithm::RakpHmacSha256 => 3,
        }
    }
}

#[derive(Clone, Copy)]
pub enum ConfidentialityAlgorithm {
    None,
    AesCbc128,
    Xrc4_128,
    Xrc4_40,
}

impl TryFrom<u8> for ConfidentialityAlgorithm {
    type Error = ();

    ghost try_from_gives = { λ value result. result ≡ ok_or (confidentiality_of value) tt };

    fn try_from(value: u8) -> Result<Self, ()> {
        match value {
            0 => Ok(ConfidentialityAlgorithm::None),
            1 => Ok(ConfidentialityAlgorithm::AesCbc128),
            2 => Ok(ConfidentialityAlgorithm::Xrc4_128),
            3 => Ok(ConfidentialityAlgorithm::Xrc4_40),
            _ => Err(()),
        }
    }
}

impl From<ConfidentialityAlgorithm> for u8 {
    ghost from_gives = { λ algorithm value. value ≡ confidentiality_value algorithm };

    fn from(algorithm: ConfidentialityAlgorithm) -> u8 {
        match algorithm {
            ConfidentialityAlgorithm::None => 0,
            ConfidentialityAlgorithm::AesCbc128 => 1,
            ConfidentialityAlgorithm::Xrc4_128 => 2,
            ConfidentialityAlgorithm::Xrc4_40 => 3,
        }
    }
}

#[derive(Clone, Copy)]
pub enum IntegrityAlgorithm {
    None,
    HmacSha1_96,
    HmacMd5_128,
    Md5_128,
    HmacSha256_128,
}

impl TryFrom<u8> for IntegrityAlgorithm {
    type Error = ();

    ghost try_from_gives = { λ value result. result ≡ ok_or (integrity_of value) tt };

    fn try_from(value: u8) -> Result<Self, ()> {
        match value {
            0 => Ok(IntegrityAlgorithm::None),
            1 => Ok(IntegrityAlgorithm::HmacSha1_96),
            2 => Ok(IntegrityAlgorithm::HmacMd5_128),
            3 => Ok(IntegrityAlgorithm::Md5_128),
            4 => Ok(IntegrityAlgorithm::HmacSha256_128),
            _ => Err(()),
        }
    }
}

impl From<IntegrityAlgorithm> for u8 {
    ghost from_gives = { λ algorithm value. value ≡ integrity_value algorithm };

    fn from(algorithm: IntegrityAlgorithm) -> u8 {
        match algorithm {
            IntegrityAlgorithm::None => 0,
            IntegrityAlgorithm::HmacSha1_96 => 1,
            IntegrityAlgorithm::HmacMd5_128 => 2,
            IntegrityAlgorithm::Md5_128 => 3,
            IntegrityAlgorithm::HmacSha256_128 => 4,
        }
    }
}
