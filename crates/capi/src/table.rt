// The table of suites.
ghost use Rattle.std.specs.Prelude.{◌≡◌};
ghost use Rattle.base.specs.Outcome.{accepted};
ghost use Rattle.capi.specs.Number.{CodesAny, code, or_none};
ghost use Rattle.capi.specs.Table.{algorithms_of, suite_number};
ghost use Rattle.suites.specs.GetChannelCipherSuites.{row, suite_for};

use crate::number::{NONE, code};
use base::written::place;
use suites::get_channel_cipher_suites::{CipherSuite, Row};

// The numbers of the suite's authentication, integrity and confidentiality.
pub fn ghj_suite_algorithms(suite: u8, out: &mut [u8]) -> u64
    ensures { CodesAny (accepted (algorithms_of suite)) result out.old out.new }
{
    let Some(row) = CipherSuite(suite).into_suite() else {
        return NONE;
    };
    code(place(
        &[row.authentication, row.integrity, row.confidentiality],
        out,
    ))
}

pub(crate) fn suite_number(answer: Option<CipherSuite>) -> u64
    ensures { result ≡ code (or_none suite_number (accepted answer)) }
{
    match answer {
        Some(suite) => suite.id() as u64,
        None => NONE,
    }
}

pub fn ghj_suite_of(authentication: u8, integrity: u8, confidentiality: u8) -> u64
    ensures { result ≡ code (or_none suite_number (accepted (suite_for (row authentication integrity confidentiality)))) }
{
    suite_number(CipherSuite::from_suite(Row {
        authentication,
        integrity,
        confidentiality,
    }))
}
