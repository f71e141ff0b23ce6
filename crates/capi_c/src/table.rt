// The table of suites.
ghost use Rattle.std.specs.Prelude.{◌≡◌};
ghost use Rattle.base.specs.Outcome.{accepted};
ghost use Rattle.capi.specs.Number.{CodesAny, code, or_none};
ghost use Rattle.capi.specs.Table.{algorithms_of, suite_number};
ghost use Rattle.suites.specs.GetChannelCipherSuites.{row, suite_for};

// The numbers of the suite's authentication, integrity and confidentiality.
#[unsafe(no_mangle)]
pub extern "C" fn ghj_suite_algorithms(suite: u8, out: &mut [u8]) -> u64
    ensures { CodesAny (accepted (algorithms_of suite)) result out.old out.new }
{
    capi::table::ghj_suite_algorithms(suite, out)
}

#[unsafe(no_mangle)]
pub extern "C" fn ghj_suite_of(authentication: u8, integrity: u8, confidentiality: u8) -> u64
    ensures { result ≡ code (or_none suite_number (accepted (suite_for (row authentication integrity confidentiality)))) }
{
    capi::table::ghj_suite_of(authentication, integrity, confidentiality)
}
