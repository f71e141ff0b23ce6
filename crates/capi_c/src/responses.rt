// The readers of responses: each writes the record's fields at the start of out.
ghost use Rattle.capi.specs.Number.{Codes};
ghost use Rattle.capi.specs.Records.{access_record, activation_record, by_suite_record, capabilities_record, challenge_record, info_record, suites_record};

// Temporary session number, four bytes, low first; the challenge, sixteen.
#[unsafe(no_mangle)]
pub extern "C" fn ghj_challenge(response: &[u8], out: &mut [u8]) -> u64
    ensures { Codes (challenge_record response.now) result out.old out.new }
{
    capi::responses::ghj_challenge(response, out)
}

// Authentication type; session number and initial sequence number, four bytes each, low first; privilege level.
#[unsafe(no_mangle)]
pub extern "C" fn ghj_activation(response: &[u8], out: &mut [u8]) -> u64
    ensures { Codes (activation_record response.now) result out.old out.new }
{
    capi::responses::ghj_activation(response, out)
}

// The part of the list that the answer has: an accepted answer's own bytes.
#[unsafe(no_mangle)]
pub extern "C" fn ghj_suites(response: &[u8], out: &mut [u8]) -> u64
    ensures { Codes (suites_record response.now) result out.old out.new }
{
    capi::responses::ghj_suites(response, out)
}

// An answer by suite: its channel's number, then the part of the list.
#[unsafe(no_mangle)]
pub extern "C" fn ghj_by_suite(response: &[u8], out: &mut [u8]) -> u64
    ensures { Codes (by_suite_record response.now) result out.old out.new }
{
    capi::responses::ghj_by_suite(response, out)
}

#[unsafe(no_mangle)]
pub extern "C" fn ghj_access(response: &[u8], out: &mut [u8]) -> u64
    ensures { Codes (access_record response.now) result out.old out.new }
{
    capi::responses::ghj_access(response, out)
}

#[unsafe(no_mangle)]
pub extern "C" fn ghj_info(response: &[u8], out: &mut [u8]) -> u64
    ensures { Codes (info_record response.now) result out.old out.new }
{
    capi::responses::ghj_info(response, out)
}

#[unsafe(no_mangle)]
pub extern "C" fn ghj_capabilities(response: &[u8], out: &mut [u8]) -> u64
    ensures { Codes (capabilities_record response.now) result out.old out.new }
{
    capi::responses::ghj_capabilities(response, out)
}
