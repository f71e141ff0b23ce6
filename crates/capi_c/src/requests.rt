// The data of each request, at the start of out. Arguments are looked at in their order, then the room.
ghost use Rattle.capi.specs.Number.{Codes, CodesAny};
ghost use Rattle.capi.specs.Numbered.{activation_request, capabilities_request, challenge_request};
ghost use Rattle.capi.specs.Requests.{access_request, by_suite_request, info_request, suites_request};

// 1 asks for the non-volatile settings, 2 for the volatile ones.
#[unsafe(no_mangle)]
pub extern "C" fn ghj_access_request(channel: u8, kind: u8, out: &mut [u8]) -> u64
    ensures { Codes (access_request channel kind) result out.old out.new }
{
    capi::requests::ghj_access_request(channel, kind, out)
}

#[unsafe(no_mangle)]
pub extern "C" fn ghj_info_request(channel: u8, out: &mut [u8]) -> u64
    ensures { Codes (info_request channel) result out.old out.new }
{
    capi::requests::ghj_info_request(channel, out)
}

#[unsafe(no_mangle)]
pub extern "C" fn ghj_capabilities_request(channel: u8, privilege: u8, out: &mut [u8]) -> u64
    ensures { CodesAny (capabilities_request channel privilege) result out.old out.new }
{
    capi::requests::ghj_capabilities_request(channel, privilege, out)
}

#[unsafe(no_mangle)]
pub extern "C" fn ghj_challenge_request(auth_type: u8, name: &[u8], out: &mut [u8]) -> u64
    ensures { CodesAny (challenge_request auth_type name.now) result out.old out.new }
{
    capi::requests::ghj_challenge_request(auth_type, name, out)
}

#[unsafe(no_mangle)]
pub extern "C" fn ghj_activation_request(
    auth_type: u8,
    privilege: u8,
    challenge: &[u8; 16],
    sequence: u32,
    out: &mut [u8],
) -> u64
    ensures { CodesAny (activation_request auth_type privilege challenge.now sequence) result out.old out.new }
{
    capi::requests::ghj_activation_request(auth_type, privilege, challenge, sequence, out)
}

#[unsafe(no_mangle)]
pub extern "C" fn ghj_suites_request(channel: u8, index: u8, out: &mut [u8]) -> u64
    ensures { Codes (suites_request channel index) result out.old out.new }
{
    capi::requests::ghj_suites_request(channel, index, out)
}

// The same by suite.
#[unsafe(no_mangle)]
pub extern "C" fn ghj_by_suite_request(channel: u8, index: u8, out: &mut [u8]) -> u64
    ensures { Codes (by_suite_request channel index) result out.old out.new }
{
    capi::requests::ghj_by_suite_request(channel, index, out)
}
