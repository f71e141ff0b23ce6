// The authentication types by their strength.
ghost use Rattle.std.specs.Prelude.{◌≡◌};
ghost use Rattle.auth.specs.Auth.{auth_type_value, best_of};
ghost use Rattle.base.specs.Outcome.{accepted};
ghost use Rattle.capi.specs.Number.{code, or_none};
ghost use Rattle.capi.specs.Numbered.{compared, order_number};
ghost use Rattle.layouts.specs.Layouts.{is_set};

// Each argument: 0 where the type is not offered.
#[unsafe(no_mangle)]
pub extern "C" fn ghj_best_auth(key: u8, md5: u8, md2: u8, none: u8) -> u64
    ensures { result ≡ code (or_none auth_type_value (accepted (best_of (is_set key) (is_set md5) (is_set md2) (is_set none)))) }
{
    capi::strength::ghj_best_auth(key, md5, md2, none)
}

// None where either number names no type.
#[unsafe(no_mangle)]
pub extern "C" fn ghj_compare_strength(auth_type: u8, other: u8) -> u64
    ensures { result ≡ code (or_none order_number (compared auth_type other)) }
{
    capi::strength::ghj_compare_strength(auth_type, other)
}
