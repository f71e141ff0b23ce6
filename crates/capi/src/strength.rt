// The authentication types by their strength.
ghost use Rattle.std.specs.Prelude.{◌≡◌};
ghost use Rattle.auth.specs.Auth.{auth_type_value, best_of};
ghost use Rattle.base.specs.Outcome.{accepted};
ghost use Rattle.capi.specs.Number.{code, or_none};
ghost use Rattle.capi.specs.Numbered.{compared, order_number};
ghost use Rattle.layouts.specs.Layouts.{is_set};

use crate::number::NONE;
use auth::AuthType;
use std::cmp::Ordering;

// Each argument: 0 where the type is not offered.
pub fn ghj_best_auth(key: u8, md5: u8, md2: u8, none: u8) -> u64
    ensures { result ≡ code (or_none auth_type_value (accepted (best_of (is_set key) (is_set md5) (is_set md2) (is_set none)))) }
{
    match AuthType::best_of(key != 0, md5 != 0, md2 != 0, none != 0) {
        Some(kind) => u8::from(kind) as u64,
        None => NONE,
    }
}

fn order_number(order: Ordering) -> u64
    ensures { result ≡ order_number order }
{
    match order {
        Ordering::Less => 0,
        Ordering::Equal => 1,
        Ordering::Greater => 2,
    }
}

// None where either number names no type.
pub fn ghj_compare_strength(auth_type: u8, other: u8) -> u64
    ensures { result ≡ code (or_none order_number (compared auth_type other)) }
{
    let Some(kind) = AuthType::numbered(auth_type) else {
        return NONE;
    };
    let Some(second) = AuthType::numbered(other) else {
        return NONE;
    };
    order_number(kind.compare_strength(second))
}
