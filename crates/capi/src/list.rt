// The reading of a list as the Rust has it: whole, and one step at a time.
ghost use Rattle.base.specs.Outcome.{accepted};
ghost use Rattle.capi.specs.Number.{Codes};
ghost use Rattle.capi.specs.Table.{Steps};
ghost use Rattle.layouts.specs.Layouts.{is_set};
ghost use Rattle.suites.specs.GetChannelCipherSuites.{numbers_of, step_at};

use crate::number::code;
use crate::table::suite_number;
use suites::get_channel_cipher_suites::{step_at, suite_numbers};

pub fn ghj_suite_numbers(list: &[u8], out: &mut [u8]) -> u64
    ensures { Codes (accepted (numbers_of list.now)) result out.old out.new }
{
    code(suite_numbers(list, out))
}

// The step's suite; the reading goes on from what it leaves in position and failed.
pub fn ghj_suite_step(list: &[u8], position: &mut usize, failed: &mut u8) -> u64
    ensures { Steps (step_at list.now position.old (is_set failed.old)) result position.new failed.new }
{
    let step = step_at(list, *position, *failed != 0);
    *position = step.position;
    *failed = step.failed as u8;
    suite_number(step.answer)
}
