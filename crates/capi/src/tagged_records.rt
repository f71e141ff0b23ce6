// Cipher suite records with their tags: a step of the reading, the count, the two lists, the algorithms' numbers, and a record written.
ghost use Rattle.std.specs.Prelude.{◌≡◌};
ghost use Rattle.base.specs.Outcome.{accepted};
ghost use Rattle.base.specs.Refusal.{said};
ghost use Rattle.capi.specs.Number.{Codes, code};
ghost use Rattle.capi.specs.TaggedRecords.{owner_for, record_bytes, record_written, step_record};
ghost use Rattle.tagged.specs.TaggedRecords.{count_of, listing_of, numbers_in, strict_numbers_of};

use crate::number::{code, refused};
use base::little::bytes;
use base::refusal::Refusal;
use base::written::place;
use tagged::tagged_records::{
    Owner, TaggedRecord, algorithm_numbers, count, entry, step_at, suite_listing, suite_numbers,
    write,
};

// A record that was read: the number; 0, or 1 for a vendor's own; the vendor's number, three bytes; the authentication; two
// zeros; the places where the integrity and the confidentiality bytes begin and where the record ends, eight bytes each. Low
// byte first.
fn record_bytes(suite: TaggedRecord) -> [u8; 32]
    ensures { result ≡ record_bytes suite }
{
    let mut record = [0; 32];
    record[..5].copy_from_slice(&entry(suite));
    record[5] = suite.authentication;
    record[8..16].copy_from_slice(&bytes::<8>(suite.integrity as u64));
    record[16..24].copy_from_slice(&bytes::<8>(suite.confidentiality as u64));
    record[24..].copy_from_slice(&bytes::<8>(suite.end as u64));
    record
}

// The record at a position; at the end nothing is written, and the number is 0. The reading goes on from where the record ends.
pub fn ghj_tagged_step(list: &[u8], position: usize, out: &mut [u8]) -> u64
    ensures { Codes (step_record list.now position) result out.old out.new }
{
    match step_at(list, position) {
        Ok(Some(record)) => code(place(&record_bytes(record), out)),
        Ok(None) => 0,
        Err(refusal) => refused(refusal),
    }
}

pub fn ghj_tagged_count(list: &[u8]) -> u64
    ensures { result ≡ code (count_of list.now) }
{
    code(count(list))
}

// The records' numbers, in their order.
pub fn ghj_tagged_numbers(list: &[u8], out: &mut [u8]) -> u64
    ensures { Codes (strict_numbers_of list.now) result out.old out.new }
{
    code(suite_numbers(list, out))
}

// Five bytes a record: as the first five of `ghj_tagged_step`.
pub fn ghj_tagged_listing(list: &[u8], out: &mut [u8]) -> u64
    ensures { Codes (listing_of list.now) result out.old out.new }
{
    code(suite_listing(list, out))
}

// The numbers of a record's integrity or confidentiality bytes, as `ghj_tagged_write` takes them.
pub fn ghj_tagged_algorithms(bytes: &[u8], out: &mut [u8]) -> u64
    ensures { Codes (accepted (numbers_in bytes.now)) result out.old out.new }
{
    code(algorithm_numbers(bytes, out))
}

// 0 is the standard's, which has no vendor number; 1 a vendor's own.
fn owner_for(kind: u8, vendor: u32) -> Result<Owner, Refusal>
    ensures { said result ≡ owner_for kind vendor }
{
    match (kind, vendor) {
        (0, 0) => Ok(Owner::Standard),
        (1, _) => Ok(Owner::Vendor(vendor)),
        _ => Err(Refusal::NoForm),
    }
}

// Owner 0 is the standard's, with vendor 0; 1 is a vendor's own.
pub fn ghj_tagged_write(
    owner: u8,
    vendor: u32,
    number: u8,
    authentication: u8,
    integrity: &[u8],
    confidentiality: &[u8],
    out: &mut [u8],
) -> u64
    ensures { Codes (record_written owner vendor number authentication integrity.now confidentiality.now) result out.old out.new }
{
    match owner_for(owner, vendor) {
        Ok(owner) => code(write(
            owner,
            number,
            authentication,
            integrity,
            confidentiality,
            out,
        )),
        Err(refusal) => refused(refusal),
    }
}
