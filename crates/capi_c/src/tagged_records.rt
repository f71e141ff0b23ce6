// Cipher suite records with their tags: a step of the reading, the count, the two lists, the algorithms' numbers, and a record written.
ghost use Rattle.std.specs.Prelude.{◌≡◌};
ghost use Rattle.base.specs.Outcome.{accepted};
ghost use Rattle.capi.specs.Number.{Codes, code};
ghost use Rattle.capi.specs.TaggedRecords.{record_written, step_record};
ghost use Rattle.tagged.specs.TaggedRecords.{count_of, listing_of, numbers_in, strict_numbers_of};

// The record at a position; at the end nothing is written, and the number is 0. The reading goes on from where the record ends.
#[unsafe(no_mangle)]
pub extern "C" fn ghj_tagged_step(list: &[u8], position: usize, out: &mut [u8]) -> u64
    ensures { Codes (step_record list.now position) result out.old out.new }
{
    capi::tagged_records::ghj_tagged_step(list, position, out)
}

#[unsafe(no_mangle)]
pub extern "C" fn ghj_tagged_count(list: &[u8]) -> u64
    ensures { result ≡ code (count_of list.now) }
{
    capi::tagged_records::ghj_tagged_count(list)
}

// The records' numbers, in their order.
#[unsafe(no_mangle)]
pub extern "C" fn ghj_tagged_numbers(list: &[u8], out: &mut [u8]) -> u64
    ensures { Codes (strict_numbers_of list.now) result out.old out.new }
{
    capi::tagged_records::ghj_tagged_numbers(list, out)
}

// Five bytes a record: as the first five of `ghj_tagged_step`.
#[unsafe(no_mangle)]
pub extern "C" fn ghj_tagged_listing(list: &[u8], out: &mut [u8]) -> u64
    ensures { Codes (listing_of list.now) result out.old out.new }
{
    capi::tagged_records::ghj_tagged_listing(list, out)
}

// The numbers of a record's integrity or confidentiality bytes, as `ghj_tagged_write` takes them.
#[unsafe(no_mangle)]
pub extern "C" fn ghj_tagged_algorithms(bytes: &[u8], out: &mut [u8]) -> u64
    ensures { Codes (accepted (numbers_in bytes.now)) result out.old out.new }
{
    capi::tagged_records::ghj_tagged_algorithms(bytes, out)
}

// Owner 0 is the standard's, with vendor 0; 1 is a vendor's own.
#[unsafe(no_mangle)]
pub extern "C" fn ghj_tagged_write(
    owner: u8,
    vendor: u32,
    number: u8,
    authentication: u8,
    integrity: &[u8],
    confidentiality: &[u8],
    out: &mut [u8],
) -> u64
    ensures { Codes (record_written owner vendor number authentication integrity.now confidentiality.now) result out.old out.new }
{
    capi::tagged_records::ghj_tagged_write(
        owner,
        vendor,
        number,
        authentication,
        integrity,
        confidentiality,
        out,
    )
}
