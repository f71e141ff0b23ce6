// The standard's cipher suite records, read strictly and written: document 02, C-14; IPMI 2.0, Table 22-18.
ghost use Rattle.std.specs.Prelude.{ℕ, ◌≡◌, Some, None, [], ◌∷◌, ◌++◌, suc, ◌+◌, ◌<◌, ◌≤◌, length, take, true, if◌then◌else◌};
ghost use Rattle.tagged.specs.Format.{all_fit, confidentiality_tag, fits, integrity_tag, own_start, owner_fits, standard_start};
ghost use Rattle.tagged.specs.TaggedRecords.{body_at, count_of, end_of, entries_of, entry, entry_length, listing_of, numbers_in, reach, record_at, retagged, strict_numbers_of, strict_step_at, suite_from, suite_written};
ghost use Rattle.base.specs.Choice.{◌=?◌};
ghost use Rattle.base.specs.Field.{byte};
ghost use Rattle.base.specs.Outcome.{accepted};
ghost use Rattle.tagged.specs.declared.tagged_records.TaggedRecord.{TaggedRecord};
ghost use Rattle.base.specs.Refusal.{said};
ghost use Rattle.base.specs.Written.{Writes};

use base::little;
use base::refusal::Refusal;

// Whose suite a record is: the standard's, or a vendor's own with the vendor's number.
#[derive(Clone, Copy)]
pub enum Owner {
    Standard,
    Vendor(u32),
}

// A record in a lent list. Its integrity bytes lie from `integrity` up to `confidentiality`, its confidentiality bytes from
// there up to `end`, where the next record begins.
#[derive(Clone, Copy)]
pub struct TaggedRecord {
    pub owner: Owner,
    pub number: u8,
    pub authentication: u8,
    pub integrity: usize,
    pub confidentiality: usize,
    pub end: usize,
}

// The first byte of a standard suite's record, and of a vendor's own.
const STANDARD: u8 = 0xC0;

const OWN: u8 = 0xC1;

// The bytes before the authentication byte: the first, the number, a vendor's three.
const STANDARD_START: usize = 2;

const OWN_START: usize = 5;

// A standard suite's record with one byte for each algorithm.
const PLAIN: usize = STANDARD_START + 3;

// An entry of the listing: the number, the owner, a vendor's three bytes.
const ENTRY: usize = 5;

// An algorithm byte's two top bits, and how many numbers the bits below them hold.
const AUTHENTICATION: u8 = 0;

const INTEGRITY: u8 = 1;

const CONFIDENTIALITY: u8 = 2;

const NUMBERS: u8 = 64;

// How many numbers a vendor's three bytes hold.
const VENDORS: u32 = 0x100_0000;

// Where the bytes with a tag end that begin at a place.
fn reach(list: &[u8], tag: u8, at: usize) -> usize
    requires { at ≤ length list.now }
    ensures { (result ≡ reach tag list.now at) × (result ≤ length list.now) }
{
    match list[at..].iter().position(|byte| *byte / NUMBERS != tag) {
        Some(n) => at + n,
        None => list.len(),
    }
}

// A record from its authentication byte on. The place that `BadRecord` carries is the first byte's from which on no bytes make a
// sequence of records, or the length if only the end is missing.
fn body_at(list: &[u8], owner: Owner, number: u8, at: usize) -> Result<TaggedRecord, Refusal>
    requires { at < length list.now }
    ensures { said result ≡ body_at list.now owner number at }
{
    let authentication = list[at];
    let integrity = at + 1;
    if authentication / NUMBERS != AUTHENTICATION {
        return Err(Refusal::BadRecord(at));
    }
    let confidentiality = reach(list, INTEGRITY, integrity);
    let end = reach(list, CONFIDENTIALITY, confidentiality);
    Ok(TaggedRecord {
        owner,
        number,
        authentication,
        integrity,
        confidentiality,
        end,
    })
}

// The record that begins at a position.
fn record_at(list: &[u8], position: usize) -> Result<TaggedRecord, Refusal>
    requires { position < length list.now }
    ensures { said result ≡ record_at list.now position }
{
    match &list[position..] {
        &[STANDARD, number, _, ..] => {
            body_at(list, Owner::Standard, number, position + STANDARD_START)
        }
        &[OWN, number, low, middle, high, _, ..] => {
            let vendor = little::number([low, middle, high, 0]);
            body_at(list, Owner::Vendor(vendor), number, position + OWN_START)
        }
        &[STANDARD | OWN, ..] => Err(Refusal::BadRecord(list.len())),
        _ => Err(Refusal::BadRecord(position)),
    }
}

// A step of the reading: the record at a position of the list, none at the end or past it.
pub fn step_at(list: &[u8], position: usize) -> Result<Option<TaggedRecord>, Refusal>
    ensures { said result ≡ strict_step_at list.now position }
{
    if list.len() <= position {
        return Ok(None);
    }
    Ok(Some(record_at(list, position)?))
}

// Whether the record there is such a one: what most lists have. Behind it another may begin, or the list ends.
fn is_plain(list: &[u8], at: usize) -> bool
    requires { at < length list.now }
    ensures { result ≡ true → end_of (record_at list.now at) ≡ accepted (at + 5) }
{
    let left = list.len() - at;
    if left < PLAIN {
        return false;
    }
    if list[at] != STANDARD {
        return false;
    }
    if list[at + 2] / NUMBERS != AUTHENTICATION {
        return false;
    }
    if list[at + 3] / NUMBERS != INTEGRITY {
        return false;
    }
    if list[at + 4] / NUMBERS != CONFIDENTIALITY {
        return false;
    }
    if left == PLAIN {
        return true;
    }
    STANDARD <= list[at + PLAIN]
}

// The bytes before the authentication byte, none where no record begins so.
fn start_of(first: u8) -> Option<usize>
    ensures { result ≡ (if first =? standard_start then Some 2 else if first =? own_start then Some 5 else None) }
{
    match first {
        STANDARD => Some(STANDARD_START),
        OWN => Some(OWN_START),
        _ => None,
    }
}

// The end of the record that begins at a position. No record is made; one body, so that it is compiled into the loops.
fn end_at(list: &[u8], position: usize) -> Result<usize, Refusal>
    requires { position < length list.now }
    ensures { said result ≡ end_of (record_at list.now position) }
{
    if is_plain(list, position) {
        return Ok(position + PLAIN);
    }
    let start = start_of(list[position]).ok_or(Refusal::BadRecord(position))?;
    if list.len() - position <= start {
        return Err(Refusal::BadRecord(list.len()));
    }
    let body = position + start;
    if list[body] / NUMBERS != AUTHENTICATION {
        return Err(Refusal::BadRecord(body));
    }
    let confidentiality = reach(list, INTEGRITY, body + 1);
    Ok(reach(list, CONFIDENTIALITY, confidentiality))
}

// How many records the list has. Each begins where the one before it ends.
pub fn count(list: &[u8]) -> Result<usize, Refusal>
    ensures { said result ≡ count_of list.now }
{
    let mut n: usize = 0;
    let mut at: usize = 0;
    while at < list.len() {
        at = end_at(list, at)?;
        n += 1;
    }
    Ok(n)
}

// A suite in the listing: its number, whether it is a vendor's own, and the vendor's number.
pub fn entry(suite: TaggedRecord) -> [u8; ENTRY]
    ensures { result ≡ entry suite }
{
    let TaggedRecord { owner, number, .. } = suite;
    match owner {
        Owner::Standard => [number, 0, 0, 0, 0],
        Owner::Vendor(vendor) => {
            let [low, middle, high] = little::bytes::<3>(vendor as u64);
            [number, 1, low, middle, high]
        }
    }
}

// The same of the record that begins at a place, read where it stands.
fn entry_at(list: &[u8], at: usize) -> [u8; ENTRY]
    requires { (at + 2 < length list.now) × ((byte at list.now ≡ standard_start → ⊥) → at + 5 < length list.now) }
    ensures { (r : TaggedRecord) → record_at list.now at ≡ accepted r → result ≡ entry r }
{
    if list[at] == STANDARD {
        return [list[at + 1], 0, 0, 0, 0];
    }
    [list[at + 1], 1, list[at + 2], list[at + 3], list[at + 4]]
}

// The first bytes of each record's entry, one behind the other. They are counted before one is written; a record begins where
// the one before it ends.
fn listed<const WIDTH: usize>(list: &[u8], out: &mut [u8]) -> Result<usize, Refusal>
    requires { (0 < WIDTH) × (WIDTH ≤ entry_length) }
    ensures { Writes (entries_of WIDTH list.now) result out.old out.new }
{
    let n = count(list)?;
    if out.len() / WIDTH < n {
        return Err(Refusal::NoRoom);
    }
    let mut from: usize = 0;
    let mut length: usize = 0;
    while from < list.len() {
        let end = end_at(list, from)?;
        out[length..length + WIDTH].copy_from_slice(&entry_at(list, from)[..WIDTH]);
        length += WIDTH;
        from = end;
    }
    Ok(length)
}

// The suite numbers of a sequence: of all records, in order.
pub fn suite_numbers(list: &[u8], out: &mut [u8]) -> Result<usize, Refusal>
    ensures { Writes (strict_numbers_of list.now) result out.old out.new }
{
    listed::<1>(list, out)
}

// The listing of a sequence, five bytes a record: its number, 0 for a standard suite or 1 for a vendor's own, and the
// vendor's number, low byte first.
pub fn suite_listing(list: &[u8], out: &mut [u8]) -> Result<usize, Refusal>
    ensures { Writes (listing_of list.now) result out.old out.new }
{
    listed::<ENTRY>(list, out)
}

// The numbers of algorithm bytes, or numbers, each under a tag.
fn put_tagged(bytes: &[u8], tag: u8, out: &mut [u8])
    requires { (tag ≤ 3) × (length bytes.now ≡ length out.now) }
    ensures { out.new ≡ retagged tag bytes.now }
{
    for (i, byte) in bytes.iter().enumerate() {
        out[i] = tag * NUMBERS + *byte % NUMBERS;
    }
}

// The numbers of a record's integrity or confidentiality bytes, as `write` takes them.
pub fn algorithm_numbers(bytes: &[u8], out: &mut [u8]) -> Result<usize, Refusal>
    ensures { Writes (accepted (numbers_in bytes.now)) result out.old out.new }
{
    if out.len() < bytes.len() {
        return Err(Refusal::NoRoom);
    }
    put_tagged(bytes, AUTHENTICATION, &mut out[..bytes.len()]);
    Ok(bytes.len())
}

fn all_fit(numbers: &[u8]) -> bool
    ensures { result ≡ all_fit numbers.now }
{
    numbers.iter().all(|number| *number < NUMBERS)
}

fn owner_fits(owner: Owner) -> bool
    ensures { result ≡ owner_fits owner }
{
    match owner {
        Owner::Standard => true,
        Owner::Vendor(vendor) => vendor < VENDORS,
    }
}

// Whether the format has room for a record's numbers, whatever its own.
fn fits(owner: Owner, authentication: u8, integrity: &[u8], confidentiality: &[u8]) -> bool
    ensures { (n : ℕ) → result ≡ fits (suite_from owner n authentication integrity.now confidentiality.now) }
{
    owner_fits(owner) && authentication < NUMBERS && all_fit(integrity) && all_fit(confidentiality)
}

// The parts of a record one behind the other.
fn write_parts(
    head: &[u8],
    integrity: &[u8],
    confidentiality: &[u8],
    out: &mut [u8],
) -> Result<usize, Refusal>
    ensures { Writes (accepted (head.now ++ (retagged integrity_tag integrity.now ++ retagged confidentiality_tag confidentiality.now))) result out.old out.new }
{
    if out.len() < head.len() {
        return Err(Refusal::NoRoom);
    }
    if out.len() - head.len() < integrity.len() {
        return Err(Refusal::NoRoom);
    }
    let at = head.len() + integrity.len();
    if out.len() - at < confidentiality.len() {
        return Err(Refusal::NoRoom);
    }
    let end = at + confidentiality.len();
    out[..head.len()].copy_from_slice(head);
    put_tagged(integrity, INTEGRITY, &mut out[head.len()..at]);
    put_tagged(confidentiality, CONFIDENTIALITY, &mut out[at..end]);
    Ok(end)
}

// A record's bytes, its integrity and confidentiality given as numbers.
pub fn write(
    owner: Owner,
    number: u8,
    authentication: u8,
    integrity: &[u8],
    confidentiality: &[u8],
    out: &mut [u8],
) -> Result<usize, Refusal>
    ensures { Writes (suite_written (suite_from owner number authentication integrity.now confidentiality.now)) result out.old out.new }
{
    if !fits(owner, authentication, integrity, confidentiality) {
        return Err(Refusal::NoForm);
    }
    match owner {
        Owner::Standard => write_parts(
            &[STANDARD, number, authentication],
            integrity,
            confidentiality,
            out,
        ),
        Owner::Vendor(vendor) => {
            let [low, middle, high] = little::bytes::<3>(vendor as u64);
            write_parts(
                &[OWN, number, low, middle, high, authentication],
                integrity,
                confidentiality,
                out,
            )
        }
    }
}
