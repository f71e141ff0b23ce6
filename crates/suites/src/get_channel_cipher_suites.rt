// Get Channel Cipher Suites, App 54h: IPMI 2.0, Table 22-17; the Rust's get_channel_cipher_suites.rs.
ghost use Rattle.std.specs.Prelude.{◌-◌, ◌≡◌, length, take, false};
ghost use Rattle.std.specs.Iterator.{at_most};
ghost use Rattle.suites.specs.GetChannelCipherSuites.{Typed, authentication_of, command_bytes, command_for, command_of, command_on, confidentiality_of, integrity_of, moved, nothing, numbers_of, part_of, row_of, step_at, step_number, step_of, suite_for, suite_of, suites_bytes};
ghost use Rattle.base.specs.Outcome.{accepted};
ghost use Rattle.base.specs.Part.{Part};
ghost use Rattle.base.specs.Refusal.{said};
ghost use Rattle.base.specs.Written.{Writes};

use auth::algorithms::{AuthenticationAlgorithm, ConfidentialityAlgorithm, IntegrityAlgorithm};
use base::connection::Channel;
use base::field::within;
use base::refusal::Refusal;
use base::written::place;
use collector::Collector;

// Refused 6 or 7 where it is made, 10 where it is read. BIT is what stands above the index in the request's last byte: bit 7.
#[derive(Drop)]
pub struct ListCommand<const BIT: u8> {
    pub channel: Channel,
    pub list_index: u8,
}

// The Rust's: bit 7 stays clear. `by_suite` has the command whose bit 7 is set.
pub type GetChannelCipherSuites = ListCommand<0>;

impl<const BIT: u8> ListCommand<BIT> {
    pub const COMMAND: u8 = 0x54;

    pub fn new(channel: Channel, list_index: u8) -> Result<Self, Refusal>
        ensures { said result ≡ command_on BIT channel list_index }
    {
        if Collector::LAST_INDEX < list_index {
            return Err(Refusal::BadIndex);
        }
        Ok(ListCommand {
            channel,
            list_index,
        })
    }

    // For a channel that is given as a number.
    pub fn numbered(number: u8, list_index: u8) -> Result<Self, Refusal>
        ensures { said result ≡ command_for BIT number list_index }
    {
        Self::new(Channel::new(number)?, list_index)
    }

    // The request's data.
    pub fn write(self, out: &mut [u8]) -> Result<usize, Refusal>
        ensures { Writes (command_bytes BIT self.entry) result out.old out.new }
    {
        let number = self.channel.field()?;
        let index = within(self.list_index, 0, Collector::LAST_INDEX)?;
        place(&[number, 0, BIT | index], out)
    }

    // The command whose request this is: takes only what some command writes.
    pub fn read(request: &[u8]) -> Result<Self, Refusal>
        ensures { said result ≡ command_of BIT request.now }
    {
        if request.len() != 3 {
            return Err(Refusal::NotARequest);
        }
        let Ok(channel) = Channel::new(request[0]) else {
            return Err(Refusal::NotARequest);
        };
        if request[1] != 0 {
            return Err(Refusal::NotARequest);
        }
        let index = BIT ^ request[2];
        if Collector::LAST_INDEX < index {
            return Err(Refusal::NotARequest);
        }
        Ok(ListCommand {
            channel,
            list_index: index,
        })
    }
}

// A part of the list: `data_length` bytes, and zeros behind them. The Rust's record, which needs no heap.
#[derive(Drop)]
pub struct ChannelCipherSuites {
    pub data_length: usize,
    pub record_data: [u8; Collector::PART],
}

// The filled part of the lent bytes: as many as the length says, all if fewer. The Rust's Deref.
pub fn filled(bytes: &[u8], data_length: usize) -> &[u8]
    ensures { Part bytes.entry result (take data_length bytes.now) }
{
    if bytes.len() < data_length {
        return bytes;
    }
    &bytes[0..data_length]
}

impl ChannelCipherSuites {
    // What the machine gives of every part; the laws ask for it.
    fn typed(self)
        ensures { Typed self }
    {}

    pub fn parse(response: &[u8]) -> Result<Self, Refusal>
        ensures { said result ≡ part_of response.now }
    {
        let data_length = response.len();
        if Collector::PART < data_length {
            return Err(Refusal::TooMuchData);
        }
        let mut record_data = [0; Collector::PART];
        record_data[..data_length].copy_from_slice(response);
        Ok(ChannelCipherSuites {
            data_length,
            record_data,
        })
    }

    // The response's data.
    pub fn write(self, out: &mut [u8]) -> Result<usize, Refusal>
        ensures { Writes (suites_bytes self) result out.old out.new }
    {
        if Collector::PART < self.data_length {
            return Err(Refusal::NoForm);
        }
        let (part, rest) = self.record_data.split_at(self.data_length);
        if !rest.iter().all(|byte| *byte == 0) {
            return Err(Refusal::NoForm);
        }
        place(part, out)
    }
}

// The numbers of a suite's three algorithms: a row of the table.
#[derive(Clone, Copy, PartialEq)]
pub struct Row {
    pub authentication: u8,
    pub integrity: u8,
    pub confidentiality: u8,
}

macro_rules! row {
    ($authentication:literal, $integrity:literal, $confidentiality:literal) => {
        Row {
            authentication: $authentication,
            integrity: $integrity,
            confidentiality: $confidentiality,
        }
    };
}

// The suites from 0 up.
const SUITES: [Row; 20] = [
    row!(0, 0, 0),
    row!(1, 0, 0),
    row!(1, 1, 0),
    row!(1, 1, 1),
    row!(1, 1, 2),
    row!(1, 1, 3),
    row!(2, 0, 0),
    row!(2, 2, 0),
    row!(2, 2, 1),
    row!(2, 2, 2),
    row!(2, 2, 3),
    row!(2, 3, 0),
    row!(2, 3, 1),
    row!(2, 3, 2),
    row!(2, 3, 3),
    row!(3, 0, 0),
    row!(3, 4, 0),
    row!(3, 4, 1),
    row!(3, 4, 2),
    row!(3, 4, 3),
];

// How many there are.
const COUNT: u8 = SUITES.len() as u8;

// A suite, by its number.
#[derive(Clone, Copy)]
pub struct CipherSuite(pub u8);

impl CipherSuite {
    pub fn id(self) -> u8
        ensures { result ≡ self.0 }
    {
        self.0
    }

    pub fn from_id(value: u8) -> Option<CipherSuite>
        ensures { result ≡ suite_of value }
    {
        if value < COUNT {
            return Some(CipherSuite(value));
        }
        None
    }

    pub fn from_suite(suite: Row) -> Option<CipherSuite>
        ensures { result ≡ suite_for suite }
    {
        // The table is made anew at each use of its name.
        let suites = SUITES;
        for (i, row) in suites.iter().enumerate() {
            if *row == suite {
                return Some(CipherSuite(i as u8));
            }
        }
        None
    }

    pub fn into_suite(self) -> Option<Row>
        ensures { result ≡ row_of self.0 }
    {
        let number = self.0;
        if number < COUNT {
            return Some(SUITES[number as usize]);
        }
        None
    }

    pub fn authentication(self) -> Option<AuthenticationAlgorithm>
        ensures { result ≡ authentication_of self.0 }
    {
        AuthenticationAlgorithm::try_from(self.into_suite()?.authentication).ok()
    }

    pub fn integrity(self) -> Option<IntegrityAlgorithm>
        ensures { result ≡ integrity_of self.0 }
    {
        IntegrityAlgorithm::try_from(self.into_suite()?.integrity).ok()
    }

    // The third column; the Rust reads the second.
    pub fn confidentiality(self) -> Option<ConfidentialityAlgorithm>
        ensures { result ≡ confidentiality_of self.0 }
    {
        ConfidentialityAlgorithm::try_from(self.into_suite()?.confidentiality).ok()
    }
}

// The first byte of a standard suite's record.
const RECORD_START: u8 = 0xC0;

// The bytes behind a record's number, one for each algorithm.
const ALGORITHMS: usize = 3;

// A whole record: its first byte, its number, its algorithms.
const RECORD: usize = 2 + ALGORITHMS;

// What a step of the reading gives, and where and how it leaves the reading: C holds the place and the flag between two steps.
#[derive(Drop)]
pub struct Step {
    pub answer: Option<CipherSuite>,
    pub position: usize,
    pub failed: bool,
}

fn nothing(position: usize, failed: bool) -> Step
    ensures { result ≡ nothing position failed }
{
    Step {
        answer: None,
        position,
        failed,
    }
}

// A step behind a record's first byte.
fn step_number(list: &[u8], at: usize) -> Step
    ensures { result ≡ step_number list.now at }
{
    if list.len() <= at {
        return nothing(at, false);
    }
    let Some(suite) = CipherSuite::from_id(list[at]) else {
        return nothing(at + 1, false);
    };
    if list.len() - at <= ALGORITHMS {
        return nothing(list.len(), false);
    }
    Step {
        answer: Some(suite),
        position: at + ALGORITHMS + 1,
        failed: false,
    }
}

// One step of the reading of a list from a position on. After a failure it takes and gives nothing.
pub fn step_at(list: &[u8], position: usize, failed: bool) -> Step
    ensures { result ≡ step_at list.now position failed }
{
    if failed {
        return nothing(position, failed);
    }
    if list.len() <= position {
        return nothing(position, failed);
    }
    if list[position] != RECORD_START {
        return nothing(position + 1, true);
    }
    step_number(list, position + 1)
}

// How many suites the list has. By places, as they are copied below: `Iter` gives suites, and not where they stand.
fn count(list: &[u8]) -> usize
    ensures { result ≡ length (numbers_of list.now) }
{
    let mut n: usize = 0;
    let mut at: usize = 0;
    while step_at(list, at, false).answer.is_some() {
        n += 1;
        at += RECORD;
    }
    n
}

// The numbers of the list's suites, a byte each, up to the first step that gives nothing.
pub fn suite_numbers(list: &[u8], out: &mut [u8]) -> Result<usize, Refusal>
    ensures { Writes (accepted (numbers_of list.now)) result out.old out.new }
{
    let n = count(list);
    if out.len() < n {
        return Err(Refusal::NoRoom);
    }
    for i in 0..n {
        out[i] = list[RECORD * i + 1];
    }
    Ok(n)
}

// The Rust's iterator: it holds the lent list, and steps as it does.
#[derive(Drop)]
pub struct Iter<'a> {
    pub list: &'a [u8],
    pub position: usize,
    pub failed: bool,
}

impl<'a> Iter<'a> {
    pub fn parse_full_data(list: &'a [u8]) -> Iter<'a>
        ensures { (result.list ≡ list.entry) × ((result.position ≡ 0) × (result.failed ≡ false)) }
    {
        Iter {
            list,
            position: 0,
            failed: false,
        }
    }
}

impl<'a> Iterator for Iter<'a> {
    type Item = CipherSuite;

    ghost next_gives = { λ before result after. (result ≡ (step_of before).answer) × (after ≡ moved before (step_of before)) };

    ghost remaining = { λ reader. at_most (length reader.list.now - reader.position) };

    fn next(&mut self) -> Option<CipherSuite> {
        let step = step_at(self.list, self.position, self.failed);
        self.position = step.position;
        self.failed = step.failed;
        step.answer
    }
}
