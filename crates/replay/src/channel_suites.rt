// Suites by suite: the request read, an answer's record written, and a channel's answers joined.
use crate::calls::two;
use base::connection::{Channel, ChannelNumber};
use base::refusal::Refusal;
use by_suite::channel_collector::ChannelCollector;
use by_suite::get_channel_cipher_suites::{BySuite, ChannelSuites};
use suites::get_channel_cipher_suites::ChannelCipherSuites;

pub(crate) fn by_suite_read(request: &[u8]) -> Result<usize, Refusal> {
    let command = BySuite::read(request)?;
    Ok(two(command.channel.value(), command.list_index))
}

// A record: a numbered channel's number, the length, the sixteen bytes.
pub(crate) fn by_suite_written(a: &[u8], out: &mut [u8]) -> Result<usize, Refusal> {
    let [number, length, bytes @ ..] = a else {
        return Err(Refusal::BadLine);
    };
    let Some(bytes) = bytes.as_array::<16>() else {
        return Err(Refusal::BadLine);
    };
    let answer = ChannelSuites {
        channel: Channel::Numbered(ChannelNumber(*number)),
        suites: ChannelCipherSuites {
            data_length: *length as usize,
            record_data: *bytes,
        },
    };
    answer.write(out)
}

// A channel, then answers: the index, the length and the bytes of each. All whole ones are put to the collector: the last one's
// refusal, or the suites of all.
pub(crate) fn joined_suites(a: &[u8], out: &mut [u8]) -> Result<usize, Refusal> {
    let [channel, answers @ ..] = a else {
        return Err(Refusal::BadLine);
    };
    let mut collector = ChannelCollector::made_for(*channel)?;
    let mut verdict = Ok(());
    let mut rest = answers;
    while let [index, length, behind @ ..] = rest {
        let Some((response, next)) = behind.split_at_checked(*length as usize) else {
            break;
        };
        let answered = collector.answer(*index, response);
        collector = answered.collector;
        verdict = answered.verdict;
        rest = next;
    }
    verdict?;
    collector.suites(out)
}
