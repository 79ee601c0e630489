// Reading: the text of a shop, line by line (docs/RULES.md, section 12). `read_shop` reads it all.
// Numbers and messages that do not fit into a lent list are read and counted, and not kept: no shop with so many is run.
// Uses messages and phases for what a text gives, and numbers, which reads each number; only its proofs cite refusals.
#![tactic(auto)]

ghost use Rattle.std.specs.Prelude.{◌≡◌, false, [], ◌∷◌, ◌++◌, set, MatchOption};
ghost use Rattle.reading.specs.ShopText.{lines_of, shop_lines};
ghost use Rattle.reading.specs.Work.{LineRead, numbers_line, shop_line, message_line, ShopRead};

use messages::Message;
use phases::{Shape, Shop};

const SPACE: u8 = b' ';

const LINE_FEED: u8 = b'\n';

const TEXT_MAX: usize = 65536;

// What the whole text gives: a shop, and how many owners and messages.
#[derive(Clone, Copy)]
pub struct Given {
    pub shop: Shop,
    pub owners: usize,
    pub messages: usize,
}

// Sets a place of a list, if the list has it.
fn put<T: Copy>(list: &mut [T], i: usize, value: T)
    ensures { list.new ≡ set list.old i value }
{
    if i < list.len() {
        list[i] = value;
    }
}

// The numbers of a line, into the fields as far as they fit; how many there are, if it is a line of numbers.
fn read_line(line: &[u8], fields: &mut [u32]) -> Option<usize>
    ensures { LineRead line.now fields.old result fields.new }
{
    let mut count = 0;
    for part in line.split(|&byte| byte == SPACE) {
        put(fields, count, numbers::read_number(part)?);
        count += 1;
    }
    Some(count)
}

// A line of just so many numbers.
fn numbers_in<const N: usize>(line: &[u8]) -> Option<[u32; N]>
    ensures { result ≡ numbers_line N line.now }
{
    let mut numbers = [0; N];
    let count = read_line(line, &mut numbers)?;
    (count == N).then_some(numbers)
}

// z c α g mT F mS q
fn shop_in(line: &[u8]) -> Option<Shop>
    ensures { result ≡ shop_line line.now }
{
    let [
        stations,
        width,
        offset,
        compression,
        time_branches,
        time_leaves,
        index_branches,
        index_leaves,
    ] = numbers_in::<8>(line)?;
    Some(Shop {
        stations,
        width,
        offset,
        compression,
        time: Shape {
            branches: time_branches,
            leaves: time_leaves,
        },
        index: Shape {
            branches: index_branches,
            leaves: index_leaves,
        },
    })
}

// station arrival d length
fn message_in(line: &[u8]) -> Option<Message>
    ensures { result ≡ message_line line.now }
{
    let [station, arrival, relative, length] = numbers_in::<4>(line)?;
    Some(Message {
        station,
        arrival,
        relative,
        length,
        sent: 0,
    })
}

// A text's lines: what is in front of its last byte, which has to be a line feed.
#[tactic(auto, using(crate::proofs::ShopLaws::ended_cases))]
fn ended_lines(input: &[u8]) -> Option<&[u8]>
    ensures { MatchOption result (shop_lines (lines_of input.now) ≡ false)
        (λ lines. input.now ≡ lines.now ++ LINE_FEED ∷ []) }
{
    input.strip_suffix(&[LINE_FEED])
}

// The whole text: the shop's line, the owners' line, then a line for each message.
pub fn read_shop(input: &[u8], owners: &mut [u32], messages: &mut [Message]) -> Option<Given>
    ensures { ShopRead input.now owners.old messages.old result owners.new messages.new }
{
    if input.len() > TEXT_MAX {
        return None;
    }
    let mut lines = ended_lines(input)?.split(|&byte| byte == LINE_FEED);
    let shop = shop_in(lines.next()?)?;
    let owner_count = read_line(lines.next()?, owners)?;
    let mut count = 0;
    for line in lines {
        put(messages, count, message_in(line)?);
        count += 1;
    }
    Some(Given {
        shop,
        owners: owner_count,
        messages: count,
    })
}
