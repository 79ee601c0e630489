// Records: a list of messages that is lent field by field, copied into a lent table of records, and its slots of sending
// copied back; and a lent list of records, copied into a table of 512 and back (docs/RULES.md, section 8).
// Uses messages.
#![tactic(auto)]

ghost use Rattle.std.specs.Prelude.{◌≡◌, map, slice_index, replicate};
ghost use Rattle.messages.specs.Message.{blank};
ghost use Rattle.messages.specs.Lists.{listed};
ghost use Rattle.records.specs.Table.{laid_over};

use messages::{BLANK, Message};

// The lent records, as far as there is room, in a table that is zero behind them.
pub fn load(list: &[Message]) -> [Message; 512]
    ensures { result ≡ laid_over (replicate 512 blank) list.now }
{
    let mut table = [BLANK; 512];
    let count = list.len().min(512);
    table[..count].copy_from_slice(&list[..count]);
    table
}

// The table's records in the places of the lent list; a list that is longer keeps its own behind them.
pub fn store(list: &mut [Message], table: [Message; 512])
    ensures { list.new ≡ laid_over list.old table }
{
    let count = list.len().min(512);
    for (i, place) in list[..count].iter_mut().enumerate() {
        *place = table[i];
    }
}

// The number at place i; 0 where the field has none.
fn number_at(field: &[u32], i: usize) -> u32
    ensures { result ≡ slice_index field.now i }
{
    field.get(i).copied().unwrap_or(0)
}

// A record for each station, as far as there is room; behind them the table is as it came.
pub fn put_records(
    table: &mut [Message],
    stations: &[u32],
    arrivals: &[u32],
    relatives: &[u32],
    lengths: &[u32],
    sent: &[u32],
)
    ensures { table.new ≡ laid_over table.old (listed stations.now arrivals.now
        relatives.now lengths.now sent.now) }
{
    let count = stations.len().min(table.len());
    for (i, place) in table[..count].iter_mut().enumerate() {
        *place = Message {
            station: stations[i],
            arrival: number_at(arrivals, i),
            relative: number_at(relatives, i),
            length: number_at(lengths, i),
            sent: number_at(sent, i),
        };
    }
}

// The slots of sending of the table's records; a list that is longer keeps its own behind them.
pub fn put_slots(sent: &mut [u32], table: &[Message])
    ensures { sent.new ≡ laid_over sent.old (map (λ m. m.sent) table.now) }
{
    let count = sent.len().min(table.len());
    for (i, slot) in sent[..count].iter_mut().enumerate() {
        *slot = table[i].sent;
    }
}
