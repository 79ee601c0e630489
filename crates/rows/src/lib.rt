// Rows: one slot of the wire as a row of the log, and its 16 bytes (docs/RULES.md, section 4).
// Every search and every run writes its log through `put_row`.
// Uses nothing.
//
//   slot 0..3 | phase 4 | state 5 | first leaf 6, 7 | width 8, 9 | message 10, 11 | slots used 12, 13 | zero 14, 15
#![tactic(auto)]

ghost use Rattle.std.specs.Prelude.{◌≡◌, ◌+◌, ◌*◌, ◌≤◌, length};
ghost use Rattle.rows.specs.Log.{phase_number, state_number, row_bytes, over};

// No message: what a row holds where nothing was sent. It is a number and no `None`, as a row holds what its bytes
// in the log say, and there a message has two bytes and no mark beside them.
pub const NO_MESSAGE: u16 = 65535;

// The part of the protocol that a slot belongs to.
#[derive(Clone, Copy, Debug, PartialEq, Eq)]
pub enum Phase {
    Free,
    Time,
    Static,
    Bare,
}

// What the wire shows in a slot.
#[derive(Clone, Copy, Debug, PartialEq, Eq)]
pub enum Channel {
    Silence,
    Busy,
    Collision,
}

#[derive(Clone, Copy, Debug, PartialEq, Eq)]
pub struct Row {
    pub slot: u32,
    pub phase: Phase,
    pub state: Channel,
    pub first: u16,
    pub width: u16,
    pub message: u16,
    pub used: u16,
}

// The byte of a phase in a row.
impl From<Phase> for u8 {
    ghost from_gives = { λ phase byte. byte ≡ phase_number phase };

    fn from(phase: Phase) -> u8 {
        match phase {
            Phase::Free => 0,
            Phase::Time => 1,
            Phase::Static => 2,
            Phase::Bare => 3,
        }
    }
}

// The byte of a channel's state in a row.
impl From<Channel> for u8 {
    ghost from_gives = { λ state byte. byte ≡ state_number state };

    fn from(state: Channel) -> u8 {
        match state {
            Channel::Silence => 0,
            Channel::Busy => 1,
            Channel::Collision => 2,
        }
    }
}

// The row's 16 bytes, each number with its low byte first.
fn row_bytes(row: Row) -> [u8; 16]
    ensures { result ≡ row_bytes row }
{
    let slot = row.slot.to_le_bytes();
    let first = row.first.to_le_bytes();
    let width = row.width.to_le_bytes();
    let message = row.message.to_le_bytes();
    let used = row.used.to_le_bytes();
    [
        slot[0],
        slot[1],
        slot[2],
        slot[3],
        u8::from(row.phase),
        u8::from(row.state),
        first[0],
        first[1],
        width[0],
        width[1],
        message[0],
        message[1],
        used[0],
        used[1],
        0,
        0,
    ]
}

// The bytes, written over a buffer from place `at` on.
pub fn put_bytes(log: &mut [u8], at: usize, bytes: &[u8])
    requires { at + length bytes.now ≤ length log.old }
    ensures { log.new ≡ over log.old at bytes.now }
{
    log[at..at + bytes.len()].copy_from_slice(bytes);
}

// Row number `at` of the log.
pub fn put_row(log: &mut [u8], at: usize, row: Row)
    requires { 16 * at + 16 ≤ length log.old }
    ensures { log.new ≡ over log.old (16 * at) (row_bytes row) }
{
    put_bytes(log, 16 * at, &row_bytes(row));
}
