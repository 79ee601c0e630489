// Readback: a row of the log, read back from its 16 bytes (docs/RULES.md, section 4).
// Uses rows.
#![tactic(auto)]

ghost use Rattle.std.specs.Prelude.{◌+◌, ◌*◌, ◌≤◌, length, take, drop};
ghost use Rattle.readback.specs.Back.{PhaseBack, StateBack, RowBack};

use rows::{Channel, Phase, Row};

// The phase of a byte.
fn phase_of(byte: u8) -> Phase
    ensures { PhaseBack byte result }
{
    match byte {
        0 => Phase::Free,
        1 => Phase::Time,
        2 => Phase::Static,
        _ => Phase::Bare,
    }
}

// The channel state of a byte.
fn state_of(byte: u8) -> Channel
    ensures { StateBack byte result }
{
    match byte {
        0 => Channel::Silence,
        1 => Channel::Busy,
        _ => Channel::Collision,
    }
}

// The row whose bytes are row number `at` of the log.
pub fn row_at(log: &[u8], at: usize) -> Row
    requires { 16 * at + 16 ≤ length log.now }
    ensures { RowBack (take 16 (drop (16 * at) log.now)) result }
{
    let bytes = &log[16 * at..16 * at + 16];
    Row {
        slot: u32::from_le_bytes([bytes[0], bytes[1], bytes[2], bytes[3]]),
        phase: phase_of(bytes[4]),
        state: state_of(bytes[5]),
        first: u16::from_le_bytes([bytes[6], bytes[7]]),
        width: u16::from_le_bytes([bytes[8], bytes[9]]),
        message: u16::from_le_bytes([bytes[10], bytes[11]]),
        used: u16::from_le_bytes([bytes[12], bytes[13]]),
    }
}
