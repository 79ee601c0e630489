// The program (docs/RULES.md, section 12): standard input to standard output. What it decides is in `lines::answer`.
// Uses lines.
#![tactic(auto)]

ghost use Rattle.std.specs.Prelude.{◌≡◌, ◌≤◌, length};

use std::io::Read;

// One byte more than a text may have, so that a longer one is seen.
fn input_room() -> [u8; 65537]
    ensures { length result ≡ 65537 }
{
    [0; 65537]
}

// Room for every text that is written.
fn output_room() -> [u8; 262144]
    ensures { length result ≡ 262144 }
{
    [0; 262144]
}

// Reads until the room is full, the input ends or a read fails, and returns how many bytes stand at the room's front.
fn read_full(input: &mut impl Read, room: &mut [u8]) -> usize
    ensures { result ≤ length room.new }
{
    // No `read_exact`, which fails on a short input, and no `read_to_end`, which allocates.
    let mut done = 0;
    while done < room.len() {
        match input.read(&mut room[done..]) {
            Ok(0) | Err(_) => break,
            Ok(read) => done += read,
        }
    }
    done
}

// A write that fails ends the program like any other.
fn main(rt: HostRuntime) {
    let mut input = input_room();
    let mut output = output_room();
    let read = read_full(&mut rt.stdin(), &mut input);
    let written = lines::answer(&input[..read], &mut output);
    let _ = rt.write_all(&output[..written]);
}
