// Reads the routing and the mode register, two bytes, and prints the topology's line; nothing on shorter input.
#![tactic(auto)]

ghost use Rattle.std.specs.Prelude.{◌≡◌, ◌/◌, ◌%◌};
ghost use Rattle.mixing.specs.Line.{line_of};

use std::io::{Input, Print, Read};

// The line of the two registers: routing is the low nibble of the one, mode the high nibble of the other.
fn register_line(routing_register: u8, mode_register: u8) -> [u8; 39]
    ensures { result ≡ line_of (routing_register % 16) (mode_register / 16) }
{
    mixing::line(routing_register % 16, mode_register / 16)
}

fn main(rt: HostRuntime) {
    let mut registers = [0u8; 2];
    if rt.reader().read_exact(&mut registers).is_ok() {
        let text = register_line(registers[0], registers[1]);
        let _ = rt.write_all(&text);
    }
}
