// The lines that the program prints.
ghost use Rattle.std.specs.Prelude.{◌≡◌, ◌≤◌, length};
ghost use Rattle.lines.specs.Line.{IsInRoom, line_of};
ghost use Rattle.lines.specs.Texts.{fact_text, bytes_text, accepted_text, rejected_text, clash_text};

use crate::Line;

// A name and a number.
pub fn fact(name: &[u8], x: u64) -> Line
    requires { length name.now ≤ 1000 }
    ensures value { line_of result ≡ fact_text name.now x }
    ensures in_room { IsInRoom result }
{
    Line::new().add_field(name, x).add(b"\n")
}

// A name and bytes in hexadecimal.
pub fn fact_bytes(name: &[u8], bytes: &[u8]) -> Line
    requires { (length name.now ≤ 1000) × (length bytes.now ≤ 1000) }
    ensures value { line_of result ≡ bytes_text name.now bytes.now }
    ensures in_room { IsInRoom result }
{
    Line::new().add(name).add_hex(bytes).add(b"\n")
}

pub fn accepted(depth: u64, challenges: u64, nodes: u64) -> Line
    ensures value { line_of result ≡ accepted_text depth challenges nodes }
    ensures in_room { IsInRoom result }
{
    Line::new()
        .add_field(b"accepted depth ", depth)
        .add_field(b" challenges ", challenges)
        .add_field(b" chain ", nodes)
        .add(b"\n")
}

pub fn rejected(number: u64, opening: u64) -> Line
    ensures value { line_of result ≡ rejected_text number opening }
    ensures in_room { IsInRoom result }
{
    Line::new()
        .add_field(b"refused ", number)
        .add_field(b" ", opening)
        .add(b"\n")
}

pub fn clash(first: u64, second: u64, level: u64) -> Line
    ensures value { line_of result ≡ clash_text first second level }
    ensures in_room { IsInRoom result }
{
    Line::new()
        .add_field(b"clash openings ", first)
        .add_field(b" and ", second)
        .add_field(b" level ", level)
        .add(b"\n")
}
