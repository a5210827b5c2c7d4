// The lines of a dump, each with its line feed.
ghost use Rattle.std.specs.Prelude.{◌≡◌, ◌≤◌, ◌<◌, ◌+◌, ◌^◌, All, [], length, take, slice_index_or};
ghost use Rattle.pdl_wave.specs.Dump.{code as code_of, ended, header, scope, declaration, time_text, change_text};

use crate::line::WaveLine;
use crate::port::WavePort;
use pdl_kit::Name;

/// The code of the i-th port, counted from 0 and below 8,930: one or two bytes from `!` to `~`, and how many.
pub fn code(i: usize) -> ([u8; 2], usize)
    requires { i < 8930 }
    ensures text { take result.1 result.0 ≡ code_of i }
    ensures len { result.1 ≤ 2 }
{
    if i < 94 {
        ([33 + i as u8, 0], 1)
    } else {
        ([33 + (i / 94 - 1) as u8, 33 + (i % 94) as u8], 2)
    }
}

// The line that declares the i-th port.
fn declaration_line(i: usize, port: &WavePort) -> WaveLine
    requires below { i < 8930 }
    requires name { length port.now.name ≤ 64 }
    ensures { result ≡ ended (declaration i port.now) }
{
    let mut line = WaveLine::new();
    line.push(b"$var wire ");
    line.push_decimal(u64::from(port.width));
    line.push(b" ");
    line.push_code(i);
    line.push(b" ");
    line.push(port.name.as_bytes());
    line.push(b" $end\n");
    line
}

// The line that names the pipe.
fn scope_line(name: &Name) -> WaveLine
    requires { length name.now ≤ 64 }
    ensures { result ≡ ended (scope name.now) }
{
    let mut line = WaveLine::new();
    line.push(b"$scope module pdl_");
    line.push(name.as_bytes());
    line.push(b" $end\n");
    line
}

// A line of these bytes.
fn fixed_line(text: &[u8]) -> WaveLine
    requires { length text.now ≤ 32 }
    ensures { result ≡ ended text.now }
{
    let mut line = WaveLine::new();
    line.push(text);
    line.push(b"\n");
    line
}

/// The k-th line of the header, counted from 0, of a pipe with this name and these output ports.
///
/// It has four lines more than ports, of which there are fewer than 8,930; the name and those of the ports have at most 64 bytes.
pub fn header_line(name: &Name, ports: &[WavePort], k: usize) -> WaveLine
    requires name { length name.now ≤ 64 }
    requires names { All (λ p. length p.name ≤ 64) ports.now }
    requires few { length ports.now < 8930 }
    requires there { k < length ports.now + 4 }
    ensures { result ≡ ended (slice_index_or (header name.now ports.now) k []) }
{
    if k == 0 {
        fixed_line(b"$timescale 1 ns $end")
    } else if k == 1 {
        scope_line(name)
    } else if k - 2 < ports.len() {
        declaration_line(k - 2, &ports[k - 2])
    } else if k - 2 == ports.len() {
        fixed_line(b"$upscope $end")
    } else {
        fixed_line(b"$enddefinitions $end")
    }
}

/// The line of a time: that of a cycle in which ports change, or the one after the last cycle.
pub fn time_line(time: u64) -> WaveLine
    ensures { result ≡ ended (time_text time) }
{
    let mut line = WaveLine::new();
    line.push(b"#");
    line.push_decimal(time);
    line.push(b"\n");
    line
}

/// The line of the new value of the i-th port, counted from 0 and below 8,930, with a binary digit for each of its 1 to 128 bits.
pub fn change_line(value: u128, width: u8, i: usize) -> WaveLine
    requires low { 1 ≤ width }
    requires high { width ≤ 128 }
    requires fits { value < 2 ^ width }
    requires below { i < 8930 }
    ensures { result ≡ ended (change_text value width i) }
{
    let mut line = WaveLine::new();
    line.push(b"b");
    line.push_binary(width, value);
    line.push(b" ");
    line.push_code(i);
    line.push(b"\n");
    line
}
