//! Texts pushed into a line.
ghost use Rattle.std.specs.Prelude.{◌≡◌, ◌≤◌, ◌+◌, ◌++◌, length};
ghost use Rattle.std.specs.Fmt.{decimal};
ghost use Rattle.trace_text.specs.Steps.{value_text};

use inline_bytes::Held;
use itoa::Buffer;
use line_words::hex_16;

/// A line as it is written: it has at most 96 bytes.
pub(crate) type Line = Held<96>;

/// A number in decimal digits.
pub(crate) fn push_number(line: &mut Line, number: u64)
    requires { length line.old + 20 ≤ 96 }
    ensures text { line.new ≡ line.old ++ decimal number }
    ensures short { length line.new ≤ length line.old + 20 }
{
    let mut buffer = Buffer::new();
    line.extend(buffer.format(number).as_bytes());
}

/// A value: in decimal digits where it has 32 bits, and else in the sixteen hexadecimal digits of its 64.
pub(crate) fn push_value(line: &mut Line, value: u64)
    requires { length line.old + 20 ≤ 96 }
    ensures text { line.new ≡ line.old ++ value_text value }
    ensures short { length line.new ≤ length line.old + 20 }
{
    if value < 0x1_0000_0000 {
        push_number(line, value);
    } else {
        line.extend(b"0x");
        line.extend(&hex_16(value));
    }
}
