//! A list of nodes, as `1,2`.
ghost use Rattle.std.specs.Prelude.{◌≡◌, ◌<◌};
ghost use Rattle.tpdraw.specs.NodeLists.{numbers_in, with_given, after_byte, with_digit, one_more};

use tp_draw::Nodes;
use tp_schedule::value::is_digit;

/// The nodes of the list; None where it is not one of 1 to 16 numbers with commas between them.
pub(crate) fn read_nodes(list: &[u8]) -> Option<Nodes>
    ensures { result ≡ numbers_in list.now }
{
    let mut read = (Nodes::none(), None);
    for byte in list {
        let (nodes, number) = read;
        read = after_byte(nodes, number, *byte)?;
    }
    let (nodes, number) = read;
    with_given(nodes, number)
}

// The nodes before the last comma and the number after it, with one byte more.
fn after_byte(nodes: Nodes, number: Option<u16>, byte: u8) -> Option<(Nodes, Option<u16>)>
    ensures { result ≡ after_byte nodes number byte }
{
    if byte == b',' {
        let nodes = with_given(nodes, number)?;
        return Some((nodes, None));
    }
    let number = with_digit(number, byte)?;
    Some((nodes, Some(number)))
}

fn with_given(nodes: Nodes, number: Option<u16>) -> Option<Nodes>
    ensures { result ≡ with_given nodes number }
{
    nodes.with(number?)
}

// A number has no leading zero, and does not pass 65535.
fn with_digit(number: Option<u16>, byte: u8) -> Option<u16>
    ensures { result ≡ with_digit number byte }
{
    if !is_digit(byte) {
        return None;
    }
    one_more(number, byte - b'0')
}

fn one_more(number: Option<u16>, digit: u8) -> Option<u16>
    requires { digit < 10 }
    ensures { result ≡ one_more number digit }
{
    let value = match number {
        Some(number) => u32::from(number) * 10 + u32::from(digit),
        None => u32::from(digit),
    };
    if 0 < value && value <= 65535 {
        Some(value as u16)
    } else {
        None
    }
}
