// Writes bytes so that they can be read again within quotes.
#![tactic(auto)]

ghost use Rattle.std.specs.Prelude.{◌≡◌, ◌+◌, ◌<◌, ◌≤◌, ◌++◌, Some, length, take, string_bytes, string_len, string_capacity, OnOk, OnErr};
ghost use Rattle.std.specs.Char.{digit_char};
ghost use Rattle.std.specs.String.Boundary.{IsSplitPoint};
ghost use Rattle.words.specs.Quotes.{unquoted};
ghost use Rattle.printing.specs.Escaped.{written, escaped};

use std::alloc::AllocError;

// Printable ASCII stands for itself, but for the quote and the backslash. What is written stands, between quotes, for the bytes.
// All of it is appended or nothing.
#[tactic(auto, using(crate::proofs::Escaping::read_again))]
pub fn push_escaped(out: &mut String, bytes: &[u8]) -> Result<(), AllocError>
    ensures appended { OnOk result (string_bytes out.new ≡ string_bytes out.old ++ escaped bytes.now) }
    ensures refused { OnErr result (string_bytes out.new ≡ string_bytes out.old) }
    ensures room { OnErr result (string_capacity out.old < string_len out.old + length (escaped bytes.now)) }
    ensures read_again { unquoted (escaped bytes.now) ≡ Some bytes.now }
{
    let start = out.len();
    let result = append(out, bytes);
    if result.is_err() {
        out.truncate(start);
    }
    result
}

// Where it fails, it has appended what stands before.
fn append(out: &mut String, bytes: &[u8]) -> Result<(), AllocError>
    ensures appended { OnOk result (string_bytes out.new ≡ string_bytes out.old ++ escaped bytes.now) }
    ensures kept { take (string_len out.old) (string_bytes out.new) ≡ string_bytes out.old }
    ensures split { IsSplitPoint (string_bytes out.new) (string_len out.old) }
    ensures room { OnErr result (string_capacity out.old < string_len out.old + length (escaped bytes.now)) }
{
    for b in bytes {
        push_byte(out, *b)?;
    }
    Ok(())
}

fn push_byte(out: &mut String, b: u8) -> Result<(), AllocError>
    ensures appended { OnOk result (string_bytes out.new ≡ string_bytes out.old ++ written b) }
    ensures kept { take (string_len out.old) (string_bytes out.new) ≡ string_bytes out.old }
    ensures split { IsSplitPoint (string_bytes out.new) (string_len out.old) }
    ensures room { OnErr result (string_capacity out.old < string_len out.old + length (written b)) }
    ensures capacity { string_capacity out.old ≤ string_capacity out.new }
{
    match b {
        b'"' => out.push_str("\\\""),
        b'\\' => out.push_str("\\\\"),
        b' '..=b'~' => out.push(char::from(b)),
        _ => {
            out.push_str("\\x")?;
            out.push(hex_digit(b / 16))?;
            out.push(hex_digit(b % 16))
        }
    }
}

fn hex_digit(value: u8) -> char
    requires { value < 16 }
    ensures { result ≡ digit_char value }
{
    char::from_digit(u32::from(value), 16).unwrap()
}
