// The line of a net, at the front of a lent list: `ohms NET 0 BITS`, the f64's bits as 16 hexadecimal digits, or
// `ohms NET N`.
ghost use Rattle.std.specs.Prelude.{◌+◌, ◌≤◌, not, ◌++◌, T, length};
ghost use Rattle.std.specs.Float.Ieee.{is_nan};
ghost use Rattle.io.specs.Digits.{last_digits};
ghost use Rattle.foil_spec.specs.Text.{ascii};
ghost use Rattle.lines.specs.Lines.{item};
ghost use Rattle.putting.specs.Put.{Put};
ghost use Rattle.ohms.specs.declared.Resistance.TheVariants.{Refused as Refusal, Ohms as Answered};
ghost use Rattle.ohms_main.specs.Printed.{net_line, HasBits};

use ohms::Resistance;
use putting::{put_bytes, put_number};

// The line for what was answered.
pub(crate) fn put_net(out: &mut [u8], net: u16, r: Resistance) -> usize
    requires in_bounds { 64 ≤ length out.old }
    requires has_bits { HasBits r }
    ensures put { Put out.old 0 (net_line net r) out.new result }
    ensures upper_bound { result ≤ 64 }
{
    match r {
        Resistance::Refused(number) => put_refused(out, net, number),
        Resistance::Ohms(x) => put_ohms(out, net, x),
    }
}

// The line of a refusal.
fn put_refused(out: &mut [u8], net: u16, number: u8) -> usize
    requires { 64 ≤ length out.old }
    ensures put { Put out.old 0 (net_line net (Refusal number)) out.new result }
    ensures upper_bound { result ≤ 64 }
{
    let a = put_head(out, net);
    let b = put_bytes(out, a, b" ");
    let c = put_number(out, b, u64::from(number));
    put_bytes(out, c, b"\n")
}

// The line of ohms.
fn put_ohms(out: &mut [u8], net: u16, x: f64) -> usize
    requires in_bounds { 64 ≤ length out.old }
    requires t { T (not (is_nan x)) }
    ensures put { Put out.old 0 (net_line net (Answered x)) out.new result }
    ensures upper_bound { result ≤ 64 }
{
    let a = put_head(out, net);
    let b = put_bytes(out, a, b" 0 ");
    let c = put_hex(out, b, f64::to_bits(x));
    put_bytes(out, c, b"\n")
}

// The word and the net, which both lines begin with.
fn put_head(out: &mut [u8], net: u16) -> usize
    requires { 64 ≤ length out.old }
    ensures put { Put out.old 0 (ascii "ohms" ++ item net) out.new result }
    ensures upper_bound { result ≤ 25 }
{
    let a = put_bytes(out, 0, b"ohms ");
    put_number(out, a, u64::from(net))
}

// A number in 16 hexadecimal digits.
fn put_hex(out: &mut [u8], at: usize, n: u64) -> usize
    requires { at + 16 ≤ length out.old }
    ensures put { Put out.old at (last_digits 16 16 n) out.new result }
    ensures upper_bound { result ≤ at + 16 }
{
    let mut text = [0u8; 16];
    let k = io::hex(n, 16, &mut text);
    put_bytes(out, at, &text[..k])
}
