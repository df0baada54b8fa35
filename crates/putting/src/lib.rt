// Bytes and numbers written at a place of a lent list. Each function answers the place after them. Their caller lends
// room enough; the `requires` says how much.
#![tactic(auto)]

ghost use Rattle.std.specs.Prelude.{◌+◌, ◌≤◌, length};
ghost use Rattle.foil_spec.specs.Text.{decimal};
ghost use Rattle.putting.specs.Put.{Put};

// Puts the bytes there.
pub fn put_bytes(out: &mut [u8], at: usize, bytes: &[u8]) -> usize
    requires { at + length bytes.now ≤ length out.old }
    ensures { Put out.old at bytes.now out.new result }
{
    let end = at + bytes.len();
    out[at..end].copy_from_slice(bytes);
    end
}

// Puts a number in decimal, which has 20 digits at most.
pub fn put_number(out: &mut [u8], at: usize, n: u64) -> usize
    requires { at + 20 ≤ length out.old }
    ensures put { Put out.old at (decimal n) out.new result }
    ensures upper_bound { result ≤ at + 20 }
{
    let mut text = [0u8; 20];
    let k = io::decimal(n, &mut text);
    put_bytes(out, at, &text[..k])
}
