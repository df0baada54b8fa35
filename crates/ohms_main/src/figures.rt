// The ink's figures from their bytes.
ghost use Rattle.std.specs.Prelude.{◌+◌, ◌≤◌, ◌≡◌, length};
ghost use Rattle.ohms_main.specs.InkBytes.{number8, figure_of, ink_in};

use foil_spec::Ink;

// The three figures, in the order in which they are given.
pub(crate) fn ink_of(given: &[u8; 24]) -> Ink
    ensures { result ≡ ink_in given.now }
{
    Ink {
        sheet: figure(word(given, 0)),
        width: figure(word(given, 8)),
        bend: figure(word(given, 16)),
    }
}

// The f64 of a bit pattern. A NaN's is read as an infinity: neither is finite, and 22 refuses both.
fn figure(bits: u64) -> f64
    ensures { result ≡ figure_of bits }
{
    if bits % 9223372036854775808 / 4503599627370496 == 2047 {
        let zero = 0.0;
        return 1.0 / zero;
    }
    f64::from_bits(bits)
}

// The eight bytes at a place as a number, low byte first.
#[tactic(auto, unfolding(crate::specs::InkBytes::number8, crate::specs::InkBytes::number4, foil_spec::specs::Job::number))]
fn word(given: &[u8], at: usize) -> u64
    requires { at + 8 ≤ length given.now }
    ensures { result ≡ number8 given.now at }
{
    u64::from_le_bytes([
        given[at],
        given[at + 1],
        given[at + 2],
        given[at + 3],
        given[at + 4],
        given[at + 5],
        given[at + 6],
        given[at + 7],
    ])
}
