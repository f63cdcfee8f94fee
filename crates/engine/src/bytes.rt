// Numbers in bytes, the lowest byte first.
ghost use Rattle.std.specs.Prelude.{◌≡◌, ◌+◌, ◌*◌, ◌≤◌, length};
ghost use Rattle.engine.specs.Frame.{two, four, eight};
ghost use Rattle.engine.specs.Laid.{BytesLaid, TwoLaid, FourLaid, EightLaid, WordsLaid};

// The number in the two bytes from a place on. Each width has a promise of its own in the numbers of that width, here and below; the bytes
// are lent whole with a place, as the definitions of the frame speak of them.
pub fn read_two(bytes: &[u8], at: usize) -> u16
    requires { at + 2 ≤ length bytes.now }
    ensures { result ≡ two bytes.now at }
{
    u16::from_le_bytes([bytes[at], bytes[at + 1]])
}

// The number in the four bytes from a place on.
pub fn read_four(bytes: &[u8], at: usize) -> u32
    requires { at + 4 ≤ length bytes.now }
    ensures { result ≡ four bytes.now at }
{
    u32::from_le_bytes([bytes[at], bytes[at + 1], bytes[at + 2], bytes[at + 3]])
}

// The number in the eight bytes from a place on: by its two halves, as `eight` is defined.
pub fn read_eight(bytes: &[u8], at: usize) -> usize
    requires { at + 8 ≤ length bytes.now }
    ensures { result ≡ eight bytes.now at }
{
    let low = read_four(bytes, at) as usize;
    let high = read_four(bytes, at + 4) as usize;
    low + (high << 32)
}

// Writes the bytes of a number from a place on.
fn lay(number: &[u8], bytes: &mut [u8], at: usize)
    requires { at + length number.now ≤ length bytes.old }
    ensures { BytesLaid number.now bytes.old at bytes.new }
{
    bytes[at..at + number.len()].copy_from_slice(number);
}

// Writes a number as two bytes. Each width has a promise of its own in the numbers of that width, over the one `lay`.
fn lay_two(number: u16, bytes: &mut [u8], at: usize)
    requires { at + 2 ≤ length bytes.old }
    ensures { TwoLaid number bytes.old at bytes.new }
{
    lay(&number.to_le_bytes(), bytes, at);
}

// Writes a number as four bytes.
pub fn lay_four(number: u32, bytes: &mut [u8], at: usize)
    requires { at + 4 ≤ length bytes.old }
    ensures { FourLaid number bytes.old at bytes.new }
{
    lay(&number.to_le_bytes(), bytes, at);
}

// Writes a number as eight bytes.
pub fn lay_eight(number: usize, bytes: &mut [u8], at: usize)
    requires { at + 8 ≤ length bytes.old }
    ensures { EightLaid number bytes.old at bytes.new }
{
    lay(&number.to_le_bytes(), bytes, at);
}

// Writes each entry of a row as two bytes.
pub fn lay_words(row: &[u16], bytes: &mut [u8], at: usize)
    requires { at + 2 * length row.now ≤ length bytes.old }
    ensures { WordsLaid row.now (length row.now) bytes.old at bytes.new }
{
    for (i, word) in row.iter().enumerate() {
        lay_two(*word, bytes, at + 2 * i);
    }
}
