// Numbers as bytes, the high byte first, at every width from 1 to 8.
ghost use Rattle.std.specs.Prelude.{◌≡◌, ◌+◌, ◌*◌, ◌^◌, ◌<◌, ◌≤◌, length};
ghost use Rattle.values.specs.Words.{bytes_of, number_of};

// A number with one byte more behind it.
fn with_byte(n: u64, byte: u8) -> u64
    requires { n < 2 ^ 56 }
    ensures { result ≡ n * 256 + byte }
{
    n * 256 + u64::from(byte)
}

// The number that the bytes write.
pub fn number_of(bytes: &[u8]) -> u64
    requires { length bytes.now ≤ 8 }
    ensures { result ≡ number_of bytes.now }
{
    let mut n: u64 = 0;
    for b in bytes {
        n = with_byte(n, *b);
    }
    n
}

// Fills a buffer of at most eight bytes with the last bytes of a number.
pub fn put_number(n: u64, buffer: &mut [u8])
    requires { length buffer.old ≤ 8 }
    ensures { buffer.new ≡ bytes_of (length buffer.old) n }
{
    buffer.copy_from_slice(&n.to_be_bytes()[8 - buffer.len()..]);
}
