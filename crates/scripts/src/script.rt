// A script: its lines, given out one by one.
ghost use Rattle.std.specs.Prelude.{◌≡◌, ◌==◌, ◌+◌, ◌<◌, ◌≤◌, position, length, take, drop, is_some, IfSome, nat_lt};
ghost use Rattle.scripts.specs.Scripts.{line_end};

// The place of the first line end.
fn first_line_end(bytes: &[u8]) -> Option<usize>
    ensures value { result ≡ position (λ b. b == 10) bytes.now }
    ensures within { IfSome result (λ i. i < length bytes.now) }
{
    bytes.iter().position(|b| *b == b'\n')
}

// How many bytes stand before the first line end.
fn line_end(bytes: &[u8]) -> usize
    ensures value { result ≡ line_end bytes.now }
    ensures within { result ≤ length bytes.now }
{
    first_line_end(bytes).unwrap_or(bytes.len())
}

// The bytes behind the first line.
fn behind(bytes: &[u8], end: usize) -> &[u8]
    requires { end ≤ length bytes.now }
    ensures { result.now ≡ drop (end + 1) bytes.now }
{
    bytes.get(end + 1..).unwrap_or(&[])
}

#[derive(Drop)]
pub struct Script<'a> {
    // The lines to come.
    left: &'a [u8],
    // How many lines were given out.
    given: u64,
}

impl<'a> Script<'a> {
    pub fn new(bytes: &'a [u8]) -> Script<'a>
        ensures { result.left.now ≡ bytes.now }
    {
        Script {
            left: bytes,
            given: 0,
        }
    }

    // The number of the line that was given out last, from 1.
    pub fn number(&self) -> u64
        ensures { result ≡ self.now.given }
    {
        self.given
    }

    // There are at most so many lines to come.
    pub fn most_lines(&self) -> usize
        ensures { result ≡ length self.now.left.now }
    {
        self.left.len()
    }

    // The next line, without its end. What stands behind the last line end is a line, unless it is empty.
    pub fn next_line(&mut self) -> Option<&'a [u8]>
        ensures test { is_some result ≡ nat_lt 0 (length self.old.left.now) }
        ensures line { IfSome result (λ l. l.now ≡ take (line_end self.old.left.now) self.old.left.now) }
        ensures shorter { IfSome result (λ _. length self.new.left.now < length self.old.left.now) }
        ensures left { self.new.left.now ≡ drop (line_end self.old.left.now + 1) self.old.left.now }
    {
        let left = self.left;
        if left.is_empty() {
            return None;
        }
        let end = line_end(left);
        self.left = behind(left, end);
        self.given = self.given.saturating_add(1);
        Some(&left[0..end])
    }
}
