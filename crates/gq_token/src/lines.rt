// Lines.
ghost use Rattle.std.specs.Prelude.{◌≡◌, ◌≤◌, length};
ghost use Rattle.gq_token.specs.Lines.{line_of};

/// The line, counted from 1, of the byte at the place `at`. Only LF ends a line.
pub fn line_of(bytes: &[u8], at: usize) -> u64
    requires { at ≤ length bytes.now }
    ensures { result ≡ line_of bytes.now at }
{
    let mut line = 1;
    for byte in &bytes[..at] {
        if *byte == b'\n' {
            line += 1;
        }
    }
    line
}
