//! How many lines bytes have.
ghost use Rattle.std.specs.Prelude.{◌≡◌, ◌≤◌, ◌==◌, length};
ghost use Rattle.std.specs.List.{count_by};
ghost use Rattle.git_lines.specs.Lines.{lines_of};

/// How many line feeds are among the bytes.
fn count_feeds(bytes: &[u8]) -> usize
    ensures { result ≡ count_by (λ b. b == 10) bytes.now }
{
    bytes.iter().filter(|byte| **byte == 10).count()
}

/// How many lines the bytes have: as many as line feeds, and one more where bytes follow the last of these.
pub fn count_lines(bytes: &[u8]) -> u64
    ensures lines { result ≡ length (lines_of bytes.now) }
    ensures few { result ≤ length bytes.now }
{
    let feeds = count_feeds(bytes) as u64;
    if bytes.is_empty() || bytes[bytes.len() - 1] == 10 {
        return feeds;
    }
    feeds + 1
}
