//! The URLs that links may begin with.
ghost use Rattle.std.specs.Prelude.{◌≡◌, find};
ghost use Rattle.hfs_page.specs.Bases.{begins_with, has_scheme, is_base, is_end};

/// Whether this byte ends what may be the scheme of a URL.
fn is_end(byte: u8) -> bool
    ensures { result ≡ is_end byte }
{
    byte == b':' || byte == b'/' || byte == b'?' || byte == b'#'
}

/// The first of these bytes.
fn first_end(url: &[u8]) -> Option<u8>
    ensures { result ≡ find is_end url.now }
{
    url.iter().copied().find(|byte| is_end(*byte))
}

/// Whether a URL has a scheme.
fn has_scheme(url: &[u8]) -> bool
    ensures { result ≡ has_scheme url.now }
{
    match first_end(url) {
        Some(end) => end == b':',
        None => false,
    }
}

/// Whether a URL begins with this text.
fn begins_with(url: &[u8], start: &[u8]) -> bool
    ensures { result ≡ begins_with url.now start.now }
{
    &url[..start.len().min(url.len())] == start
}

/// Whether links may begin with this URL: it begins with `http:` or `https:`, or it is relative, so that no colon comes before
/// its first slash, question mark or number sign.
#[tactic(auto, unfolding(crate::specs::Bases::is_base))]
pub fn is_base(url: &[u8]) -> bool
    ensures { result ≡ is_base url.now }
{
    begins_with(url, b"http:") || begins_with(url, b"https:") || !has_scheme(url)
}
