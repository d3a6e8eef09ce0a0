//! Links, and those from items to the files of a bag.
ghost use Rattle.std.specs.Prelude.{◌≡◌, ◌++◌, ◌-◌, ◌<◌, IfOk, OnOk, drop, length, string_bytes};
ghost use Rattle.std.specs.List.{slice_get};
ghost use Rattle.hfs_page.specs.Links.{bag_path, is_kept, link_end, link_start, link_text, percent_byte, percent_text, slash_text, upper_digit, url_text};
ghost use Rattle.hfs_page.specs.Pieces.{Gains};

use crate::escaping::push_escaped;
use crate::pieces::push_bytes;
use hfs_fields::Name;
use hfs_texts::push_host_path;
use std::alloc::{AllocError, Global};

/// What a URL has as it is, besides letters and digits.
const KEPT: [u8; 5] = *b"-._~/";

/// Whether a URL has this byte of a path as it is.
#[tactic(auto, unfolding(crate::specs::Links::is_kept))]
fn is_kept(byte: u8) -> bool
    ensures { result ≡ is_kept byte }
{
    byte.is_ascii_alphanumeric() || KEPT.contains(&byte)
}

/// A hexadecimal digit, with a capital letter.
#[tactic(auto, unfolding(crate::specs::Links::upper_digit))]
fn upper_digit(number: u8) -> u8
    requires { number < 16 }
    ensures { result ≡ upper_digit number }
{
    if number < 10 {
        number + 48
    } else {
        number + 55
    }
}

/// Appends a byte of a path.
#[tactic(auto, unfolding(crate::specs::Links::percent_byte))]
fn push_percent_byte(url: &mut Vec<u8>, byte: u8) -> Result<(), AllocError>
    ensures { OnOk result (Gains url.old url.new (percent_byte byte)) }
{
    if is_kept(byte) {
        push_bytes(url, &[byte])
    } else {
        push_bytes(url, &[37, upper_digit(byte / 16), upper_digit(byte % 16)])
    }
}

/// Appends a path, with each byte except letters, digits and `-._~/` as `%` and two digits.
#[tactic(auto, unfolding(crate::specs::Links::percent_text))]
fn push_percent(url: &mut Vec<u8>, path: &[u8]) -> Result<(), AllocError>
    ensures { OnOk result (Gains url.old url.new (percent_text path.now)) }
{
    for byte in path {
        push_percent_byte(url, *byte)?;
    }
    Ok(())
}

/// The last byte of a URL.
fn last_byte(base: &[u8]) -> Option<u8>
    ensures { result ≡ slice_get base.now (length base.now - 1) }
{
    base.last().copied()
}

/// Appends a slash after a URL that has some bytes and doesn't end with one.
fn push_slash(url: &mut Vec<u8>, base: &[u8]) -> Result<(), AllocError>
    ensures { OnOk result (Gains url.old url.new (slash_text base.now)) }
{
    match last_byte(base) {
        Some(last) if last == b'/' => Ok(()),
        Some(_) => push_bytes(url, b"/"),
        None => Ok(()),
    }
}

/// The names below the root's.
fn below_root(path: &[Name]) -> &[Name]
    ensures { result.now ≡ drop 1 path.now }
{
    &path[path.len().min(1)..]
}

/// Appends where the item lies in a bag that these names lead to, from the root's down.
fn push_bag_path(text: &mut String, path: &[Name]) -> Result<(), AllocError>
    ensures { OnOk result (string_bytes text.new ≡ string_bytes text.old ++ bag_path path.now) }
{
    text.push_str("data/")?;
    push_host_path(text, below_root(path))
}

/// Where the item lies in a bag that these names lead to.
fn bag_path(alloc: Global, path: &[Name]) -> Result<String, AllocError>
    ensures { IfOk result (λ text. string_bytes text ≡ bag_path path.now) }
{
    let mut text = String::new(alloc);
    push_bag_path(&mut text, path)?;
    Ok(text)
}

/// Appends the URL of a path below another URL.
#[tactic(auto, unfolding(crate::specs::Links::url_text))]
fn push_url(url: &mut Vec<u8>, base: &[u8], path: &[u8]) -> Result<(), AllocError>
    ensures { OnOk result (Gains url.old url.new (url_text base.now path.now)) }
{
    push_bytes(url, base)?;
    push_slash(url, base)?;
    push_percent(url, path)
}

/// The URL of a path below another URL.
fn url_of(alloc: Global, base: &[u8], path: &[u8]) -> Result<Vec<u8>, AllocError>
    ensures { IfOk result (λ url. url.items ≡ url_text base.now path.now) }
{
    let mut url = Vec::new(alloc);
    push_url(&mut url, base, path)?;
    Ok(url)
}

/// Appends the beginning of a link to a path below a URL.
#[tactic(auto, unfolding(crate::specs::Links::link_text))]
fn push_link(alloc: Global, page: &mut Vec<u8>, base: &[u8], path: &[u8]) -> Result<(), AllocError>
    ensures { OnOk result (Gains page.old page.new (link_text base.now path.now)) }
{
    let url = url_of(alloc, base, path)?;
    push_bytes(page, b"<a href=\"")?;
    push_escaped(page, &url)?;
    push_bytes(page, b"\">")
}

/// Appends the beginning of a link to a path below a URL, if there is one.
pub fn push_link_start(
    alloc: Global,
    page: &mut Vec<u8>,
    base: Option<&[u8]>,
    path: &[u8],
) -> Result<(), AllocError>
    ensures { OnOk result (Gains page.old page.new (link_start base.entry path.now)) }
{
    match base {
        Some(base) => push_link(alloc, page, base, path),
        None => Ok(()),
    }
}

/// Appends the end of a link, if there is one.
pub fn push_link_end(page: &mut Vec<u8>, base: Option<&[u8]>) -> Result<(), AllocError>
    ensures { OnOk result (Gains page.old page.new (link_end base.entry)) }
{
    match base {
        Some(_) => push_bytes(page, b"</a>"),
        None => Ok(()),
    }
}

/// Appends the beginning of a link to the file in a bag that these names lead to, if the bag's URL is known.
pub(crate) fn push_bag_link(
    alloc: Global,
    page: &mut Vec<u8>,
    base: Option<&[u8]>,
    path: &[Name],
) -> Result<(), AllocError>
    ensures { OnOk result (Gains page.old page.new (link_start base.entry (bag_path path.now))) }
{
    let path = bag_path(alloc, path)?;
    push_link_start(alloc, page, base, path.as_bytes())
}
