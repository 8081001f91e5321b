// The head of the page: both sheets with their names, lengths and digests.
ghost use Rattle.std.specs.Prelude.{◌+◌, ◌≤◌, [], ◌∷◌, ◌++◌, length};
ghost use Rattle.buffer.specs.Room.{Wrote};
ghost use Rattle.page.specs.Page.{digest_text, size_text, file_text, head_text, file_of};

use crate::file::File;

// How many bytes a sheet has.
fn put_size(out: &mut [u8], at: usize, size: usize) -> usize
    requires { at + 48 ≤ length out.old }
    ensures { Wrote at (size_text size) out.old out.new result }
{
    let a = buffer::put_at(out, at, b"\n           ");
    let b = refusal::put_decimal(out, a, size);
    buffer::put_at(out, b, b" bytes, SHA-256 ")
}

// A digest, which is empty where none was asked for, and the line's end.
fn put_digest(out: &mut [u8], at: usize, digest: &[u8]) -> usize
    requires digest_len_bound { length digest.now ≤ 64 }
    requires at_in_bounds { at + 65 ≤ length out.old }
    ensures { Wrote at (digest_text digest.now ++ (10 ∷ [])) out.old out.new result }
{
    if digest.is_empty() {
        return buffer::put_at(out, at, b"not asked for (--no-digest)\n");
    }
    let a = buffer::put_at(out, at, digest);
    buffer::put_at(out, a, b"\n")
}

// A sheet: which it is, its name, how many bytes it has, their digest.
fn put_file(out: &mut [u8], at: usize, title: &[u8], file: &File) -> usize
    requires title_len_bound { length title.now ≤ 11 }
    requires at_in_bounds { at + 4220 ≤ length out.old }
    ensures { Wrote at (file_text title.now (file_of file.now)) out.old out.new result }
{
    let a = buffer::put_at(out, at, title);
    let b = buffer::put_at(out, a, file.name);
    let c = put_size(out, b, file.bytes.len());
    put_digest(out, c, file.digest)
}

// The head of a page.
pub(crate) fn put_head(out: &mut [u8], first: &File, second: &File) -> usize
    requires { 8704 ≤ length out.old }
    ensures { Wrote 0 (head_text (file_of first.now) (file_of second.now)) out.old out.new result }
{
    let a = buffer::put_at(out, 0, b"NOTICE OF ALTERATIONS\n\n");
    let b = put_file(out, a, b"Old sheet: ", first);
    put_file(out, b, b"New sheet: ", second)
}
