// The page for signing: a head with the two sheets' names, lengths and digests above the body of crates/report.
// Promises: any names, bytes, digests and room are taken; the page is `page_text` of specs/, or an answer that changes nothing.
// Rests on: report (the body), refusal (digits), notice (the body's answer), sheet (verdicts, in the contract), buffer.
#![tactic(auto)]

mod file;
mod head;

ghost use Rattle.std.specs.Prelude.{◌≡◌, ◌++◌, length};
ghost use Rattle.buffer.specs.declared.Verdict.TheVariants.{Accepted};
ghost use Rattle.page.specs.Files.{file};
ghost use Rattle.page.specs.Page.{head_text, answer_of, left_by, file_of, PageGiven, PageNumbered};

use file::File;
use notice::Noticed;

// What the call answers.
#[derive(Clone, Copy)]
pub enum Paged {
    // How many bytes were written.
    Done(usize),
    // A refusal of the old sheet, by number and place.
    Old(u8, usize),
    // A refusal of the new sheet.
    New(u8, usize),
    // The room is too short for the page, which has so many bytes.
    Short(usize),
    // A name or a digest is longer than a page has room for.
    TooLong,
}

// Longer than the head of any page with such names and digests.
const HEAD: usize = 8704;

// A head above a body, where there is room for both.
fn put_both(out: &mut [u8], head: &[u8], body: &[u8]) -> Paged
    ensures { (result ≡ answer_of Accepted Accepted (head.now ++ body.now) (length out.old)) × (out.new ≡ left_by result (head.now ++ body.now) out.old) }
{
    let needed = head.len() + body.len();
    if out.len() < needed {
        return Paged::Short(needed);
    }
    let behind = buffer::put_at(out, 0, head);
    buffer::put_at(out, behind, body);
    Paged::Done(needed)
}

// The page's head above its body.
fn put_page(out: &mut [u8], first: &File, second: &File, body: &[u8]) -> Paged
    ensures { let text = head_text (file_of first.now) (file_of second.now) ++ body.now in (result ≡ answer_of Accepted Accepted text (length out.old)) × (out.new ≡ left_by result text out.old) }
{
    let mut head = [0u8; HEAD];
    let n = head::put_head(&mut head, first, second);
    put_both(out, &head[..n], body)
}

// The page on two sheets, written at the start of `out`. The body is built first, so that only a page that is whole is written.
pub fn page(
    first_name: &[u8],
    first: &[u8],
    first_digest: &[u8],
    second_name: &[u8],
    second: &[u8],
    second_digest: &[u8],
    out: &mut [u8],
) -> Paged
    ensures page_given { PageGiven (file first_name.now first.now first_digest.now) (file second_name.now second.now second_digest.now) out.old result out.new }
    ensures page_numbered { PageNumbered (file first_name.now first.now first_digest.now) (file second_name.now second.now second_digest.now) (length out.old) result }
{
    let Some(old) = File::new(first_name, first, first_digest) else {
        return Paged::TooLong;
    };
    let Some(new) = File::new(second_name, second, second_digest) else {
        return Paged::TooLong;
    };
    let mut body = [0u8; report::LONGEST];
    match report::report(first, second, &mut body) {
        Noticed::Old(number, place) => Paged::Old(number, place),
        Noticed::New(number, place) => Paged::New(number, place),
        Noticed::Short(needed) => Paged::Short(needed),
        Noticed::Done(n) => put_page(out, &old, &new, &body[..n]),
    }
}
