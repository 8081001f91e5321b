// A sheet as a page shows it.
ghost use Rattle.std.specs.Prelude.{◌≡◌, ◌≤◌, length, false, true, MatchOption};

// The most bytes of a name and of a digest on a page.
const NAME: usize = 4096;

const DIGEST: usize = 64;

// Its name, its bytes, and their digest in hex, which is empty where none was asked for.
#[derive(Drop)]
pub(crate) struct File<'a> {
    pub(crate) name: &'a [u8],
    pub(crate) bytes: &'a [u8],
    pub(crate) digest: &'a [u8],
    ghost name_short: { length name.now ≤ 4096 },
    ghost digest_short: { length digest.now ≤ 64 },
}

impl<'a> File<'a> {
    ghost use Rattle.page.specs.Files.{file};
    ghost use Rattle.page.specs.Page.{is_shown, file_of};

    // None where a page has no room for the name or the digest.
    pub(crate) fn new(name: &'a [u8], bytes: &'a [u8], digest: &'a [u8]) -> Option<File<'a>>
        ensures { let given = file name.now bytes.now digest.now in MatchOption result (is_shown given ≡ false) (λ f. (is_shown given ≡ true) × (file_of f ≡ given)) }
    {
        if NAME < name.len() || DIGEST < digest.len() {
            return None;
        }
        Some(File {
            name,
            bytes,
            digest,
        })
    }
}
