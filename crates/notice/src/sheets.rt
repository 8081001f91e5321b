// The two sheets of a notice, judged.
ghost use Rattle.std.specs.Prelude.{◌≡◌, MatchResult};
ghost use Rattle.buffer.specs.declared.Verdict.TheVariants.{Accepted};
ghost use Rattle.sheet.specs.Reading.{verdict};
ghost use Rattle.sheet.specs.Parts.{judged_of};
ghost use Rattle.notice.specs.Notice.{IsRefusal};

use crate::Noticed;
use sheet::Judged;

// Two accepted sheets, and where the sections of each lie.
#[derive(Drop)]
pub struct Sheets<'a> {
    pub old: &'a [u8],
    pub new: &'a [u8],
    pub olds: Judged,
    pub news: Judged,
    pub ghost old_accepted: { verdict old.now ≡ Accepted },
    pub ghost new_accepted: { verdict new.now ≡ Accepted },
    pub ghost olds_laid: { olds ≡ judged_of old.now },
    pub ghost news_laid: { news ≡ judged_of new.now },
}

impl<'a> Sheets<'a> {
    // Both judged. A refusal is the old sheet's if it is refused, else the new one's.
    pub fn judge(old: &'a [u8], new: &'a [u8]) -> Result<Sheets<'a>, Noticed>
        ensures { MatchResult result (λ sheets. (sheets.old.now ≡ old.now) × (sheets.new.now ≡ new.now)) (IsRefusal (verdict old.now) (verdict new.now)) }
    {
        let olds = sheet::judge_parts(old);
        if olds.refusal != 0 {
            return Err(Noticed::Old(olds.refusal, olds.place));
        }
        let news = sheet::judge_parts(new);
        if news.refusal != 0 {
            return Err(Noticed::New(news.refusal, news.place));
        }
        Ok(Sheets {
            old,
            new,
            olds,
            news,
        })
    }
}
