// Receipts, and the notices that confirm them.
ghost use Rattle.std.specs.Prelude.{◌≡◌};
ghost use Rattle.files.specs.Contents.{notice_of};

use files::{Intro, notice};

// What an accepted schedule hands out. It is owed a confirmation: it cannot be let go, only confirmed, and that once.
// So it derives nothing: it may not be copied or dropped, and `Debug` would be made for no one.
pub struct Receipt {
    intro: Intro,
}

impl Receipt {
    pub(crate) fn new(intro: Intro) -> Receipt
        ensures { result.intro ≡ intro }
    {
        Receipt { intro }
    }

    // The notice that the schedule was accepted, as the bytes of a file.
    pub fn confirm(self) -> [u8; 16]
        ensures { result ≡ notice_of self.intro.day self.intro.sender self.intro.moment }
    {
        let Receipt { intro } = self;
        notice(intro.day, intro.sender, intro.moment)
    }
}
