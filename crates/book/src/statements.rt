// Statements: lines of the journal as a file.
ghost use Rattle.std.specs.Prelude.{◌≡◌, length};
ghost use Rattle.files.specs.Contents.{of_statement, file_of, settled};
ghost use Rattle.book.specs.Kept.{kept};
ghost use Rattle.book.specs.Statements.{statement_answer, lines_from};

use super::Book;
use domain::{Fault, Line, MAX_RECORDS, Table, admit};
use files::{statement_bytes, write_statement};
use rules::Rule;

impl<R: Rule> Book<R> {
    // Writes lines of the journal into a buffer as a statement, and answers its bytes. Lines are numbered from 0.
    pub fn statement(
        &self,
        journal: &[Line],
        first: usize,
        count: usize,
        out: &mut [u8],
    ) -> Result<usize, Fault>
        ensures answer { result ≡ statement_answer (kept self.now) (length journal.now) first count (length out.old) }
        ensures out { out.new ≡ settled result (file_of (of_statement (lines_from journal.now first count))) out.old }
    {
        admit(1, first <= self.lines)?;
        let follow = self.lines - first;
        admit(2, count <= MAX_RECORDS && count <= follow)?;
        let needed = statement_bytes(count as u16);
        if needed > out.len() {
            return Err(Fault::OutputTooShort { needed });
        }
        if self.lines > journal.len() {
            return Err(Fault::Spoiled {
                table: Table::Journal,
            });
        }
        write_statement(&journal[first..first + count], out)
    }
}
